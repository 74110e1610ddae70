//! Next disks that empty a disk in the fewest rounds.
#![tactic(auto)]

mod drained;
mod drains;
mod errors;
mod receivers;

pub use drained::{Drained, Shown, Targets};
pub use drains::drain;
pub use errors::DrainError;
