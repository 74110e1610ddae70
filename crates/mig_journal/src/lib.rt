//! The journal of a migration: which plan is carried out, and how many of its rounds are.
#![tactic(auto)]

mod arming;
mod digests;
mod looking;
mod marks;

pub use arming::{arm, disarm};
pub use digests::digest_of;
pub use looking::{Seen, look};
pub use marks::{mark, marked};
