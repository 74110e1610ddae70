//! The two sides of a transfer graph, or a walk of odd length that shows that there are none.
#![tactic(auto)]

mod climbs;
mod neighbours;
mod searches;
mod trees;
mod two_sides;
mod walks;

pub use two_sides::{SidesError, sides};
pub use walks::Walk;
