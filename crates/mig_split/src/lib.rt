//! Copies of disks, so that no copy has more than a given number of ends.
#![tactic(auto)]

mod copies;
mod dealing;
mod decks;
mod ends;
mod sharing;

pub use copies::{Copies, Sides, split_limits, split_nodes, split_sides};
pub use decks::count_disks;
pub use sharing::{Nodes, share_nodes};
