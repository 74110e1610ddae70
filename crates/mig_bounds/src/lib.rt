//! The search for the best lower bound on the rounds of every schedule.
#![tactic(auto)]

mod best;
mod bounds;
mod components;
mod disks;
mod labels;
mod pairs;
mod sides;
mod triples;

pub use bounds::best_bound;
