//! Carries out plans with the copies of a round in flight together.
#![tactic(auto)]

mod copies;
mod lanes;
mod rounds;

pub use copies::run_copies;
pub use lanes::{resume_lanes, start_lanes};
pub use rounds::carry_on;
