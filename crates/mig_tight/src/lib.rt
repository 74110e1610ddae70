//! Plans of single shifts, also where a disk can't hold old and incoming items together.
#![tactic(auto)]

mod checks;
mod errors;
mod planner;
mod plans;
mod queues;
mod spares;

pub use errors::TightError;
pub use plans::tight_plan;
