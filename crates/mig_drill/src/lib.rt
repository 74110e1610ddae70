//! Tries each stop of a plan, on stores in memory, before the plan is carried out.
#![tactic(auto)]

mod drills;
mod faults;
mod limits;
mod stops;
mod stores;
mod texts;
mod writes;

pub use drills::drill;
pub use faults::DrillFault;
pub use limits::MAX_DRILL_SHIFTS;
pub use stops::{Stop, stop_at};
