//! Plans of a migration: where each item goes, and in which round.
#![tactic(auto)]

mod colourings;
mod directions;
mod lowered;
mod plans;
mod rounds;
mod rows;
mod slots;
mod targets;

pub use lowered::lowered_quotient;
pub use plans::{make_lowered_plan, make_plan, make_plan_from};
pub use targets::target_spots;
