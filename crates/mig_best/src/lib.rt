//! The plan with the fewest rounds, and its certificate.
#![tactic(auto)]

mod certifying;
mod choosing;

pub use certifying::{Certified, certified_plan, value_of};
pub use choosing::{best_plan, best_plan_from};
