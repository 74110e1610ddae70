//! The checker of plans and certificates. It shares no code with the planner: it goes through a
//! plan round by round over a table of the items' spots, and counts again what a certificate states.
#![tactic(auto)]

mod counted;
mod ends;
mod judging;
mod loads;
mod moved;
mod parts;
mod rounds;
mod running;
mod shifts;
mod taken;

pub use judging::judge;
pub use mig_base::{Blame, Verdict};
pub use running::{layout_after, runs};
