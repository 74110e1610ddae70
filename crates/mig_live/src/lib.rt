//! Carries a plan out one step at a time, and serves reads of its items in between; reads the scripts of such sessions.
#![tactic(auto)]

mod limits;
mod live;
mod orders;
mod scripts;
mod serving;
mod steps;

pub use limits::{MAX_ORDERS, MAX_STEPS};
pub use live::Live;
pub use orders::Order;
pub use scripts::{Script, ScriptError, read_script};
pub use serving::{ServeFault, serve};
