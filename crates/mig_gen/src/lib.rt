//! Migrations that are made from three numbers.
#![tactic(auto)]

mod cases;
mod lists;

pub use cases::{is_case_size, make_case};
pub use lists::{make_items, numbered};
