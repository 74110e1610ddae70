//! Tables of different keys, in the order in which they came.
#![tactic(auto)]

mod exact;
mod key_table;

pub use exact::Exact;
pub use key_table::KeyTable;
