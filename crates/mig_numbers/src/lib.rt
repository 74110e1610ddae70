//! Planning over numbers, for C: tables of disks and items in, a table of shifts out; and checks of such plans. No text is made or read.
#![tactic(auto)]

mod checking;
mod draining;
mod numbers;
mod planning;
mod reading;
mod scheduling;
mod spelling;
mod tight;
mod writing;

pub use checking::check_numbers;
pub use draining::drain_numbers;
pub use numbers::{
    DiskNumbers, DrainNumbers, Found, ItemNumbers, Judged, LimitNumbers, PairNumbers, Refused,
    ShiftNumbers,
};
pub use planning::plan_numbers;
pub use scheduling::schedule;
pub use tight::plan_tight_numbers;
