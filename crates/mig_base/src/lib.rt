//! The plain types of a migration, the definitions that contracts cite, and the laws that these keep.
#![tactic(auto)]

mod blames;
mod cells;
mod certs;
mod digits;
mod faults;
mod ids;
mod inputs;
mod laws;
mod limits;
mod names;
mod plans;

pub use blames::{Blame, Verdict};
pub use cells::{Cell, Event, Flight};
pub use certs::{Bound, Cert, Class, Side};
pub use digits::read_digits;
pub use faults::{FileKind, Why};
pub use ids::{Colour, CopyId, DiskId, EdgeId, ItemId, Shift, Spot};
pub use inputs::{Disk, Input, Limits};
pub use laws::{
    accepted_is_input, accepted_is_one, bound_is_needed, class_tells, one_cert_for_a_text,
    one_plan_for_a_text, one_way_is_two_sided, partition_is_plan, plan_is_schedule,
    right_is_blameless, targets_are_one,
};
pub use limits::{
    MAX_DISKS, MAX_FILE_BYTES, MAX_ITEMS, MAX_LIMIT, MAX_ROUNDS, MAX_SHIFTS, MAX_SLOTS,
};
pub use names::Name;
pub use plans::{DiskSet, Plan, Round};
