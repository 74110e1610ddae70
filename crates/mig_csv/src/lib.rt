//! Reading an input from the three CSV files: the disks, the items where they are now, and the disks where they are to
//! be next.
#![tactic(auto)]

mod disks;
mod errors;
mod files;
mod inputs;
mod items;
mod layouts;
mod next;
mod room;
mod rows;

pub use errors::InputError;
pub use inputs::{read_input, read_tight};
pub use layouts::read_layout;
pub use mig_base::{FileKind, Why};
pub use room::check_room;
