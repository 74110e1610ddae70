//! The calls on the files of a store: what the files tell of themselves, and what each call does to them.
#![tactic(auto)]

mod calls;
mod file_bytes;
mod growing;
mod mem_disk;
mod mem_file;
mod mem_files;
mod memory;
mod pick;
mod places;
mod refusals;
mod trouble;
mod values;

pub use calls::{CallError, Calls, Extent, Written};
pub use memory::MemCalls;
pub use pick::FilePick;
pub use places::Place;
pub use refusals::Refusal;
pub use trouble::CallTrouble;
