//! A file is saved whole: whatever moment a crash comes at, the old file stands under its name or the new one.
#![tactic(auto)]

mod host_save;
mod mem_save;
mod replacing;
mod save_calls;
mod writing;

pub use host_save::{HostSave, PATH_MAX, node_of};
pub use mem_save::MemSave;
pub use replacing::{Unsaved, save_over};
pub use save_calls::{Inode, SaveCalls, Target};
pub use writing::write_whole;
