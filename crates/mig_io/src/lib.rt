//! The folder that the program's files stand in, the sink that its texts go into, and the faults of both.
#![tactic(auto)]

mod dir;
mod folder;
mod mem_sink;
mod memory;
mod place;
mod places;
mod reading;
mod sink;
mod std_sink;

pub use dir::DirFolder;
pub use folder::{Folder, LoadFault, SaveFailed};
pub use mem_sink::MemSink;
pub use memory::MemFolder;
pub use reading::read_first;
pub use sink::{Sink, SinkFailed};
pub use std_sink::StdSink;
