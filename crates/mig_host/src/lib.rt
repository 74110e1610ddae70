//! The calls of a store on the files of the working folder, over the calls of a system (`System`), which tell what was so of its files while other processes act. What decides stands above these: which file a place is, who has taken it, and when it is looked at again. One adapter makes the calls (`HostSystem`); it tells nothing, so what it does with files is trusted.
#![tactic(auto)]

mod devices;
mod disks;
mod failures;
mod files;
mod host;
mod host_system;
mod identity;
mod journal;
mod mounts;
mod opened;
mod system;
mod tables;
mod texts;
mod unsynced;

pub use host::SystemCalls;
pub use host_system::HostSystem;
pub use system::{Access, FileIdentity, Handle, Kind, Stat, System};
