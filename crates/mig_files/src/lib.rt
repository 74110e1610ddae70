//! The store of cells over files of the working folder.
#![tactic(auto, using(crate::proofs::Errs::err_any, crate::proofs::TrackingSteps::steps, crate::proofs::Holding::held_looked))]

mod cells;
mod copies;
mod disk_set;
mod item_counts;
mod items;
mod opening;
mod pieces;
mod places;
mod seen;
mod slot_header;
mod store;
mod syncs;
mod tracked;
mod tries;
mod writes;

pub use disk_set::NamedDisks;
pub use store::{FileStore, MOST_OPEN};
