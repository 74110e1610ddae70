//! The transfer multigraph of a migration: the disks, and an edge for each item that is to go to another disk.
#![tactic(auto)]

mod edges;
mod graphs;
mod loads;

pub use graphs::Graph;
