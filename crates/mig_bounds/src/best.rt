//! The best candidate so far.

use mig_base::{DiskId, Side};

/// A disk or a triple of disks.
#[derive(Clone, Copy)]
pub enum SmallSet {
    Disk(DiskId),
    Triple(DiskId, DiskId, DiskId),
}

/// The first of the best disks and triples that a search has met, and its value in rounds.
#[derive(Clone, Copy)]
pub struct BestSmall {
    pub set: SmallSet,
    pub value: u32,
}

/// A disk or a triple, or the component whose disks have this one as their label.
#[derive(Clone, Copy)]
pub enum Witness {
    Small(SmallSet),
    Component(DiskId),
}

/// The first of the best candidates that a search has met, and its value in rounds.
#[derive(Clone, Copy)]
pub struct BestWitness {
    pub witness: Witness,
    pub value: u32,
}

/// The first of the best sides that a search has met, its load, and its value in rounds.
#[derive(Clone, Copy)]
pub struct BestSide {
    pub disk: DiskId,
    pub side: Side,
    pub load: u32,
    pub value: u32,
}
