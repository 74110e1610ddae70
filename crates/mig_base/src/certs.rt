//! Certificates: how good a plan is, and what shows it.

use crate::ids::DiskId;
use crate::plans::DiskSet;

/// Whether limits are split, and if not, whether each disk that takes part has an even limit.
#[derive(Clone, Copy, PartialEq, Eq)]
pub enum Class {
    /// Each disk that takes part has an even limit.
    Even,
    /// Some disk that takes part has an odd limit.
    General,
    /// The disks have an outgoing and an incoming limit.
    Duplex,
}

/// A side of a disk with split limits.
#[derive(Clone, Copy, PartialEq, Eq)]
pub enum Side {
    /// The transfers that leave the disk.
    Outgoing,
    /// The transfers that reach it.
    Incoming,
}

/// A number of rounds that every schedule needs, and the disks that show it.
#[derive(Drop)]
pub enum Bound {
    /// There is no move; the value is 0.
    Nothing,
    /// The disk is an end of `load` moves, and needs `value` rounds for them.
    OfDisk {
        disk: DiskId,
        load: u32,
        value: u32,
    },
    /// So many moves leave the disk, or reach it, and its limit on that side needs `value` rounds for them.
    OfSide {
        disk: DiskId,
        side: Side,
        load: u32,
        value: u32,
    },
    /// So many moves have both ends in the set, which needs `value` rounds for them.
    OfSet {
        disks: DiskSet,
        inside: u32,
        value: u32,
    },
}

/// What is printed with a plan: how good it is, and what shows it.
#[derive(Drop)]
pub struct Cert {
    pub rounds: u32,
    pub quotient: u32,
    pub class: Class,
    pub bound: Bound,
}
