//! What a check says of a plan and its certificate.

use crate::ids::{DiskId, ItemId};

/// What a certificate says of a plan that is right.
#[derive(Clone, Copy, PartialEq, Eq)]
pub enum Verdict {
    /// The plan has as many rounds as the bound states, so no schedule has fewer.
    Optimal,
    /// The plan has more rounds than the bound states.
    Bounded,
}

/// What is wrong with a plan or its certificate. Rounds count from 1.
///
/// `kept` is the number that the certificate states, and `counted` the one that is counted.
#[derive(Clone, Copy, Debug, PartialEq, Eq)]
pub enum Blame {
    /// The round has no shift.
    EmptyRound {
        round: u32,
    },
    /// The shift of this item leaves another spot than the item has.
    NotHere {
        round: u32,
        item: ItemId,
    },
    /// An earlier shift of the round has the item.
    TwiceInRound {
        round: u32,
        item: ItemId,
    },
    /// The item goes to a slot that isn't there or isn't free.
    SlotNotFree {
        round: u32,
        item: ItemId,
    },
    /// So many shifts of the round have the disk as an end, more than its joint limit; or so many leave it, or reach it,
    /// more than its limit on that side, the outgoing one first.
    OverLimit {
        round: u32,
        disk: DiskId,
        count: u32,
    },
    /// The item isn't on its next disk after the last round.
    WrongEnd {
        item: ItemId,
    },
    /// The item stands in so many shifts, more than once or without being relocated.
    MovedTooOften {
        item: ItemId,
        count: u32,
    },
    /// The number of rounds.
    RoundsDiffer {
        kept: u32,
        counted: u32,
    },
    /// The greatest load over limit, or of a side over its limit, rounded up.
    QuotientDiffers {
        kept: u32,
        counted: u32,
    },
    /// Whether the limits are split, or those of the disks that take part even.
    ClassDiffers,
    /// The moves of the bound's disk or side, or inside its set.
    LoadDiffers {
        kept: u32,
        counted: u32,
    },
    /// The rounds that the bound states.
    ValueDiffers {
        kept: u32,
        counted: u32,
    },
    /// Memory was refused, and nothing is said of the plan.
    Memory,
}
