//! What C hands in and gets back.

/// A disk: its limit on transfers that leave it in a round, that on those that reach it (of joint limits the first is both, and
/// the second isn't looked at), and how many slots it has.
#[repr(C)]
#[derive(Clone, Copy)]
pub struct DiskNumbers {
    pub out_limit: u32,
    pub in_limit: u32,
    pub slots: u32,
}

/// An item: the disk and the slot where it is, and the disk that it is to go to. Disks and items are named by their places.
#[repr(C)]
#[derive(Clone, Copy)]
pub struct ItemNumbers {
    pub disk: u32,
    pub slot: u32,
    pub next_disk: u32,
}

/// A shift: the item, the disk and the slot that it goes to, and the round, counted from 1.
#[repr(C)]
#[derive(Clone, Copy)]
pub struct ShiftNumbers {
    pub item: u32,
    pub to_disk: u32,
    pub to_slot: u32,
    pub round: u32,
}

/// What was found: the number of rounds, the greatest quotient, the class (0 even, 1 general, 2 split limits), and the bound: its
/// kind (0 nothing, 1 a disk, 2 a side of a disk, 3 a set of disks), its disk, its side (0 outgoing, 1 incoming), how many moves
/// count, and how many rounds they need.
#[repr(C)]
#[derive(Clone, Copy, PartialEq, Eq)]
pub struct Found {
    pub rounds: u32,
    pub quotient: u32,
    pub class: u32,
    pub bound: u32,
    pub disk: u32,
    pub side: u32,
    pub load: u32,
    pub value: u32,
}

/// What a check says: the plan has as many rounds as the bound's value (0), or more (1); or what is wrong: a round is empty (2),
/// an item isn't where a shift takes it from (3), is shifted twice in a round (4), goes to a slot that isn't free (5), a disk is
/// over its limit (6), an item ends on another disk (7), is shifted too often (8), the number of rounds isn't the one that is
/// counted (9), the quotient (10), the class (11), the load (12), the value (13); or the shifts (14) or what was found (15) can't
/// be of a plan. The round counts from 1, the place is that of the item, of the disk or of the shift; and there is the number
/// that is kept, and the one that is counted.
#[repr(C)]
#[derive(Clone, Copy)]
pub struct Judged {
    pub what: u32,
    pub round: u32,
    pub place: u32,
    pub kept: u32,
    pub counted: u32,
}

/// Why there is no plan.
#[derive(Clone, Copy, Drop)]
pub enum NumbersRefusal {
    /// There are more disks than there may be.
    TooManyDisks,
    /// There are more items than there may be.
    TooManyItems,
    /// A limit or the slots of the disk are out of range.
    OutOfRange { disk: u32 },
    /// The disk that the item is on isn't there.
    UnknownDisk { item: u32 },
    /// The item's slot isn't below the disk's slots.
    SlotTooHigh { item: u32 },
    /// An earlier item has the spot.
    SlotTaken { item: u32 },
    /// The disk that the item is to go to isn't there.
    UnknownNext { item: u32 },
    /// The items on the disk and those that come to it are more than its slots.
    NoRoom { disk: u32, needs: u32, slots: u32 },
    /// Want of memory.
    Memory,
}

/// Why something isn't made of numbers.
#[derive(Clone, Copy, Drop)]
pub(crate) enum Unmade {
    /// They stand for no input, or memory is wanting.
    Unfit(NumbersRefusal),
    /// They do, but it can't be done.
    Impossible(Refused),
}

/// A refusal in numbers: 1 for too many disks, 2 for too many items, 3 for a limit or slots out of range, 4 for an item on a disk that
/// isn't there, 5 for one in a slot that isn't there, 6 for one in another's slot, 7 for one that is to go to a disk that isn't there,
/// 8 for a disk that lacks room, 9 for a disk that more items are to come to than it has slots, 10 where no slot is free; the place
/// of the disk or the item; and of a disk that lacks room or slots, how many slots it needs and has.
#[repr(C)]
#[derive(Clone, Copy)]
pub struct Refused {
    pub cause: u32,
    pub place: u32,
    pub needs: u32,
    pub has: u32,
}

/// The limits of a disk, as in `DiskNumbers`.
#[repr(C)]
#[derive(Clone, Copy)]
pub struct LimitNumbers {
    pub out_limit: u32,
    pub in_limit: u32,
}

/// A transfer from one disk to another.
#[repr(C)]
#[derive(Clone, Copy)]
pub struct PairNumbers {
    pub from: u32,
    pub to: u32,
}

/// What a drain takes: how many rounds, and what shows that no fewer are enough: nothing is on the disk (0); it has `count` items,
/// of which at most `limit` may leave it in a round (1); or in one round less the other disks can take only `count` of them (2).
#[repr(C)]
#[derive(Clone, Copy)]
pub struct DrainNumbers {
    pub rounds: u32,
    pub shown: u32,
    pub count: u32,
    pub limit: u32,
}
