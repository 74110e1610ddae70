//! Why a store over files refuses what no call failed at.
ghost use Rattle.std.specs.Prelude.{◌≡◌};
ghost use Rattle.mig_calls.specs.Refusals.{is_found};

use crate::places::Place;
use mig_base::{Cell, Name};

/// Why the store refuses.
#[derive(Clone, Copy)]
pub enum Refusal {
    /// Memory was refused while this file was worked with.
    Memory { place: Place },
    /// A call failed before, which may have been a sync.
    AfterSync,
    /// Calls on this file were interrupted without end.
    Interrupted { place: Place },
    /// Too many files are open to open this one, and the store can close none.
    Full { place: Place },
    /// The disk is a device that ends before the slot does.
    TooShort { slot: Cell },
    /// The slot doesn't hold the item that it should.
    NotHeld { slot: Cell, item: Name },
    /// The slot should hold the item, and the disk's file isn't there.
    NoDisk { slot: Cell, item: Name },
    /// The slot should hold the item, and the disk's file ends within it.
    Cut { slot: Cell, item: Name },
    /// Both slots hold the item, and the first one, which was copied to the other and is to be emptied, has other bytes of it.
    Differs { slot: Cell, other: Cell, item: Name },
    /// The slot is to be copied, and holds no item.
    NoItem { slot: Cell },
    /// The slot is to be emptied or written over, and holds this item, which was seen nowhere else.
    Held { slot: Cell, item: Name },
}

impl Refusal {
    /// Whether the store refuses for what the slots hold, and not for want of memory, of a call that is made or of bytes of a file, or since a call failed.
    pub fn is_found(&self) -> bool
        ensures { result ≡ is_found self.now }
    {
        match self {
            Refusal::Memory { .. }
            | Refusal::AfterSync
            | Refusal::Interrupted { .. }
            | Refusal::Full { .. }
            | Refusal::TooShort { .. }
            | Refusal::Cut { .. } => false,
            Refusal::NotHeld { .. }
            | Refusal::NoDisk { .. }
            | Refusal::Differs { .. }
            | Refusal::NoItem { .. }
            | Refusal::Held { .. } => true,
        }
    }
}
