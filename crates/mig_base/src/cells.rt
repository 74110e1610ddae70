ghost use Rattle.std.specs.Prelude.{◌≡◌};
ghost use Rattle.mig_base.specs.Cells.{cell_len};

use crate::names::Name;

/// A cell of a store: a slot of a disk, or one of the journal's cells. Slots count from 0, marks from 1.
#[derive(Clone, Copy, PartialEq, Eq, Hash)]
pub enum Cell {
    Slot { disk: Name, slot: u32 },
    /// The digest of the plan that is carried out.
    Head,
    /// 1 while a plan is carried out.
    Gate,
    /// 1 where so many rounds are carried out.
    Mark { n: u32 },
}

impl Cell {
    /// How many bytes the cell has.
    pub fn len(&self) -> usize
        ensures { result ≡ cell_len self.now }
    {
        match self {
            Cell::Slot { .. } => 4096,
            Cell::Head => 32,
            Cell::Gate => 1,
            Cell::Mark { .. } => 1,
        }
    }
}

/// What a store did with a copy from one slot to another.
#[derive(Clone, Copy, PartialEq, Eq)]
pub enum Event {
    Began { from: Cell, to: Cell },
    Ended { from: Cell, to: Cell },
}

/// A copy from one slot to another.
#[derive(Clone, Copy, PartialEq, Eq)]
pub struct Flight {
    pub from: Cell,
    pub to: Cell,
}
