//! Next disks that empty a disk, and what shows that fewer rounds are too few.
ghost use Rattle.std.specs.Prelude.{◌≡◌};

use mig_base::DiskId;
use std::marker::Model;

/// The disk that each item is to go to.
#[derive(Debug, Drop)]
pub struct Targets {
    ids: Vec<DiskId>,
}

impl Model for Targets {
    ghost use Rattle.std.specs.Prelude.{List};
    ghost use Rattle.mig_base.specs.declared.ids.DiskId.{DiskId};

    ghost Value = { List DiskId };

    ghost view = { λ t. t.ids.items };
}

impl Targets {
    /// These disks, in the order of the items.
    pub fn of(ids: Vec<DiskId>) -> Targets
        ensures { result ≡ ids.items }
    {
        Targets { ids }
    }

    /// The disks, in the order of the items.
    pub fn ids(&self) -> &[DiskId]
        ensures { result.now ≡ self.now }
    {
        self.ids.as_slice()
    }
}

/// What shows that fewer rounds are too few.
#[derive(Clone, Copy, Debug, PartialEq, Eq)]
pub enum Shown {
    /// The disk has no item, and no round is needed.
    Nothing,
    /// The disk has `load` items, of which at most `limit` may leave it in one round.
    Own { load: u32, limit: u32 },
    /// In one round less the other disks can take only `room` items together.
    Others { room: u32 },
}

/// Next disks that empty a disk, the fewest rounds in which their moves can be made, and what shows that fewer are too few.
#[derive(Debug, Drop)]
pub struct Drained {
    pub next: Targets,
    pub rounds: u32,
    pub shown: Shown,
}
