//! Walks over the edges of a graph.
ghost use Rattle.std.specs.Prelude.{◌≡◌};

use mig_base::DiskId;
use std::marker::Model;

/// The disks of a closed walk: an edge joins each with the next, and the last with the first.
#[derive(Debug, Drop)]
pub struct Walk {
    disks: Vec<DiskId>,
}

impl Model for Walk {
    ghost use Rattle.std.specs.Prelude.{List};
    ghost use Rattle.mig_base.specs.declared.ids.DiskId.{DiskId};

    ghost Value = { List DiskId };

    ghost view = { λ w. w.disks.items };
}

impl Walk {
    /// The walk over these disks.
    pub(crate) fn of(disks: Vec<DiskId>) -> Walk
        ensures { result ≡ disks.items }
    {
        Walk { disks }
    }

    /// The walk's disks, in order.
    pub fn disks(&self) -> &[DiskId]
        ensures { result.now ≡ self.now }
    {
        self.disks.as_slice()
    }
}
