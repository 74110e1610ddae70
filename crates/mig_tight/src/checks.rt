//! Whether the items fit, and whether any is relocated.
ghost use Rattle.std.specs.Prelude.{◌≡◌, ◌↔◌, ◌<◌, length, IfOk, IsTrue, MatchOption};
ghost use Rattle.mig_base.specs.TightPlans.{Fits, HasMove};
ghost use Rattle.mig_tight.specs.Causes.{IsFirstOverfull};

use mig_base::{DiskId, Input, ItemId};
use mig_split::count_disks;
use std::alloc::{AllocError, Global};

/// A disk that is the next disk of more items than it has slots.
#[derive(Clone, Copy, Debug, PartialEq, Eq)]
pub struct Overfull {
    pub disk: DiskId,
    pub needs: u32,
    pub slots: u32,
}

/// The first disk that is the next disk of more items than it has slots.
pub fn first_overfull(alloc: Global, input: &Input) -> Result<Option<Overfull>, AllocError>
    ensures { IfOk result (λ o. MatchOption o (Fits input.now) (λ f. IsFirstOverfull input.now f.disk.0 f.needs f.slots)) }
{
    let disks = input.disks();
    let needs = count_disks(alloc, disks.len(), input.next())?;
    for disk in 0..disks.len() {
        if disks[disk].slots < needs[disk] {
            return Ok(Some(Overfull {
                disk: DiskId(disk as u32),
                needs: needs[disk],
                slots: disks[disk].slots,
            }));
        }
    }
    Ok(None)
}

/// Whether some item is relocated.
pub fn has_move(input: &Input) -> bool
    ensures moves { IsTrue result → HasMove input.now }
    ensures stays { ¬ IsTrue result → ¬ HasMove input.now }
{
    for item in 0..input.next().len() {
        if input.relocated(ItemId(item as u32)) {
            return true;
        }
    }
    false
}
