//! The spots that relocated items are given.
ghost use Rattle.std.specs.Prelude.{IfOk};
ghost use Rattle.mig_base.specs.Targets.{AreTargets, IsRoomy};

use crate::slots::{first_free, taken_slots};
use mig_base::{Input, ItemId, Spot};
use std::alloc::{AllocError, Global};

/// The spots that relocated items are given, in item order.
///
/// An item's spot is on its next disk, at the lowest slot that no item has now and that no earlier of these spots has.
/// Each disk has a cursor below which all of its slots are taken, so the time is linear in the disks and items. Errs
/// for want of memory only.
pub fn target_spots(alloc: Global, input: &Input) -> Result<Vec<Spot>, AllocError>
    requires { IsRoomy input.now }
    ensures { IfOk result (λ v. AreTargets input.now v.items) }
{
    let next = input.next();
    let taken = taken_slots(alloc, input)?;
    let mut cursors = vec![in alloc; 0; taken.len()]?;
    let mut targets = Vec::new(alloc);
    for item in 0..next.len() {
        if input.relocated(ItemId(item as u32)) {
            let disk = next[item];
            let Some(slot) = first_free(&taken[disk.0 as usize], cursors[disk.0 as usize]) else {
                unreachable!()
            };
            targets.push(Spot { disk, slot })?;
            cursors[disk.0 as usize] = slot + 1;
        }
    }
    Ok(targets)
}
