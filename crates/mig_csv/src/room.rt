//! Whether every item has a next disk, and every disk room.
ghost use Rattle.std.specs.Prelude.{◌≡◌, ◌≤◌, ◌<◌, ◌+◌, ◌*◌, IfErr, IfOk, ℕ, Some, length, map, slice_index_or};
ghost use Rattle.mig_base.specs.Targets.{IsRoomy};
ghost use Rattle.mig_base.specs.declared.faults.FileKind.TheVariants as file;
ghost use Rattle.mig_base.specs.declared.faults.Why.TheVariants as why;
ghost use Rattle.mig_csv.specs.Lists.{AreNeeds, RefusesMissing, RefusesRoom, slots_for};

use crate::errors::{InputError, refused};
use mig_base::{Disk, DiskId, FileKind, Input, MAX_ITEMS, Why};
use std::alloc::{AllocError, Global};

/// The next disks, where each item has one.
pub(crate) fn all_next(alloc: Global, next: &[Option<DiskId>]) -> Result<Vec<DiskId>, InputError>
    requires few { length next.now ≤ MAX_ITEMS }
    ensures value { IfOk result (λ r. next.now ≡ map (λ d. Some d) r.items) }
    ensures missing { IfErr result (RefusesMissing next.now) }
{
    let mut disks = Vec::new(alloc);
    for place in next {
        match place {
            Some(disk) => {
                if disks.push(*disk).is_err() {
                    return Err(InputError::Memory);
                }
            }
            None => return Err(refused(FileKind::Now, disks.len() as u32 + 1, Why::NotInNext)),
        }
    }
    Ok(disks)
}

/// Whether each disk has room for what is on it and what comes to it.
///
/// # Errors
///
/// `Refused` names the first disk that lacks room. `Memory` is want of memory.
pub fn check_room(alloc: Global, input: &Input) -> Result<(), InputError>
    ensures roomy { IfOk result (λ _. IsRoomy input.now) }
    ensures lacking { IfErr result (RefusesRoom input.now) }
{
    let Ok(needs) = count_needs(alloc, input) else {
        return Err(InputError::Memory);
    };
    for (k, disk) in input.disks().iter().enumerate() {
        if disk.slots < needs[k] {
            return Err(no_room(k as u32 + 1, disk, needs[k]));
        }
    }
    Ok(())
}

/// How many slots each disk needs: one for each item that is on it now, and one for each relocated item that comes to it.
fn count_needs(alloc: Global, input: &Input) -> Result<Vec<u32>, AllocError>
    ensures { IfOk result (λ needs. AreNeeds input.now needs.items) }
{
    let spots = input.now();
    let next = input.next();
    let mut needs = vec![in alloc; 0; input.disks().len()]?;
    for item in 0..next.len() {
        add_needs(&mut needs, spots[item].disk, next[item]);
    }
    Ok(needs)
}

/// Counts an item that is on one disk and is to go to the other.
fn add_needs(needs: &mut [u32], on: DiskId, to: DiskId)
    requires on { on.0 < length needs.old }
    requires to { to.0 < length needs.old }
    requires few { (v : ℕ) → slice_index_or needs.old v 0 ≤ 2 * MAX_ITEMS }
    ensures len { length needs.new ≡ length needs.old }
    ensures each { (v : ℕ) → slice_index_or needs.new v 0 ≡ slice_index_or needs.old v 0 + slots_for on to v }
{
    needs[on.0 as usize] += 1;
    if to != on {
        needs[to.0 as usize] += 1;
    }
}

/// The refusal of a disk that lacks room.
fn no_room(row: u32, disk: &Disk, needs: u32) -> InputError
    ensures { result ≡ InputError.Refused file.Disks row (why.NoRoom disk.now.name needs disk.now.slots) }
{
    refused(
        FileKind::Disks,
        row,
        Why::NoRoom {
            disk: disk.name,
            needs,
            slots: disk.slots,
        },
    )
}
