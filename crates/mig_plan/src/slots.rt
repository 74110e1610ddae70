//! Which slots items have now.
ghost use Rattle.std.specs.Prelude.{◌≡◌, ℕ, ◌<◌, ◌≤◌, ◌^◌, true, length, map, slice_index_or, slice_set, All, IfOk, MatchOption};
ghost use Rattle.mig_plan.specs.TakenSlots.{AreFree, AreTaken, AreTakenSlots, AreWidths, IsFirstFree};

use mig_base::{DiskId, Input, Spot};
use mig_split::count_disks;
use std::alloc::{AllocError, Global};

/// The disks of these spots.
fn disks_of(alloc: Global, spots: &[Spot]) -> Result<Vec<DiskId>, AllocError>
    ensures { IfOk result (λ v. v.items ≡ map (λ s. s.disk) spots.now) }
{
    spots.iter().map(|s| s.disk).collect(alloc)
}

/// For each disk a number of slots that the items on it and those that come to it don't pass; all together are twice
/// the items.
fn widths_of(alloc: Global, input: &Input) -> Result<Vec<u32>, AllocError>
    ensures { IfOk result (λ v. AreWidths input.now v.items) }
{
    let mut stops = disks_of(alloc, input.now())?;
    stops.extend_from_slice(input.next())?;
    count_disks(alloc, input.disks().len(), &stops)
}

/// Rows of so many slots, of which none is taken.
fn free_rows(alloc: Global, widths: &[u32]) -> Result<Vec<Vec<bool>>, AllocError>
    ensures { IfOk result (λ v. AreFree widths.now v.items) }
{
    let mut rows = Vec::with_capacity(alloc, widths.len())?;
    for width in widths {
        rows.push(vec![in alloc; false; *width as usize]?)?;
    }
    Ok(rows)
}

/// Takes a slot, where the row has it.
fn take(row: &mut [bool], slot: u32)
    ensures { row.new ≡ slice_set row.old slot true }
{
    if (slot as usize) < row.len() {
        row[slot as usize] = true;
    }
}

/// For each disk, which of so many of its first slots these spots take.
fn rows_of(alloc: Global, widths: &[u32], spots: &[Spot]) -> Result<Vec<Vec<bool>>, AllocError>
    requires { All (λ s. s.disk.0 < length widths.now) spots.now }
    ensures { IfOk result (λ v. AreTaken widths.now spots.now v.items) }
{
    let mut rows = free_rows(alloc, widths)?;
    for spot in spots {
        take(&mut rows[spot.disk.0 as usize], spot.slot);
    }
    Ok(rows)
}

/// For each disk, which of its first slots items have now: as many slots as items are on it or may come to it.
pub fn taken_slots(alloc: Global, input: &Input) -> Result<Vec<Vec<bool>>, AllocError>
    ensures { IfOk result (λ v. AreTakenSlots input.now v.items) }
{
    let widths = widths_of(alloc, input)?;
    rows_of(alloc, &widths, input.now())
}

/// The first slot of a row, from one on, that isn't taken.
pub fn first_free(row: &[bool], from: u32) -> Option<u32>
    requires { length row.now ≤ 2 ^ 17 }
    ensures { MatchOption result ((s : ℕ) → from ≤ s → s < length row.now → slice_index_or row.now s true ≡ true) (IsFirstFree row.now from) }
{
    for slot in from..row.len() as u32 {
        if !row[slot as usize] {
            return Some(slot);
        }
    }
    None
}
