//! The free slots that items may be shifted to.
ghost use Rattle.std.specs.Prelude.{◌≡◌, ◌+◌, ◌<◌, length, map, IfOk, OnOk};
ghost use Rattle.mig_tight.specs.PlanStates.{ArePlaced, HasSpares, first_slots};
ghost use Rattle.mig_tight.specs.Spares.{AreEnds, AreSearchWidths, SparesBefore};

use mig_base::{DiskId, Input, Spot};
use mig_keys::KeyTable;
use mig_split::count_disks;
use std::alloc::{AllocError, Global};

/// The disks of these spots.
fn disks_of(alloc: Global, spots: &[Spot]) -> Result<Vec<DiskId>, AllocError>
    ensures { IfOk result (λ v. v.items ≡ map (λ s. s.disk) spots.now) }
{
    spots.iter().map(|s| s.disk).collect(alloc)
}

/// How many items are on each disk or belong on it; one that is to stay counts twice.
fn ends_of(alloc: Global, input: &Input) -> Result<Vec<u32>, AllocError>
    ensures { IfOk result (λ v. AreEnds input.now v.items) }
{
    let mut stops = disks_of(alloc, input.now())?;
    stops.extend_from_slice(input.next())?;
    count_disks(alloc, input.disks().len(), &stops)
}

/// How many of its first slots are looked at, for each disk.
fn widths_of(alloc: Global, input: &Input) -> Result<Vec<u32>, AllocError>
    ensures { IfOk result (λ v. AreSearchWidths input.now v.items) }
{
    let disks = input.disks();
    let ends = ends_of(alloc, input)?;
    let mut widths = Vec::with_capacity(alloc, disks.len())?;
    for disk in 0..disks.len() {
        widths.push(disks[disk].slots.min(ends[disk] + 1))?;
    }
    Ok(widths)
}

/// Adds the free slots among so many first slots of a disk.
fn add_free(
    input: &Input,
    taken: &KeyTable<Spot>,
    disk: DiskId,
    width: u32,
    spares: &mut Vec<Spot>,
) -> Result<(), AllocError>
    requires taken { taken.now ≡ input.now.spots }
    requires there { disk.0 < length input.now.disks }
    requires width { width ≡ first_slots input.now disk.0 }
    requires before { SparesBefore input.now disk.0 0 spares.old.items }
    ensures { OnOk result (SparesBefore input.now (disk.0 + 1) 0 spares.new.items) }
{
    for slot in 0..width {
        let spot = Spot { disk, slot };
        if !taken.contains(&spot) {
            spares.push(spot)?;
        }
    }
    Ok(())
}

/// The free slots among the first ones of each disk: among as many as items are on it or belong on it, and one more. More
/// are never used, and to look at all of them would take far longer, where disks are large and nearly empty.
pub fn free_spots(alloc: Global, input: &Input) -> Result<Vec<Spot>, AllocError>
    ensures placed { IfOk result (λ v. ArePlaced input.now input.now.spots v.items) }
    ensures enough { IfOk result (λ v. HasSpares input.now input.now.spots v.items) }
{
    input.keeps_rules();
    let widths = widths_of(alloc, input)?;
    let taken = KeyTable::of(alloc, input.now())?;
    let mut spares = Vec::new(alloc);
    for disk in 0..widths.len() {
        add_free(
            input,
            &taken,
            DiskId(disk as u32),
            widths[disk],
            &mut spares,
        )?;
    }
    Ok(spares)
}
