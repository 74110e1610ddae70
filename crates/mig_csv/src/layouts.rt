//! Reading where items are, without where they are to go.
ghost use Rattle.std.specs.Prelude.{◌≡◌, IfErr, IfOk, map};
ghost use Rattle.mig_csv.specs.Listings.{IsListing, IsListingRefusal};

use crate::disks::read_disks;
use crate::errors::InputError;
use crate::inputs::input_of;
use crate::items::read_now;
use mig_base::{DiskId, Input, Spot};
use std::alloc::Global;

/// Reads the input that a disks file and a now file stand for, given by their bytes. Each item's next disk is the one
/// where it is.
///
/// # Errors
///
/// `Refused` comes exactly where something is wrong with the two files, and names the first fault, as for three.
/// `Memory` is want of memory.
pub fn read_layout(alloc: Global, disks: &[u8], now: &[u8]) -> Result<Input, InputError>
    ensures listed { IfOk result (IsListing disks.now now.now) }
    ensures refused { IfErr result (IsListingRefusal disks.now now.now) }
{
    let listed = read_disks(alloc, disks)?;
    let layout = read_now(alloc, now, &listed)?;
    let next = disks_of(alloc, &layout.spots)?;
    Ok(input_of(listed, layout, next))
}

// The disks of these spots.
fn disks_of(alloc: Global, spots: &[Spot]) -> Result<Vec<DiskId>, InputError>
    ensures value { IfOk result (λ disks. disks.items ≡ map (λ spot. spot.disk) spots.now) }
    ensures memory { IfErr result (λ e. e ≡ InputError.Memory) }
{
    let mut disks = Vec::new(alloc);
    for spot in spots {
        if disks.push(spot.disk).is_err() {
            return Err(InputError::Memory);
        }
    }
    Ok(disks)
}
