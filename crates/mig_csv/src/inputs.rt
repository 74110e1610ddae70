//! The input that three files stand for.
ghost use Rattle.std.specs.Prelude.{◌≡◌, IfErr, IfOk};
ghost use Rattle.mig_base.specs.InputLists.{IsInput};
ghost use Rattle.mig_base.specs.Refusals.{Accepted, AcceptedTight};
ghost use Rattle.mig_base.specs.Targets.{IsRoomy};
ghost use Rattle.mig_csv.specs.Refusals.{IsInputError, IsTightRefusal};

use crate::disks::{DiskList, read_disks};
use crate::errors::InputError;
use crate::items::{PlacedItems, read_now};
use crate::next::read_next;
use crate::room::{all_next, check_room};
use mig_base::{DiskId, Input};
use std::alloc::Global;

/// Reads the input that three files stand for, given by their bytes.
///
/// The disks have the order of the disks file, and the items that of the now file. Each disk has room for the items that
/// are on it and the relocated items that come to it.
///
/// # Errors
///
/// `Refused` comes exactly where something is wrong with the files, and names the first fault: in the disks file, the
/// now file and the next file in this order, in each file the file's length, the header and then the rows in their
/// order; after them an item that the next file lacks, and then a disk that lacks room. `Memory` is want of memory.
pub fn read_input(alloc: Global, disks: &[u8], now: &[u8], next: &[u8]) -> Result<Input, InputError>
    ensures accepted { IfOk result (Accepted (record { disks = disks.now; now = now.now; next = next.now })) }
    ensures roomy { IfOk result IsRoomy }
    ensures refused { IfErr result (IsInputError (record { disks = disks.now; now = now.now; next = next.now })) }
{
    let input = read_tight(alloc, disks, now, next)?;
    check_room(alloc, &input)?;
    Ok(input)
}

/// Reads the input that three files stand for, and doesn't ask whether each disk has room.
///
/// # Errors
///
/// As those of `read_input`, but that no disk is refused for want of room.
pub fn read_tight(alloc: Global, disks: &[u8], now: &[u8], next: &[u8]) -> Result<Input, InputError>
    ensures accepted { IfOk result (AcceptedTight (record { disks = disks.now; now = now.now; next = next.now })) }
    ensures refused { IfErr result (IsTightRefusal (record { disks = disks.now; now = now.now; next = next.now })) }
{
    let listed = read_disks(alloc, disks)?;
    let layout = read_now(alloc, now, &listed)?;
    let places = read_next(alloc, next, &listed, &layout.names)?;
    let next = all_next(alloc, &places)?;
    Ok(input_of(listed, layout, next))
}

/// The input of these disks and items, with the disks that the items are to go to.
pub(crate) fn input_of(listed: DiskList, layout: PlacedItems, next: Vec<DiskId>) -> Input
    requires { IsInput (record { disks = listed.disks.items; items = layout.items.items; spots = layout.spots.items; next = next.items }) }
    ensures { result ≡ record { disks = listed.disks.items; items = layout.items.items; spots = layout.spots.items; next = next.items } }
{
    Input::new(listed.disks, layout.items, layout.spots, next)
}
