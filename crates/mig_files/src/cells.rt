//! Reads, writes and syncs of cells, by calls on files.
ghost use Rattle.std.specs.Prelude.{◌≡◌, ◌≤◌, ◌<◌, ◌^◌, IsTrue, IsFalse, IfOk, IfSome, OnOk, OnErr, length};
ghost use Rattle.mig_base.specs.FaultCounts.{Rose};
ghost use Rattle.mig_base.specs.Cells.{cell_len};
ghost use Rattle.mig_calls.specs.Places.{file_of, offset_of};
ghost use Rattle.mig_calls.specs.Files.{EndsAt, HasBytes, len_of};
ghost use Rattle.mig_calls.specs.Refusals.{WhereTold};
ghost use Rattle.mig_files.specs.Derived.{image_of};
ghost use Rattle.mig_files.specs.Tracking.{IsTracked, IsStep, IsWriteStep, StaysAlive, StaysSame, WritesAlive};

use crate::opening::{enter, extent};
use crate::pieces::write_all;
use crate::places::{end_of, place_of};
use crate::slot_header::item_of;
use crate::tracked::{Tracked, refuse_with};
use crate::tries::read_found;
use mig_base::Cell;
use mig_calls::{Calls, Extent, Place, Refusal};
use mig_store::StoreFailed;

/// Makes a disk's file the last used one, in place of another where too many are open. The journal stays open.
fn enter_place<C: Calls>(
    calls: &mut C,
    tracked: &mut Tracked,
    place: &Place,
) -> Result<(), StoreFailed>
    requires alive { IsFalse tracked.old.notes.lost }
    requires tracked { IsTracked tracked.old.notes (C.Calls.state calls.old) }
    ensures step { IsStep tracked.new.notes (C.Calls.state calls.old) (C.Calls.state calls.new) }
    ensures kept { OnOk result (StaysAlive tracked.new.notes (C.Calls.state calls.old) (C.Calls.state calls.new)) }
    ensures cause { OnErr result (Rose (C.Calls.state calls.old).faults (C.Calls.state calls.new).faults) }
{
    match place {
        Place::Disk(name) => enter(calls, tracked, name),
        Place::Journal => Ok(()),
    }
}

/// Opens the file of a cell, and answers how many bytes it has.
pub fn open_place<C: Calls>(
    calls: &mut C,
    tracked: &mut Tracked,
    place: &Place,
) -> Result<Extent, StoreFailed>
    requires alive { IsFalse tracked.old.notes.lost }
    requires tracked { IsTracked tracked.old.notes (C.Calls.state calls.old) }
    ensures end { IfOk result (λ found. IsTrue ((C.Calls.state calls.old).told place.now) → EndsAt ((C.Calls.state calls.old).reads place.now) (len_of found)) }
    ensures step { IsStep tracked.new.notes (C.Calls.state calls.old) (C.Calls.state calls.new) }
    ensures kept { OnOk result (StaysAlive tracked.new.notes (C.Calls.state calls.old) (C.Calls.state calls.new)) }
    ensures cause { OnErr result (Rose (C.Calls.state calls.old).faults (C.Calls.state calls.new).faults) }
{
    enter_place(calls, tracked, place)?;
    extent(calls, tracked, place)
}

/// Reads the first bytes of a cell, and answers how many bytes its file has.
pub fn read_part<C: Calls>(
    calls: &mut C,
    tracked: &mut Tracked,
    cell: &Cell,
    into: &mut [u8],
) -> Result<Extent, StoreFailed>
    requires length { length into.old ≤ cell_len cell.now }
    requires alive { IsFalse tracked.old.notes.lost }
    requires tracked { IsTracked tracked.old.notes (C.Calls.state calls.old) }
    ensures bytes { OnOk result (WhereTold (C.Calls.state calls.old) cell.now (HasBytes ((C.Calls.state calls.old).reads (file_of cell.now)) (offset_of cell.now) (length into.old) into.new)) }
    ensures end { IfOk result (λ found. WhereTold (C.Calls.state calls.old) cell.now (EndsAt ((C.Calls.state calls.old).reads (file_of cell.now)) (len_of found))) }
    ensures step { IsStep tracked.new.notes (C.Calls.state calls.old) (C.Calls.state calls.new) }
    ensures kept { OnOk result (StaysAlive tracked.new.notes (C.Calls.state calls.old) (C.Calls.state calls.new)) }
    ensures cause { OnErr result (Rose (C.Calls.state calls.old).faults (C.Calls.state calls.new).faults) }
{
    let (place, offset) = place_of(cell);
    let found = open_place(calls, tracked, &place)?;
    read_found(calls, &place, offset, &found, into)?;
    Ok(found)
}

/// Opens the file of a cell that is to be written. A slot past the end of a device is refused.
fn open_with_room<C: Calls>(
    calls: &mut C,
    tracked: &mut Tracked,
    cell: &Cell,
    place: &Place,
) -> Result<(), StoreFailed>
    requires file { place.now ≡ file_of cell.now }
    requires alive { IsFalse tracked.old.notes.lost }
    requires tracked { IsTracked tracked.old.notes (C.Calls.state calls.old) }
    ensures step { IsStep tracked.new.notes (C.Calls.state calls.old) (C.Calls.state calls.new) }
    ensures kept { OnOk result (StaysAlive tracked.new.notes (C.Calls.state calls.old) (C.Calls.state calls.new)) }
    ensures cause { OnErr result (Rose (C.Calls.state calls.old).faults (C.Calls.state calls.new).faults) }
{
    let found = open_place(calls, tracked, place)?;
    check_room(calls, tracked, cell, &found)
}

/// Writes a cell.
pub fn write_cell<C: Calls>(
    calls: &mut C,
    tracked: &mut Tracked,
    cell: &Cell,
    bytes: &[u8],
) -> Result<(), StoreFailed>
    requires length { length bytes.now ≡ cell_len cell.now }
    requires alive { IsFalse tracked.old.notes.lost }
    requires tracked { IsTracked tracked.old.notes (C.Calls.state calls.old) }
    requires claimed { IsTrue (C.Calls.state calls.old).claimed }
    ensures written { OnOk result (IfSome (image_of (C.Calls.state calls.new) cell.now) (λ told. told ≡ bytes.now)) }
    ensures step { IsWriteStep tracked.new.notes (file_of cell.now) (offset_of cell.now) (cell_len cell.now) (C.Calls.state calls.old) (C.Calls.state calls.new) }
    ensures kept { OnOk result (WritesAlive tracked.new.notes (C.Calls.state calls.old) (C.Calls.state calls.new)) }
    ensures cause { OnErr result (Rose (C.Calls.state calls.old).faults (C.Calls.state calls.new).faults) }
{
    let (place, offset) = place_of(cell);
    open_with_room(calls, tracked, cell, &place)?;
    write_all(calls, tracked, &place, offset, bytes)
}

/// Reads a cell, zeros where it was never written. A slot past the end of a device is refused, and an item that its file's end cuts.
pub fn read_cell<C: Calls>(
    calls: &mut C,
    tracked: &mut Tracked,
    cell: &Cell,
    into: &mut [u8],
) -> Result<(), StoreFailed>
    requires length { length into.old ≡ cell_len cell.now }
    requires alive { IsFalse tracked.old.notes.lost }
    requires tracked { IsTracked tracked.old.notes (C.Calls.state calls.old) }
    ensures bytes { OnOk result (IfSome (image_of (C.Calls.state calls.old) cell.now) (λ told. into.new ≡ told)) }
    ensures found { OnOk result (WhereTold (C.Calls.state calls.old) cell.now (HasBytes ((C.Calls.state calls.old).reads (file_of cell.now)) (offset_of cell.now) (length into.old) into.new)) }
    ensures step { IsStep tracked.new.notes (C.Calls.state calls.old) (C.Calls.state calls.new) }
    ensures cause { OnErr result (Rose (C.Calls.state calls.old).faults (C.Calls.state calls.new).faults) }
{
    let found = read_part(calls, tracked, cell, into)?;
    check_room(calls, tracked, cell, &found)?;
    check_whole(calls, tracked, cell, into, &found)
}

/// Refuses an item, which these bytes are, where its file ends before its slot does.
fn check_whole<C: Calls>(
    calls: &mut C,
    tracked: &Tracked,
    cell: &Cell,
    bytes: &[u8],
    found: &Extent,
) -> Result<(), StoreFailed>
    requires tracked { IsTracked tracked.now.notes (C.Calls.state calls.old) }
    requires end { WhereTold (C.Calls.state calls.old) cell.now (EndsAt ((C.Calls.state calls.old).reads (file_of cell.now)) (len_of found.now)) }
    ensures step { IsStep tracked.now.notes (C.Calls.state calls.old) (C.Calls.state calls.new) }
    ensures cause { OnErr result (Rose (C.Calls.state calls.old).faults (C.Calls.state calls.new).faults) }
{
    if found.len() >= end_of(cell) {
        return Ok(());
    }
    match bytes.first_chunk().and_then(item_of) {
        Some(item) => {
            let slot = *cell;
            Err(refuse_with(calls, tracked, &Refusal::Cut { slot, item }))
        }
        None => Ok(()),
    }
}

/// Refuses a slot past the end of a device.
fn check_room<C: Calls>(
    calls: &mut C,
    tracked: &Tracked,
    cell: &Cell,
    found: &Extent,
) -> Result<(), StoreFailed>
    requires tracked { IsTracked tracked.now.notes (C.Calls.state calls.old) }
    requires end { WhereTold (C.Calls.state calls.old) cell.now (EndsAt ((C.Calls.state calls.old).reads (file_of cell.now)) (len_of found.now)) }
    ensures step { IsStep tracked.now.notes (C.Calls.state calls.old) (C.Calls.state calls.new) }
    ensures kept { OnOk result (StaysSame (C.Calls.state calls.old) (C.Calls.state calls.new)) }
    ensures cause { OnErr result (Rose (C.Calls.state calls.old).faults (C.Calls.state calls.new).faults) }
{
    match (cell, found) {
        (Cell::Slot { .. }, Extent::Device { len }) if *len < end_of(cell) => {
            Err(refuse_with(calls, tracked, &Refusal::TooShort { slot: *cell }))
        }
        _ => Ok(()),
    }
}
