//! Which items slots hold, and what is refused so that none is lost.
ghost use Rattle.std.specs.Prelude.{◌≡◌, ◌≢◌, ◌≤◌, ◌+◌, Some, IsTrue, IsFalse, IfOk, IfSome, OnOk, OnErr, length};
ghost use Rattle.mig_base.specs.FaultCounts.{Rose};
ghost use Rattle.mig_base.specs.Cells.{cell_len, is_slot};
ghost use Rattle.mig_base.specs.Images.{NoCell};
ghost use Rattle.mig_calls.specs.Places.{file_of, offset_of};
ghost use Rattle.mig_calls.specs.Files.{EndsAt, HasBytes, len_of};
ghost use Rattle.mig_calls.specs.Refusals.{HoldsItem, WhereTold};
ghost use Rattle.mig_files.specs.Derived.{image_of};
ghost use Rattle.mig_files.specs.Grounds.{IsFaultFor, IsLastBut};
ghost use Rattle.mig_files.specs.Seeing.{seen_at, seen_in, AreHeld, KeepsSeen, MayBeEmptied, IsFreeFor};
ghost use Rattle.mig_files.specs.Tracking.{IsTracked, IsStep, StaysAlive, StaysSame};
ghost use Rattle.mig_store.specs.Grounds.{IsElsewhere, IsLast, Lacks, Remembers};

use crate::cells::{open_place, read_part};
use crate::places::{end_of, place_of};
use crate::seen::SeenItems;
use crate::slot_header::{HEADER, first_of, is_header, item_of};
use crate::tracked::{Tracked, no_memory, refuse_with};
use crate::tries::read_found;
use mig_base::{Cell, Name};
use mig_calls::{Calls, Extent, Refusal};
use mig_store::StoreFailed;

/// Notes that a slot holds an item. One that its file's end cuts is refused.
pub fn note_held<C: Calls>(
    calls: &mut C,
    tracked: &Tracked,
    seen: &mut SeenItems,
    slot: &Cell,
    item: &Name,
    found: &Extent,
) -> Result<(), StoreFailed>
    requires slot { IsTrue (is_slot slot.now) }
    requires tracked { IsTracked tracked.now.notes (C.Calls.state calls.old) }
    requires end { WhereTold (C.Calls.state calls.old) slot.now (EndsAt ((C.Calls.state calls.old).reads (file_of slot.now)) (len_of found.now)) }
    requires holds { WhereTold (C.Calls.state calls.old) slot.now (HoldsItem (C.Calls.state calls.old) slot.now item.now) }
    requires held { AreHeld (C.Calls.state calls.old) seen.old }
    ensures whole { OnOk result (offset_of slot.now + cell_len slot.now ≤ len_of found.now) }
    ensures noted { OnOk result (seen_at seen.new slot.now ≡ Some item.now) }
    ensures others { KeepsSeen seen.old seen.new slot.now }
    ensures held { AreHeld (C.Calls.state calls.new) seen.new }
    ensures step { IsStep tracked.now.notes (C.Calls.state calls.old) (C.Calls.state calls.new) }
    ensures cause { OnErr result (Rose (C.Calls.state calls.old).faults (C.Calls.state calls.new).faults) }
{
    if found.len() < end_of(slot) {
        let slot = *slot;
        let item = *item;
        return Err(refuse_with(calls, tracked, &Refusal::Cut { slot, item }));
    }
    note_seen(calls, tracked, seen, slot, item, None)
}

/// Notes where an item is, and from where it was copied, if it was.
pub fn note_seen<C: Calls>(
    calls: &mut C,
    tracked: &Tracked,
    seen: &mut SeenItems,
    slot: &Cell,
    item: &Name,
    from: Option<Cell>,
) -> Result<(), StoreFailed>
    requires slot { IsTrue (is_slot slot.now) }
    requires copied { IfSome from (λ other. (other ≢ slot.now) × (seen_at seen.old other ≡ Some item.now)) }
    requires tracked { IsTracked tracked.now.notes (C.Calls.state calls.old) }
    requires holds { WhereTold (C.Calls.state calls.old) slot.now (HoldsItem (C.Calls.state calls.old) slot.now item.now) }
    requires held { AreHeld (C.Calls.state calls.old) seen.old }
    ensures noted { OnOk result (seen_at seen.new slot.now ≡ Some item.now) }
    ensures others { KeepsSeen seen.old seen.new slot.now }
    ensures held { AreHeld (C.Calls.state calls.new) seen.new }
    ensures step { IsStep tracked.now.notes (C.Calls.state calls.old) (C.Calls.state calls.new) }
    ensures cause { OnErr result (Rose (C.Calls.state calls.old).faults (C.Calls.state calls.new).faults) }
{
    match seen.note(item, slot, from) {
        Ok(()) => Ok(()),
        Err(_) => {
            let (place, _) = place_of(slot);
            Err(no_memory(calls, tracked, &place))
        }
    }
}

/// Notes which item a slot holds that was read, where none was seen there. Want of memory leaves it unseen.
pub fn note_read<C: Calls>(calls: &C, seen: &mut SeenItems, cell: &Cell, bytes: &[u8])
    requires length { length bytes.now ≡ cell_len cell.now }
    requires found { WhereTold (C.Calls.state calls.now) cell.now (HasBytes ((C.Calls.state calls.now).reads (file_of cell.now)) (offset_of cell.now) (length bytes.now) bytes.now) }
    requires held { AreHeld (C.Calls.state calls.now) seen.old }
    ensures others { KeepsSeen seen.old seen.new cell.now }
    ensures seen { Remembers NoCell (seen_in seen.old) (seen_in seen.new) }
    ensures held { AreHeld (C.Calls.state calls.now) seen.new }
{
    match (cell, seen.at(cell)) {
        (Cell::Slot { .. }, None) => {}
        _ => return,
    }
    if let Some(item) = item_of(&first_of(bytes)) {
        match seen.note(&item, cell, None) {
            Ok(()) | Err(_) => {}
        }
    }
}

/// Refuses a slot that doesn't hold the whole of the item, and notes where it is.
pub fn expects<C: Calls>(
    calls: &mut C,
    tracked: &mut Tracked,
    seen: &mut SeenItems,
    slot: &Cell,
    item: &Name,
) -> Result<(), StoreFailed>
    requires slot { IsTrue (is_slot slot.now) }
    requires alive { IsFalse tracked.old.notes.lost }
    requires tracked { IsTracked tracked.old.notes (C.Calls.state calls.old) }
    requires held { AreHeld (C.Calls.state calls.old) seen.old }
    ensures holds { OnOk result (WhereTold (C.Calls.state calls.old) slot.now (HoldsItem (C.Calls.state calls.old) slot.now item.now)) }
    ensures noted { OnOk result (seen_at seen.new slot.now ≡ Some item.now) }
    ensures others { KeepsSeen seen.old seen.new slot.now }
    ensures held { AreHeld (C.Calls.state calls.new) seen.new }
    ensures step { IsStep tracked.new.notes (C.Calls.state calls.old) (C.Calls.state calls.new) }
    ensures cause { OnErr result (IsFaultFor (Lacks (image_of (C.Calls.state calls.old)) slot.now item.now) (C.Calls.state calls.old) (C.Calls.state calls.new)) }
{
    let mut first = [0; HEADER];
    let found = header_there(calls, tracked, slot, item, &mut first)?;
    check_held(calls, tracked, slot, item, &first)?;
    note_held(calls, tracked, seen, slot, item, &found)
}

/// The first bytes of a slot that should hold an item, and how many bytes its file has. That the file isn't there is refused before it is read.
fn header_there<C: Calls>(
    calls: &mut C,
    tracked: &mut Tracked,
    slot: &Cell,
    item: &Name,
    into: &mut [u8; 34],
) -> Result<Extent, StoreFailed>
    requires slot { IsTrue (is_slot slot.now) }
    requires alive { IsFalse tracked.old.notes.lost }
    requires tracked { IsTracked tracked.old.notes (C.Calls.state calls.old) }
    ensures header { OnOk result (WhereTold (C.Calls.state calls.old) slot.now (HasBytes ((C.Calls.state calls.old).reads (file_of slot.now)) (offset_of slot.now) 34 into.new)) }
    ensures end { IfOk result (λ found. WhereTold (C.Calls.state calls.old) slot.now (EndsAt ((C.Calls.state calls.old).reads (file_of slot.now)) (len_of found))) }
    ensures step { IsStep tracked.new.notes (C.Calls.state calls.old) (C.Calls.state calls.new) }
    ensures cause { OnErr result (IsFaultFor (Lacks (image_of (C.Calls.state calls.old)) slot.now item.now) (C.Calls.state calls.old) (C.Calls.state calls.new)) }
{
    let (place, offset) = place_of(slot);
    let found = open_place(calls, tracked, &place)?;
    if let Extent::Absent = found {
        let slot = *slot;
        let item = *item;
        return Err(refuse_with(calls, tracked, &Refusal::NoDisk { slot, item }));
    }
    read_found(calls, &place, offset, &found, into)?;
    Ok(found)
}

/// Refuses a slot whose first bytes aren't the item's.
fn check_held<C: Calls>(
    calls: &mut C,
    tracked: &Tracked,
    slot: &Cell,
    item: &Name,
    first: &[u8; 34],
) -> Result<(), StoreFailed>
    requires slot { IsTrue (is_slot slot.now) }
    requires tracked { IsTracked tracked.now.notes (C.Calls.state calls.old) }
    requires header { WhereTold (C.Calls.state calls.old) slot.now (HasBytes ((C.Calls.state calls.old).reads (file_of slot.now)) (offset_of slot.now) 34 first.now) }
    ensures held { OnOk result (WhereTold (C.Calls.state calls.old) slot.now (HoldsItem (C.Calls.state calls.old) slot.now item.now)) }
    ensures step { IsStep tracked.now.notes (C.Calls.state calls.old) (C.Calls.state calls.new) }
    ensures cause { OnErr result (IsFaultFor (Lacks (image_of (C.Calls.state calls.old)) slot.now item.now) (C.Calls.state calls.old) (C.Calls.state calls.new)) }
{
    if is_header(first, item) {
        return Ok(());
    }
    let slot = *slot;
    let item = *item;
    Err(refuse_with(calls, tracked, &Refusal::NotHeld { slot, item }))
}

/// Refuses a slot that holds this item, unless this process has seen it elsewhere.
fn check_item<C: Calls>(
    calls: &mut C,
    tracked: &Tracked,
    seen: &SeenItems,
    slot: &Cell,
    item: &Name,
) -> Result<(), StoreFailed>
    requires tracked { IsTracked tracked.now.notes (C.Calls.state calls.old) }
    requires held { WhereTold (C.Calls.state calls.old) slot.now (HoldsItem (C.Calls.state calls.old) slot.now item.now) }
    ensures elsewhere { OnOk result (IsElsewhere (seen_in seen.now) item.now slot.now) }
    ensures step { IsStep tracked.now.notes (C.Calls.state calls.old) (C.Calls.state calls.new) }
    ensures kept { OnOk result (StaysSame (C.Calls.state calls.old) (C.Calls.state calls.new)) }
    ensures cause { OnErr result (IsFaultFor (¬ IsElsewhere (seen_in seen.now) item.now slot.now) (C.Calls.state calls.old) (C.Calls.state calls.new)) }
{
    if seen.is_elsewhere(item, slot) {
        return Ok(());
    }
    let slot = *slot;
    let item = *item;
    Err(refuse_with(calls, tracked, &Refusal::Held { slot, item }))
}

/// Refuses a slot with these first bytes where they are of an item that this process has seen nowhere else.
fn check_free<C: Calls>(
    calls: &mut C,
    tracked: &Tracked,
    seen: &SeenItems,
    slot: &Cell,
    first: &[u8; 34],
) -> Result<(), StoreFailed>
    requires slot { IsTrue (is_slot slot.now) }
    requires tracked { IsTracked tracked.now.notes (C.Calls.state calls.old) }
    requires header { WhereTold (C.Calls.state calls.old) slot.now (HasBytes ((C.Calls.state calls.old).reads (file_of slot.now)) (offset_of slot.now) 34 first.now) }
    ensures free { OnOk result (MayBeEmptied (C.Calls.state calls.old) seen.now slot.now) }
    ensures step { IsStep tracked.now.notes (C.Calls.state calls.old) (C.Calls.state calls.new) }
    ensures kept { OnOk result (StaysSame (C.Calls.state calls.old) (C.Calls.state calls.new)) }
    ensures cause { OnErr result (IsFaultFor (IsLast (image_of (C.Calls.state calls.old)) (seen_in seen.now) slot.now) (C.Calls.state calls.old) (C.Calls.state calls.new)) }
{
    match item_of(first) {
        Some(item) => check_item(calls, tracked, seen, slot, &item),
        None => Ok(()),
    }
}

/// Refuses a slot that holds an item which this process has seen nowhere else, and answers how many bytes its file has.
pub fn expects_free<C: Calls>(
    calls: &mut C,
    tracked: &mut Tracked,
    seen: &SeenItems,
    slot: &Cell,
) -> Result<Extent, StoreFailed>
    requires slot { IsTrue (is_slot slot.now) }
    requires alive { IsFalse tracked.old.notes.lost }
    requires tracked { IsTracked tracked.old.notes (C.Calls.state calls.old) }
    ensures end { IfOk result (λ found. WhereTold (C.Calls.state calls.old) slot.now (EndsAt ((C.Calls.state calls.old).reads (file_of slot.now)) (len_of found))) }
    ensures free { OnOk result (MayBeEmptied (C.Calls.state calls.old) seen.now slot.now) }
    ensures step { IsStep tracked.new.notes (C.Calls.state calls.old) (C.Calls.state calls.new) }
    ensures kept { OnOk result (StaysAlive tracked.new.notes (C.Calls.state calls.old) (C.Calls.state calls.new)) }
    ensures cause { OnErr result (IsFaultFor (IsLast (image_of (C.Calls.state calls.old)) (seen_in seen.now) slot.now) (C.Calls.state calls.old) (C.Calls.state calls.new)) }
{
    let mut first = [0; HEADER];
    let found = read_part(calls, tracked, slot, &mut first)?;
    check_free(calls, tracked, seen, slot, &first)?;
    Ok(found)
}

/// Refuses a slot that holds another item than this one, which this process has seen nowhere else.
pub fn expects_free_for<C: Calls>(
    calls: &mut C,
    tracked: &mut Tracked,
    seen: &SeenItems,
    slot: &Cell,
    item: &Name,
) -> Result<(), StoreFailed>
    requires slot { IsTrue (is_slot slot.now) }
    requires alive { IsFalse tracked.old.notes.lost }
    requires tracked { IsTracked tracked.old.notes (C.Calls.state calls.old) }
    ensures free { OnOk result (IsFreeFor (C.Calls.state calls.old) seen.now slot.now item.now) }
    ensures step { IsStep tracked.new.notes (C.Calls.state calls.old) (C.Calls.state calls.new) }
    ensures kept { OnOk result (StaysAlive tracked.new.notes (C.Calls.state calls.old) (C.Calls.state calls.new)) }
    ensures cause { OnErr result (IsFaultFor (IsLastBut (image_of (C.Calls.state calls.old)) (seen_in seen.now) slot.now item.now) (C.Calls.state calls.old) (C.Calls.state calls.new)) }
{
    let mut first = [0; HEADER];
    read_part(calls, tracked, slot, &mut first)?;
    if is_header(&first, item) {
        return Ok(());
    }
    check_free(calls, tracked, seen, slot, &first)
}
