//! Writes of cells and copies of slots, by which no item is lost that was seen nowhere else.
#![tactic(auto, using(crate::proofs::Errs::err_any, crate::proofs::TrackingSteps::write_steps, crate::proofs::Holding::held_looked))]

ghost use Rattle.std.specs.Prelude.{◌≡◌, ◌≢◌, ◌⊎◌, ◌≤◌, ◌<◌, ◌+◌, ℕ, List, Some, None, IsTrue, IsFalse, IfOk, IfSome, MatchBool, OnOk, OnErr, length, slice_index, slice_range};
ghost use Rattle.mig_base.specs.FaultCounts.{Rose};
ghost use Rattle.mig_base.specs.Cells.{cell_len, is_slot};
ghost use Rattle.mig_base.specs.Images.{IsCopy};
ghost use Rattle.mig_base.specs.Naming.{IsName};
ghost use Rattle.mig_base.specs.Slots.{header_of};
ghost use Rattle.mig_calls.specs.Places.{file_of, offset_of};
ghost use Rattle.mig_calls.specs.Refusals.{HoldsItem, WhereTold};
ghost use Rattle.mig_files.specs.Derived.{image_of};
ghost use Rattle.mig_files.specs.Grounds.{IsFaultFor, IsLastBut};
ghost use Rattle.mig_files.specs.Seeing.{seen_at, seen_in, AreHeld, KeepsSeen, KeepsSeenBut, LosesNone, LosesNoneBut, MayCopy};
ghost use Rattle.mig_files.specs.Tracking.{IsTracked, IsStep, IsWriteStep};
ghost use Rattle.mig_store.specs.Grounds.{AreZeros, HoldsNone, IsErasure, IsLast, IsSeenAtBoth, IsUncopiable};

use crate::cells::{read_part, write_cell};
use crate::items::{expects_free, expects_free_for, note_held, note_seen};
use crate::places::place_of;
use crate::seen::SeenItems;
use crate::slot_header::{first_of, item_of};
use crate::tracked::{Tracked, claim, refuse_with};
use mig_base::{Cell, Name};
use mig_calls::{Calls, Refusal};
use mig_store::StoreFailed;

/// Whether all of the bytes are zeros.
pub fn is_empty(bytes: &[u8]) -> bool
    ensures { MatchBool result (AreZeros bytes.now) (¬ (AreZeros bytes.now)) }
{
    bytes.iter().fold(0_u8, |all, byte| all | *byte) == 0
}

/// Whether these bytes empty a slot.
fn empties(cell: &Cell, bytes: &[u8]) -> bool
    ensures { MatchBool result (IsErasure cell.now bytes.now) (¬ (IsErasure cell.now bytes.now)) }
{
    match cell {
        Cell::Slot { .. } => is_empty(bytes),
        Cell::Head | Cell::Gate | Cell::Mark { .. } => false,
    }
}

/// Writes a cell, once the right to write is this process's alone. A slot is emptied only where no item is lost by it.
pub fn write_item<C: Calls>(
    calls: &mut C,
    tracked: &mut Tracked,
    seen: &mut SeenItems,
    cell: &Cell,
    bytes: &[u8],
) -> Result<(), StoreFailed>
    requires length { length bytes.now ≡ cell_len cell.now }
    requires alive { IsFalse tracked.old.notes.lost }
    requires tracked { IsTracked tracked.old.notes (C.Calls.state calls.old) }
    requires held { AreHeld (C.Calls.state calls.old) seen.old }
    ensures written { OnOk result (IfSome (image_of (C.Calls.state calls.new) cell.now) (λ told. told ≡ bytes.now)) }
    ensures free { IsErasure cell.now bytes.now → OnOk result (LosesNone (C.Calls.state calls.old) cell.now) }
    ensures forgotten { OnOk result (seen_at seen.new cell.now ≡ None) }
    ensures others { KeepsSeen seen.old seen.new cell.now }
    ensures held { AreHeld (C.Calls.state calls.new) seen.new }
    ensures step { IsWriteStep tracked.new.notes (file_of cell.now) (offset_of cell.now) (cell_len cell.now) (C.Calls.state calls.old) (C.Calls.state calls.new) }
    ensures cause { OnErr result (IsFaultFor (IsErasure cell.now bytes.now × IsLast (image_of (C.Calls.state calls.old)) (seen_in seen.old) cell.now) (C.Calls.state calls.old) (C.Calls.state calls.new)) }
{
    claim(calls, tracked)?;
    if empties(cell, bytes) {
        return empty(calls, tracked, seen, cell, bytes);
    }
    seen.forget(cell);
    write_cell(calls, tracked, cell, bytes)
}

/// Writes zeros to a slot. Past the end of its file, or where there is none, they are there already.
fn empty<C: Calls>(
    calls: &mut C,
    tracked: &mut Tracked,
    seen: &mut SeenItems,
    slot: &Cell,
    zeros: &[u8],
) -> Result<(), StoreFailed>
    requires slot { IsTrue (is_slot slot.now) }
    requires length { length zeros.now ≡ cell_len slot.now }
    requires zeros { AreZeros zeros.now }
    requires claimed { IsTrue (C.Calls.state calls.old).claimed }
    requires alive { IsFalse tracked.old.notes.lost }
    requires tracked { IsTracked tracked.old.notes (C.Calls.state calls.old) }
    requires held { AreHeld (C.Calls.state calls.old) seen.old }
    ensures written { OnOk result (IfSome (image_of (C.Calls.state calls.new) slot.now) (λ told. told ≡ zeros.now)) }
    ensures free { OnOk result (LosesNone (C.Calls.state calls.old) slot.now) }
    ensures forgotten { OnOk result (seen_at seen.new slot.now ≡ None) }
    ensures others { KeepsSeen seen.old seen.new slot.now }
    ensures held { AreHeld (C.Calls.state calls.new) seen.new }
    ensures step { IsWriteStep tracked.new.notes (file_of slot.now) (offset_of slot.now) (cell_len slot.now) (C.Calls.state calls.old) (C.Calls.state calls.new) }
    ensures cause { OnErr result (IsFaultFor (IsLast (image_of (C.Calls.state calls.old)) (seen_in seen.old) slot.now) (C.Calls.state calls.old) (C.Calls.state calls.new)) }
{
    let found = expects_free(calls, tracked, seen, slot)?;
    seen.forget(slot);
    let (_, offset) = place_of(slot);
    if found.len() <= offset {
        return Ok(());
    }
    write_cell(calls, tracked, slot, zeros)
}

/// Reads a slot that is to be copied, and answers which item it holds. One that holds none is refused.
fn read_item<C: Calls>(
    calls: &mut C,
    tracked: &mut Tracked,
    seen: &mut SeenItems,
    slot: &Cell,
    bytes: &mut [u8],
) -> Result<Name, StoreFailed>
    requires slot { IsTrue (is_slot slot.now) }
    requires length { length bytes.old ≡ cell_len slot.now }
    requires whole { 34 ≤ length bytes.old }
    requires alive { IsFalse tracked.old.notes.lost }
    requires tracked { IsTracked tracked.old.notes (C.Calls.state calls.old) }
    requires held { AreHeld (C.Calls.state calls.old) seen.old }
    ensures bytes { OnOk result (IfSome (image_of (C.Calls.state calls.old) slot.now) (λ told. bytes.new ≡ told)) }
    ensures named { IfOk result (λ item. IsName item × (slice_range bytes.new 0 34 ≡ header_of item)) }
    ensures holds { IfOk result (λ item. WhereTold (C.Calls.state calls.old) slot.now (HoldsItem (C.Calls.state calls.old) slot.now item)) }
    ensures noted { IfOk result (λ item. seen_at seen.new slot.now ≡ Some item) }
    ensures others { KeepsSeen seen.old seen.new slot.now }
    ensures held { AreHeld (C.Calls.state calls.new) seen.new }
    ensures step { IsStep tracked.new.notes (C.Calls.state calls.old) (C.Calls.state calls.new) }
    ensures alive { OnOk result (IsFalse tracked.new.notes.lost) }
    ensures cause { OnErr result (IsFaultFor (HoldsNone (image_of (C.Calls.state calls.old)) slot.now) (C.Calls.state calls.old) (C.Calls.state calls.new)) }
{
    let found = read_part(calls, tracked, slot, bytes)?;
    match item_of(&first_of(bytes)) {
        Some(item) => {
            note_held(calls, tracked, seen, slot, &item, &found)?;
            Ok(item)
        }
        None => Err(refuse_with(calls, tracked, &Refusal::NoItem { slot: *slot })),
    }
}

/// Writes an item, which was seen at a slot, to another one that doesn't hold another.
fn put_item<C: Calls>(
    calls: &mut C,
    tracked: &mut Tracked,
    seen: &mut SeenItems,
    slot: &Cell,
    item: &Name,
    from: &Cell,
    bytes: &[u8],
) -> Result<(), StoreFailed>
    requires slot { IsTrue (is_slot slot.now) }
    requires apart { from.now ≢ slot.now }
    requires seen { seen_at seen.old from.now ≡ Some item.now }
    requires named { slice_range bytes.now 0 34 ≡ header_of item.now }
    requires length { length bytes.now ≡ cell_len slot.now }
    requires alive { IsFalse tracked.old.notes.lost }
    requires tracked { IsTracked tracked.old.notes (C.Calls.state calls.old) }
    requires held { AreHeld (C.Calls.state calls.old) seen.old }
    ensures written { OnOk result (IfSome (image_of (C.Calls.state calls.new) slot.now) (λ told. told ≡ bytes.now)) }
    ensures free { OnOk result (LosesNoneBut (C.Calls.state calls.old) slot.now item.now) }
    ensures noted { OnOk result (seen_at seen.new slot.now ≡ Some item.now) }
    ensures others { KeepsSeen seen.old seen.new slot.now }
    ensures held { AreHeld (C.Calls.state calls.new) seen.new }
    ensures step { IsWriteStep tracked.new.notes (file_of slot.now) (offset_of slot.now) (cell_len slot.now) (C.Calls.state calls.old) (C.Calls.state calls.new) }
    ensures cause { OnErr result (IsFaultFor (IsLastBut (image_of (C.Calls.state calls.old)) (seen_in seen.new) slot.now item.now) (C.Calls.state calls.old) (C.Calls.state calls.new)) }
{
    expects_free_for(calls, tracked, seen, slot, item)?;
    claim(calls, tracked)?;
    seen.forget(slot);
    write_cell(calls, tracked, slot, bytes)?;
    note_seen(calls, tracked, seen, slot, item, Some(*from))
}

/// Copies a slot that holds an item to one that doesn't hold another.
pub fn copy_item<C: Calls>(
    calls: &mut C,
    tracked: &mut Tracked,
    seen: &mut SeenItems,
    from: &Cell,
    to: &Cell,
) -> Result<(), StoreFailed>
    requires slots { IsTrue (is_slot from.now) × IsTrue (is_slot to.now) }
    requires apart { from.now ≢ to.now }
    requires alive { IsFalse tracked.old.notes.lost }
    requires tracked { IsTracked tracked.old.notes (C.Calls.state calls.old) }
    requires held { AreHeld (C.Calls.state calls.old) seen.old }
    ensures copied { OnOk result (IsCopy (image_of (C.Calls.state calls.old) from.now) (image_of (C.Calls.state calls.new) to.now)) }
    ensures free { OnOk result ((item : List ℕ) × MayCopy (C.Calls.state calls.old) from.now to.now item) }
    ensures noted { OnOk result (IsSeenAtBoth (seen_in seen.new) from.now to.now) }
    ensures others { KeepsSeenBut seen.old seen.new from.now to.now }
    ensures held { AreHeld (C.Calls.state calls.new) seen.new }
    ensures step { IsWriteStep tracked.new.notes (file_of to.now) (offset_of to.now) (cell_len to.now) (C.Calls.state calls.old) (C.Calls.state calls.new) }
    ensures cause { OnErr result (IsFaultFor (IsUncopiable (image_of (C.Calls.state calls.old)) (seen_in seen.new) from.now to.now) (C.Calls.state calls.old) (C.Calls.state calls.new)) }
{
    let mut bytes = [0u8; 4096];
    let item = read_item(calls, tracked, seen, from, &mut bytes)?;
    put_item(calls, tracked, seen, to, &item, from, &bytes)
}
