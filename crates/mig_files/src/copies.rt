//! What is left of slots that were copied, beside their copies.
ghost use Rattle.std.specs.Prelude.{◌≡◌, ◌⊎◌, IsTrue, IsFalse, MatchBool, OnOk, OnErr, length};
ghost use Rattle.mig_base.specs.FaultCounts.{Rose};
ghost use Rattle.mig_base.specs.Cells.{is_slot};
ghost use Rattle.mig_base.specs.Naming.{IsName};
ghost use Rattle.mig_base.specs.Slots.{HasHeader};
ghost use Rattle.mig_calls.specs.Places.{file_of, offset_of};
ghost use Rattle.mig_calls.specs.Files.{HasBytes};
ghost use Rattle.mig_calls.specs.Refusals.{WhereTold};
ghost use Rattle.mig_files.specs.Derived.{image_of};
ghost use Rattle.mig_files.specs.Grounds.{IsFaultFor};
ghost use Rattle.mig_files.specs.Seeing.{HoldsCopy};
ghost use Rattle.mig_files.specs.Tracking.{IsTracked, IsStep, StaysAlive};
ghost use Rattle.mig_store.specs.Grounds.{AreZeros, IsRestOf, SlotsDiffer};

use crate::cells::read_part;
use crate::slot_header::{first_of, is_header, item_of};
use crate::tracked::{Tracked, refuse_with};
use crate::writes::is_empty;
use mig_base::{Cell, Name};
use mig_calls::{Calls, Extent, Refusal};
use mig_store::StoreFailed;

/// Whether a sector is zeros, or the other one.
fn is_kept(own: &[u8], its: &[u8]) -> bool
    ensures { MatchBool result (AreZeros own.now ⊎ (own.now ≡ its.now)) (¬ (AreZeros own.now ⊎ (own.now ≡ its.now))) }
{
    own == its || is_empty(own)
}

/// Whether each sector of a slot is zeros, or that of the other one. A device writes a sector whole.
fn is_rest(left: &[u8; 4096], copied: &[u8; 4096]) -> bool
    ensures { MatchBool result (IsRestOf left.now copied.now) (¬ (IsRestOf left.now copied.now)) }
{
    for n in 0..8 {
        let own = &left[512 * n..512 * n + 512];
        let its = &copied[512 * n..512 * n + 512];
        if !is_kept(own, its) {
            return false;
        }
    }
    true
}

/// The bytes of a slot, and how many its file has.
fn slot_at<C: Calls>(
    calls: &mut C,
    tracked: &mut Tracked,
    slot: &Cell,
    into: &mut [u8; 4096],
) -> Result<Extent, StoreFailed>
    requires slot { IsTrue (is_slot slot.now) }
    requires alive { IsFalse tracked.old.notes.lost }
    requires tracked { IsTracked tracked.old.notes (C.Calls.state calls.old) }
    ensures bytes { OnOk result (WhereTold (C.Calls.state calls.old) slot.now (HasBytes ((C.Calls.state calls.old).reads (file_of slot.now)) (offset_of slot.now) 4096 into.new)) }
    ensures len { length into.new ≡ 4096 }
    ensures step { IsStep tracked.new.notes (C.Calls.state calls.old) (C.Calls.state calls.new) }
    ensures kept { OnOk result (StaysAlive tracked.new.notes (C.Calls.state calls.old) (C.Calls.state calls.new)) }
    ensures cause { OnErr result (Rose (C.Calls.state calls.old).faults (C.Calls.state calls.new).faults) }
{
    read_part(calls, tracked, slot, into)
}

/// Compares a slot that holds an item with the one that it was copied to, and refuses it where it has bytes which the copy hasn't.
fn compare<C: Calls>(
    calls: &mut C,
    tracked: &mut Tracked,
    from: &Cell,
    to: &Cell,
    item: &Name,
    left: &[u8; 4096],
) -> Result<(), StoreFailed>
    requires slots { IsTrue (is_slot from.now) × IsTrue (is_slot to.now) }
    requires alive { IsFalse tracked.old.notes.lost }
    requires tracked { IsTracked tracked.old.notes (C.Calls.state calls.old) }
    requires name { IsName item.now }
    requires header { HasHeader item.now left.now }
    requires read { WhereTold (C.Calls.state calls.old) from.now (HasBytes ((C.Calls.state calls.old).reads (file_of from.now)) (offset_of from.now) 4096 left.now) }
    ensures same { OnOk result (HoldsCopy (image_of (C.Calls.state calls.old)) from.now to.now) }
    ensures step { IsStep tracked.new.notes (C.Calls.state calls.old) (C.Calls.state calls.new) }
    ensures cause { OnErr result (IsFaultFor (SlotsDiffer (image_of (C.Calls.state calls.old)) from.now to.now) (C.Calls.state calls.old) (C.Calls.state calls.new)) }
{
    let mut copied = [0; 4096];
    slot_at(calls, tracked, to, &mut copied)?;
    if !is_header(&first_of(&copied), item) {
        return Ok(());
    }
    if is_rest(left, &copied) {
        return Ok(());
    }
    let slot = *from;
    let other = *to;
    let item = *item;
    Err(refuse_with(calls, tracked, &Refusal::Differs { slot, other, item }))
}

/// Refuses a slot that has bytes of its item which the slot that it was copied to, and that holds it, hasn't.
pub fn expects_copy<C: Calls>(
    calls: &mut C,
    tracked: &mut Tracked,
    from: &Cell,
    to: &Cell,
) -> Result<(), StoreFailed>
    requires slots { IsTrue (is_slot from.now) × IsTrue (is_slot to.now) }
    requires alive { IsFalse tracked.old.notes.lost }
    requires tracked { IsTracked tracked.old.notes (C.Calls.state calls.old) }
    ensures same { OnOk result (HoldsCopy (image_of (C.Calls.state calls.old)) from.now to.now) }
    ensures step { IsStep tracked.new.notes (C.Calls.state calls.old) (C.Calls.state calls.new) }
    ensures cause { OnErr result (IsFaultFor (SlotsDiffer (image_of (C.Calls.state calls.old)) from.now to.now) (C.Calls.state calls.old) (C.Calls.state calls.new)) }
{
    let mut left = [0; 4096];
    slot_at(calls, tracked, from, &mut left)?;
    match item_of(&first_of(&left)) {
        Some(item) => compare(calls, tracked, from, to, &item, &left),
        None => Ok(()),
    }
}
