//! Whole writes, by calls that may do a part.
#![tactic(auto, using(crate::proofs::Errs::err_any, crate::proofs::TrackingSteps::write_steps))]

ghost use Rattle.std.specs.Prelude.{◌≡◌, ◌≤◌, ◌<◌, ◌+◌, ◌^◌, IsTrue, IsFalse, IfOk, OnOk, OnErr, length};
ghost use Rattle.mig_base.specs.FaultCounts.{Rose};
ghost use Rattle.mig_calls.specs.Files.{HasBytes, HasCallCause};
ghost use Rattle.mig_files.specs.Tracking.{IsTracked, IsWriteStep, IsNoted, WritesAlive};

use crate::opening::{keep_open, make_way};
use crate::tracked::{Tracked, no_memory, note_write, refuse_with};
use mig_calls::{CallError, Calls, Place, Refusal};
use mig_store::StoreFailed;

/// Writes more of the bytes, behind those that were written, and answers how many were written by now.
fn write_more<C: Calls>(
    calls: &mut C,
    tracked: &mut Tracked,
    place: &Place,
    offset: u64,
    bytes: &[u8],
    done: usize,
) -> Result<usize, StoreFailed>
    requires alive { IsFalse tracked.old.notes.lost }
    requires tracked { IsTracked tracked.old.notes (C.Calls.state calls.old) }
    requires claimed { IsTrue (C.Calls.state calls.old).claimed }
    requires within { done < length bytes.now }
    requires room { offset + length bytes.now < 2 ^ 64 }
    requires short { length bytes.now < 2 ^ 62 }
    requires written { IsTrue ((C.Calls.state calls.old).told place.now) → HasBytes ((C.Calls.state calls.old).reads place.now) offset done bytes.now }
    ensures count { IfOk result (λ n. n ≤ length bytes.now) }
    ensures written { IfOk result (λ n. IsTrue ((C.Calls.state calls.new).told place.now) → HasBytes ((C.Calls.state calls.new).reads place.now) offset n bytes.now) }
    ensures progress { IfOk result (λ n. Rose (done + (C.Calls.state calls.old).unmade) (n + (C.Calls.state calls.new).unmade)) }
    ensures step { IsWriteStep tracked.new.notes place.now offset (length bytes.now) (C.Calls.state calls.old) (C.Calls.state calls.new) }
    ensures kept { OnOk result (WritesAlive tracked.new.notes (C.Calls.state calls.old) (C.Calls.state calls.new)) }
    ensures cause { OnErr result (Rose (C.Calls.state calls.old).faults (C.Calls.state calls.new).faults) }
{
    match try_write(calls, tracked, place, offset + done as u64, &bytes[done..]) {
        Ok(count) => {
            keep_open(tracked, place);
            Ok(done + count)
        }
        Err(CallError::Interrupted) => Ok(done),
        Err(CallError::Full) => {
            make_way(calls, tracked, place)?;
            Ok(done)
        }
        Err(CallError::Failed) => Err(StoreFailed),
    }
}

/// Makes one call of a write, and notes what it does to the file. Want of memory counts as a failure.
fn try_write<C: Calls>(
    calls: &mut C,
    tracked: &mut Tracked,
    place: &Place,
    offset: u64,
    bytes: &[u8],
) -> Result<usize, CallError>
    requires alive { IsFalse tracked.old.notes.lost }
    requires tracked { IsTracked tracked.old.notes (C.Calls.state calls.old) }
    requires claimed { IsTrue (C.Calls.state calls.old).claimed }
    ensures count { IfOk result (λ n. n ≤ length bytes.now) }
    ensures some { IfOk result (λ n. 0 < length bytes.now → 0 < n) }
    ensures written { IfOk result (λ n. IsTrue ((C.Calls.state calls.new).told place.now) → HasBytes ((C.Calls.state calls.new).reads place.now) offset n bytes.now) }
    ensures step { IsWriteStep tracked.new.notes place.now offset (length bytes.now) (C.Calls.state calls.old) (C.Calls.state calls.new) }
    ensures kept { WritesAlive tracked.new.notes (C.Calls.state calls.old) (C.Calls.state calls.new) }
    ensures cause { HasCallCause (C.Calls.state calls.old) (C.Calls.state calls.new) result }
{
    match note_write(tracked, place) {
        Ok(()) => write_noted(calls, tracked, place, offset, bytes),
        Err(_) => {
            let _ = no_memory(calls, tracked, place);
            Err(CallError::Failed)
        }
    }
}

/// Makes one call of a write to a file that is noted as one to be synced, and notes where the file may have been made.
fn write_noted<C: Calls>(
    calls: &mut C,
    tracked: &mut Tracked,
    place: &Place,
    offset: u64,
    bytes: &[u8],
) -> Result<usize, CallError>
    requires alive { IsFalse tracked.old.notes.lost }
    requires noted { IsNoted tracked.old.notes place.now }
    requires tracked { IsTracked tracked.old.notes (C.Calls.state calls.old) }
    requires claimed { IsTrue (C.Calls.state calls.old).claimed }
    ensures count { IfOk result (λ n. n ≤ length bytes.now) }
    ensures some { IfOk result (λ n. 0 < length bytes.now → 0 < n) }
    ensures written { IfOk result (λ n. IsTrue ((C.Calls.state calls.new).told place.now) → HasBytes ((C.Calls.state calls.new).reads place.now) offset n bytes.now) }
    ensures step { IsWriteStep tracked.new.notes place.now offset (length bytes.now) (C.Calls.state calls.old) (C.Calls.state calls.new) }
    ensures kept { WritesAlive tracked.new.notes (C.Calls.state calls.old) (C.Calls.state calls.new) }
    ensures cause { HasCallCause (C.Calls.state calls.old) (C.Calls.state calls.new) result }
{
    match calls.write_at(place, offset, bytes) {
        Ok(written) => {
            tracked.notes.made = either(tracked.notes.made, written.made);
            Ok(written.count)
        }
        Err(error) => {
            tracked.notes.made = true;
            Err(error)
        }
    }
}

/// Whether one of both is so.
fn either(one: bool, other: bool) -> bool
    ensures { IsFalse result → IsFalse one × IsFalse other }
{
    one || other
}

/// Writes all of the bytes from an offset on.
pub fn write_all<C: Calls>(
    calls: &mut C,
    tracked: &mut Tracked,
    place: &Place,
    offset: u64,
    bytes: &[u8],
) -> Result<(), StoreFailed>
    requires alive { IsFalse tracked.old.notes.lost }
    requires tracked { IsTracked tracked.old.notes (C.Calls.state calls.old) }
    requires claimed { IsTrue (C.Calls.state calls.old).claimed }
    requires room { offset + length bytes.now < 2 ^ 64 }
    requires short { length bytes.now < 2 ^ 62 }
    ensures written { OnOk result (IsTrue ((C.Calls.state calls.new).told place.now) → HasBytes ((C.Calls.state calls.new).reads place.now) offset (length bytes.now) bytes.now) }
    ensures step { IsWriteStep tracked.new.notes place.now offset (length bytes.now) (C.Calls.state calls.old) (C.Calls.state calls.new) }
    ensures kept { OnOk result (WritesAlive tracked.new.notes (C.Calls.state calls.old) (C.Calls.state calls.new)) }
    ensures cause { OnErr result (Rose (C.Calls.state calls.old).faults (C.Calls.state calls.new).faults) }
{
    let mut done = 0;
    'tries: for _ in 0..u64::MAX {
        if done >= bytes.len() {
            return Ok(());
        }
        done = write_more(calls, tracked, place, offset, bytes, done)?;
    }
    Err(refuse_with(calls, tracked, &Refusal::Interrupted { place: *place }))
}
