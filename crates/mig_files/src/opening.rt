//! Which disks' files are open, and which is closed for another.
ghost use Rattle.std.specs.Prelude.{◌≡◌, ◌<◌, ◌≤◌, ℕ, List, Contains, IsTrue, IsFalse, IfOk, IfSome, IfNone, OnOk, OnErr};
ghost use Rattle.mig_base.specs.FaultCounts.{Rose};
ghost use Rattle.mig_calls.specs.Files.{EndsAt, len_of};
ghost use Rattle.mig_files.specs.Tracking.{IsTracked, IsStep, StaysAlive, SameNotes};

use crate::tracked::{Tracked, no_memory, refuse_with, sync_disk};
use lru::LruCache;
use mig_base::Name;
use mig_calls::{CallError, Calls, Extent, Place, Refusal};
use mig_store::StoreFailed;
use std::alloc::AllocError;

/// Notes a disk that this process looks at for the first time: an earlier process may have left its file without a sync.
fn meet(tracked: &mut Tracked, name: &Name) -> Result<(), AllocError>
    ensures kept { (p : List ℕ) → Contains tracked.old.notes.dirty p → Contains tracked.new.notes.dirty p }
    ensures unsynced { tracked.new.notes.unsynced ≡ tracked.old.notes.unsynced }
    ensures notes { SameNotes tracked.old.notes tracked.new.notes }
{
    if tracked.met.holds(name) {
        return Ok(());
    }
    tracked.notes.dirty.insert(name)?;
    tracked.met.insert(name)
}

/// Closes the least recently used disk's file, once the device has all of it, and says whether one was open.
fn close_oldest<C: Calls>(calls: &mut C, tracked: &mut Tracked) -> Result<bool, StoreFailed>
    requires alive { IsFalse tracked.old.notes.lost }
    requires tracked { IsTracked tracked.old.notes (C.Calls.state calls.old) }
    ensures step { IsStep tracked.new.notes (C.Calls.state calls.old) (C.Calls.state calls.new) }
    ensures kept { OnOk result (StaysAlive tracked.new.notes (C.Calls.state calls.old) (C.Calls.state calls.new)) }
    ensures cause { OnErr result (Rose (C.Calls.state calls.old).faults (C.Calls.state calls.new).faults) }
{
    let Some((name, _)) = tracked.open.pop_lru() else {
        return Ok(false);
    };
    sync_disk(calls, tracked, &name)?;
    calls.close(&Place::Disk(name));
    Ok(true)
}

/// Closes a file since too many are open to open this one, and keeps fewer open from now on.
pub fn make_way<C: Calls>(
    calls: &mut C,
    tracked: &mut Tracked,
    place: &Place,
) -> Result<(), StoreFailed>
    requires alive { IsFalse tracked.old.notes.lost }
    requires tracked { IsTracked tracked.old.notes (C.Calls.state calls.old) }
    requires full { 0 < (C.Calls.state calls.old).unmade }
    ensures step { IsStep tracked.new.notes (C.Calls.state calls.old) (C.Calls.state calls.new) }
    ensures kept { OnOk result (StaysAlive tracked.new.notes (C.Calls.state calls.old) (C.Calls.state calls.new)) }
    ensures cause { OnErr result (Rose (C.Calls.state calls.old).faults (C.Calls.state calls.new).faults) }
{
    if !close_oldest(calls, tracked)? {
        return Err(refuse_with(calls, tracked, &Refusal::Full { place: *place }));
    }
    tracked.most = tracked.open.len();
    Ok(())
}

/// Closes a disk's file where as many are open as may be.
fn make_room<C: Calls>(calls: &mut C, tracked: &mut Tracked) -> Result<(), StoreFailed>
    requires alive { IsFalse tracked.old.notes.lost }
    requires tracked { IsTracked tracked.old.notes (C.Calls.state calls.old) }
    ensures step { IsStep tracked.new.notes (C.Calls.state calls.old) (C.Calls.state calls.new) }
    ensures kept { OnOk result (StaysAlive tracked.new.notes (C.Calls.state calls.old) (C.Calls.state calls.new)) }
    ensures cause { OnErr result (Rose (C.Calls.state calls.old).faults (C.Calls.state calls.new).faults) }
{
    if tracked.open.len() < tracked.most {
        return Ok(());
    }
    close_oldest(calls, tracked)?;
    Ok(())
}

/// Makes a disk's file the last used one, where it is open, and says whether it is.
fn promote(open: &mut LruCache<Name, ()>, name: &Name) -> bool {
    let last = open.peek_mru();
    last.is_some_and(|(last, _)| last == name) || open.promote(name)
}

/// Makes a disk's file the last used one, and closes another where too many are open. One that was never looked at counts as dirty.
pub fn enter<C: Calls>(calls: &mut C, tracked: &mut Tracked, name: &Name) -> Result<(), StoreFailed>
    requires alive { IsFalse tracked.old.notes.lost }
    requires tracked { IsTracked tracked.old.notes (C.Calls.state calls.old) }
    ensures step { IsStep tracked.new.notes (C.Calls.state calls.old) (C.Calls.state calls.new) }
    ensures kept { OnOk result (StaysAlive tracked.new.notes (C.Calls.state calls.old) (C.Calls.state calls.new)) }
    ensures cause { OnErr result (Rose (C.Calls.state calls.old).faults (C.Calls.state calls.new).faults) }
{
    if promote(&mut tracked.open, name) {
        return Ok(());
    }
    if meet(tracked, name).is_err() {
        return Err(no_memory(calls, tracked, &Place::Disk(*name)));
    }
    make_room(calls, tracked)?;
    match tracked.open.put(*name, ()) {
        Ok(_) => Ok(()),
        Err(_) => Err(no_memory(calls, tracked, &Place::Disk(*name))),
    }
}

/// Counts a file among those that are open, where all of them were closed for it.
pub fn keep_open(tracked: &mut Tracked, place: &Place)
    ensures notes { tracked.new.notes ≡ tracked.old.notes }
{
    match place {
        Place::Disk(name) if tracked.most == 0 => {
            let _ = tracked.open.put(*name, ());
        }
        _ => {}
    }
}

/// How many bytes a file has, once the call is made; it opens the file.
fn ask_len<C: Calls>(
    calls: &mut C,
    tracked: &mut Tracked,
    place: &Place,
) -> Result<Option<Extent>, StoreFailed>
    requires alive { IsFalse tracked.old.notes.lost }
    requires tracked { IsTracked tracked.old.notes (C.Calls.state calls.old) }
    ensures end { IfOk result (λ found. IfSome found (λ extent. IsTrue ((C.Calls.state calls.old).told place.now) → EndsAt ((C.Calls.state calls.old).reads place.now) (len_of extent))) }
    ensures unmade { IfOk result (λ found. IfNone found (Rose (C.Calls.state calls.old).unmade (C.Calls.state calls.new).unmade)) }
    ensures step { IsStep tracked.new.notes (C.Calls.state calls.old) (C.Calls.state calls.new) }
    ensures kept { OnOk result (StaysAlive tracked.new.notes (C.Calls.state calls.old) (C.Calls.state calls.new)) }
    ensures cause { OnErr result (Rose (C.Calls.state calls.old).faults (C.Calls.state calls.new).faults) }
{
    match calls.len(place) {
        Ok(found) => {
            keep_open(tracked, place);
            Ok(Some(found))
        }
        Err(CallError::Interrupted) => Ok(None),
        Err(CallError::Full) => {
            make_way(calls, tracked, place)?;
            Ok(None)
        }
        Err(CallError::Failed) => Err(StoreFailed),
    }
}

/// How many bytes a file has, which is opened for it.
pub fn extent<C: Calls>(
    calls: &mut C,
    tracked: &mut Tracked,
    place: &Place,
) -> Result<Extent, StoreFailed>
    requires alive { IsFalse tracked.old.notes.lost }
    requires tracked { IsTracked tracked.old.notes (C.Calls.state calls.old) }
    ensures end { IfOk result (λ found. IsTrue ((C.Calls.state calls.old).told place.now) → EndsAt ((C.Calls.state calls.old).reads place.now) (len_of found)) }
    ensures step { IsStep tracked.new.notes (C.Calls.state calls.old) (C.Calls.state calls.new) }
    ensures kept { OnOk result (StaysAlive tracked.new.notes (C.Calls.state calls.old) (C.Calls.state calls.new)) }
    ensures cause { OnErr result (Rose (C.Calls.state calls.old).faults (C.Calls.state calls.new).faults) }
{
    'tries: for _ in 0..u64::MAX {
        match ask_len(calls, tracked, place) {
            Ok(Some(found)) => return Ok(found),
            Ok(None) => {}
            Err(failed) => return Err(failed),
        }
    }
    Err(refuse_with(calls, tracked, &Refusal::Interrupted { place: *place }))
}
