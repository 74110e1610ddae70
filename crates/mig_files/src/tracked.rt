//! Which files are to be synced, and who may write.
ghost use Rattle.std.specs.Prelude.{◌≡◌, ◌+◌, ◌≤◌, ℕ, List, Contains, IsTrue, IsFalse, OnOk, OnErr, length};
ghost use Rattle.mig_base.specs.FaultCounts.{Rose};
ghost use Rattle.mig_calls.specs.declared.places.Place.TheVariants.{Disk as DiskFile, Journal as JournalFile};
ghost use Rattle.mig_calls.specs.Files.{KeepsFlags};
ghost use Rattle.mig_calls.specs.Refusals.{IsRefusalCause, counted};
ghost use Rattle.mig_files.specs.Tracking.{IsTracked, IsStep, StaysAlive, SameNotes, IsNoted};

use crate::disk_set::NamedDisks;
use crate::tries::{RetriedCall, make, refuse};
use lru::LruCache;
use mig_base::Name;
use mig_calls::{Calls, Place, Refusal};
use mig_store::StoreFailed;
use std::alloc::AllocError;

/// What the store notes of its files.
#[derive(Drop)]
pub struct Notes {
    /// The disks whose files the device may lack some bytes of.
    pub dirty: NamedDisks,
    /// The device may lack some bytes of the journal.
    pub unsynced: bool,
    /// This process alone may write.
    pub claimed: bool,
    /// A file may have been made since the names were synced.
    pub made: bool,
    /// A sync failed.
    pub lost: bool,
}

/// What the store notes of its files, and which are open.
#[derive(Drop)]
pub struct Tracked {
    pub notes: Notes,
    /// The disks whose files this process has looked at.
    pub met: NamedDisks,
    /// The disks whose files are open, in the order of their use.
    pub open: LruCache<Name, ()>,
    /// How many may be open.
    pub most: usize,
}

/// Refuses, which changes nothing that is noted.
pub fn refuse_with<C: Calls>(calls: &mut C, tracked: &Tracked, why: &Refusal) -> StoreFailed
    requires tracked { IsTracked tracked.now.notes (C.Calls.state calls.old) }
    requires cause { IsRefusalCause (C.Calls.state calls.old) why.now }
    ensures step { IsStep tracked.now.notes (C.Calls.state calls.old) (C.Calls.state calls.new) }
    ensures flags { KeepsFlags (C.Calls.state calls.old) (C.Calls.state calls.new) }
    ensures rose { Rose (counted why.now (C.Calls.state calls.old)) (counted why.now (C.Calls.state calls.new)) }
{
    refuse(calls, why)
}

/// Refuses since memory was.
pub fn no_memory<C: Calls>(calls: &mut C, tracked: &Tracked, place: &Place) -> StoreFailed
    requires tracked { IsTracked tracked.now.notes (C.Calls.state calls.old) }
    ensures step { IsStep tracked.now.notes (C.Calls.state calls.old) (C.Calls.state calls.new) }
    ensures flags { KeepsFlags (C.Calls.state calls.old) (C.Calls.state calls.new) }
    ensures rose { Rose (C.Calls.state calls.old).faults (C.Calls.state calls.new).faults }
{
    refuse_with(calls, tracked, &Refusal::Memory { place: *place })
}

/// Notes that a file is about to be written.
pub fn note_write(tracked: &mut Tracked, place: &Place) -> Result<(), AllocError>
    ensures noted { OnOk result (IsNoted tracked.new.notes place.now) }
    ensures kept { (p : List ℕ) → Contains tracked.old.notes.dirty p → Contains tracked.new.notes.dirty p }
    ensures unsynced { IsTrue tracked.old.notes.unsynced → IsTrue tracked.new.notes.unsynced }
    ensures notes { SameNotes tracked.old.notes tracked.new.notes }
{
    match place {
        Place::Disk(name) => tracked.notes.dirty.insert(name),
        Place::Journal => {
            tracked.notes.unsynced = true;
            Ok(())
        }
    }
}

/// Syncs a disk's file where it is dirty. Where that fails the files are lost.
pub fn sync_disk<C: Calls>(
    calls: &mut C,
    tracked: &mut Tracked,
    name: &Name,
) -> Result<(), StoreFailed>
    requires alive { IsFalse tracked.old.notes.lost }
    requires tracked { IsTracked tracked.old.notes (C.Calls.state calls.old) }
    ensures flushed { OnOk result (IsTrue ((C.Calls.state calls.new).flushed (DiskFile name.now))) }
    ensures shorter { OnOk result (Contains tracked.old.notes.dirty name.now → length tracked.new.notes.dirty + 1 ≤ length tracked.old.notes.dirty) }
    ensures step { IsStep tracked.new.notes (C.Calls.state calls.old) (C.Calls.state calls.new) }
    ensures kept { OnOk result (StaysAlive tracked.new.notes (C.Calls.state calls.old) (C.Calls.state calls.new)) }
    ensures cause { OnErr result (Rose (C.Calls.state calls.old).faults (C.Calls.state calls.new).faults) }
{
    if !tracked.notes.dirty.holds(name) {
        return Ok(());
    }
    let place = Place::Disk(*name);
    match make(calls, &RetriedCall::Sync { place }) {
        Ok(()) => {
            tracked.notes.dirty.remove(name);
            Ok(())
        }
        Err(failed) => {
            tracked.notes.lost = true;
            Err(failed)
        }
    }
}

/// Syncs the journal where the device may lack some of it. Where that fails the files are lost.
pub fn sync_journal<C: Calls>(calls: &mut C, tracked: &mut Tracked) -> Result<(), StoreFailed>
    requires alive { IsFalse tracked.old.notes.lost }
    requires tracked { IsTracked tracked.old.notes (C.Calls.state calls.old) }
    ensures flushed { OnOk result (IsTrue ((C.Calls.state calls.new).flushed JournalFile)) }
    ensures step { IsStep tracked.new.notes (C.Calls.state calls.old) (C.Calls.state calls.new) }
    ensures kept { OnOk result (StaysAlive tracked.new.notes (C.Calls.state calls.old) (C.Calls.state calls.new)) }
    ensures dirty { tracked.new.notes.dirty ≡ tracked.old.notes.dirty }
    ensures cause { OnErr result (Rose (C.Calls.state calls.old).faults (C.Calls.state calls.new).faults) }
{
    if !tracked.notes.unsynced {
        return Ok(());
    }
    let place = Place::Journal;
    match make(calls, &RetriedCall::Sync { place }) {
        Ok(()) => {
            tracked.notes.unsynced = false;
            Ok(())
        }
        Err(failed) => {
            tracked.notes.lost = true;
            Err(failed)
        }
    }
}

/// Claims the right to write, once. The journal may be made for it.
pub fn claim<C: Calls>(calls: &mut C, tracked: &mut Tracked) -> Result<(), StoreFailed>
    requires alive { IsFalse tracked.old.notes.lost }
    requires tracked { IsTracked tracked.old.notes (C.Calls.state calls.old) }
    ensures claimed { OnOk result (IsTrue (C.Calls.state calls.new).claimed) }
    ensures step { IsStep tracked.new.notes (C.Calls.state calls.old) (C.Calls.state calls.new) }
    ensures kept { OnOk result (StaysAlive tracked.new.notes (C.Calls.state calls.old) (C.Calls.state calls.new)) }
    ensures cause { OnErr result (Rose (C.Calls.state calls.old).faults (C.Calls.state calls.new).faults) }
{
    if tracked.notes.claimed {
        return Ok(());
    }
    tracked.notes.made = true;
    make(calls, &RetriedCall::Claim)?;
    tracked.notes.claimed = true;
    Ok(())
}

/// Syncs the names of files where one may have been made. Where that fails the files are lost.
pub fn sync_names<C: Calls>(calls: &mut C, tracked: &mut Tracked) -> Result<(), StoreFailed>
    requires alive { IsFalse tracked.old.notes.lost }
    requires tracked { IsTracked tracked.old.notes (C.Calls.state calls.old) }
    ensures named { OnOk result (IsTrue (C.Calls.state calls.new).named) }
    ensures step { IsStep tracked.new.notes (C.Calls.state calls.old) (C.Calls.state calls.new) }
    ensures kept { OnOk result (StaysAlive tracked.new.notes (C.Calls.state calls.old) (C.Calls.state calls.new)) }
    ensures cause { OnErr result (Rose (C.Calls.state calls.old).faults (C.Calls.state calls.new).faults) }
{
    if !tracked.notes.made {
        return Ok(());
    }
    match make(calls, &RetriedCall::SyncNames) {
        Ok(()) => {
            tracked.notes.made = false;
            Ok(())
        }
        Err(failed) => {
            tracked.notes.lost = true;
            Err(failed)
        }
    }
}
