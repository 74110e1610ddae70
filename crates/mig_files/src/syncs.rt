//! The sync of all cells.
ghost use Rattle.std.specs.Prelude.{◌≡◌, ◌≤◌, ◌-◌, ℕ, List, IsTrue, IsFalse, OnOk, OnErr, length};
ghost use Rattle.mig_base.specs.FaultCounts.{Rose};
ghost use Rattle.mig_base.specs.declared.cells.Cell.{Cell};
ghost use Rattle.mig_calls.specs.declared.places.Place.TheVariants.{Disk as DiskFile};
ghost use Rattle.mig_calls.specs.Places.{file_of};
ghost use Rattle.mig_calls.specs.Files.{IsSettledAt};
ghost use Rattle.mig_files.specs.Tracking.{IsTracked, IsQuiet, IsStep, StaysAlive};

use crate::tracked::{Tracked, claim, sync_disk, sync_journal, sync_names};
use mig_base::Name;
use mig_calls::{Calls, Place};
use mig_store::StoreFailed;

/// Closes a disk's file that isn't one of those that are kept open.
fn close_unkept<C: Calls>(calls: &mut C, tracked: &Tracked, name: &Name)
    requires { IsTrue ((C.Calls.state calls.old).flushed (DiskFile name.now)) }
    ensures { IsQuiet (C.Calls.state calls.old) (C.Calls.state calls.new) }
{
    if tracked.open.contains(name) {
        return;
    }
    calls.close(&Place::Disk(*name));
}

/// Syncs one dirty disk, which is opened for it where it isn't open.
fn sync_last<C: Calls>(calls: &mut C, tracked: &mut Tracked) -> Result<(), StoreFailed>
    requires alive { IsFalse tracked.old.notes.lost }
    requires tracked { IsTracked tracked.old.notes (C.Calls.state calls.old) }
    ensures less { OnOk result (length tracked.new.notes.dirty ≤ length tracked.old.notes.dirty - 1) }
    ensures step { IsStep tracked.new.notes (C.Calls.state calls.old) (C.Calls.state calls.new) }
    ensures kept { OnOk result (StaysAlive tracked.new.notes (C.Calls.state calls.old) (C.Calls.state calls.new)) }
    ensures cause { OnErr result (Rose (C.Calls.state calls.old).faults (C.Calls.state calls.new).faults) }
{
    let Some(name) = tracked.notes.dirty.last() else {
        return Ok(());
    };
    sync_disk(calls, tracked, &name)?;
    close_unkept(calls, tracked, &name);
    Ok(())
}

/// Syncs each dirty disk.
fn sync_disks<C: Calls>(calls: &mut C, tracked: &mut Tracked) -> Result<(), StoreFailed>
    requires alive { IsFalse tracked.old.notes.lost }
    requires tracked { IsTracked tracked.old.notes (C.Calls.state calls.old) }
    ensures flushed { OnOk result ((disk : List ℕ) → IsTrue ((C.Calls.state calls.new).flushed (DiskFile disk))) }
    ensures step { IsStep tracked.new.notes (C.Calls.state calls.old) (C.Calls.state calls.new) }
    ensures kept { OnOk result (StaysAlive tracked.new.notes (C.Calls.state calls.old) (C.Calls.state calls.new)) }
    ensures cause { OnErr result (Rose (C.Calls.state calls.old).faults (C.Calls.state calls.new).faults) }
{
    'disks: for _ in 0..tracked.notes.dirty.len() {
        sync_last(calls, tracked)?;
    }
    Ok(())
}

/// Syncs all that was written, and the names of files that were made.
pub fn sync_cells<C: Calls>(calls: &mut C, tracked: &mut Tracked) -> Result<(), StoreFailed>
    requires alive { IsFalse tracked.old.notes.lost }
    requires tracked { IsTracked tracked.old.notes (C.Calls.state calls.old) }
    ensures settled { OnOk result ((cell : Cell) → IsSettledAt (C.Calls.state calls.new) (file_of cell)) }
    ensures step { IsStep tracked.new.notes (C.Calls.state calls.old) (C.Calls.state calls.new) }
    ensures cause { OnErr result (Rose (C.Calls.state calls.old).faults (C.Calls.state calls.new).faults) }
{
    claim(calls, tracked)?;
    sync_journal(calls, tracked)?;
    sync_disks(calls, tracked)?;
    sync_names(calls, tracked)?;
    Ok(())
}
