//! What is done with the files of the working folder together: the disks', the journal's, and the folder itself.
ghost use Rattle.std.specs.Prelude.{◌≤◌, ◌<◌, IsTrue, IfOk, IfSome, OnOk, length};
ghost use Rattle.mig_host.specs.Systems.{Absent, Finds, Goes, IsLookedAt, note_path};

use crate::disks::Disks;
use crate::failures::{Failure, of_sync};
use crate::journal::Journal;
use crate::system::{Access, System};
use crate::texts::JOURNAL;
use crate::unsynced;
use mig_calls::Written;
use std::io::ErrorKind;

/// Takes the journal for this process alone, and keeps the folder open, so that it can be synced when no more files can be opened. It is refused where a sync failed since the machine was started.
pub fn claim_journal<S: System>(
    sys: &mut S,
    journal: &mut Journal<S>,
    folder: &mut Option<S::File>,
) -> Result<(), Failure>
    ensures { OnOk result (Finds (S.System.state sys.old) (S.System.state sys.new) (Absent note_path)) }
{
    journal.claim(sys)?;
    unsynced::check(sys)?;
    open_folder(sys, folder)
}

fn open_folder<S: System>(sys: &mut S, folder: &mut Option<S::File>) -> Result<(), Failure>
    ensures { Goes (S.System.state sys.old) (S.System.state sys.new) }
{
    if folder.is_none() {
        *folder = Some(sys.open(".", Access::Read).map_err(Failure::OfFolder)?);
    }
    Ok(())
}

/// Writes some of the bytes to the journal. Where disks were written since, it looks first whether the journal is under its name still, and, where the folder has changed, whether each disk is.
pub fn write_journal<S: System>(
    sys: &mut S,
    disks: &mut Disks<S>,
    journal: &mut Journal<S>,
    folder: &Option<S::File>,
    offset: u64,
    bytes: &[u8],
) -> Result<Written, Failure>
    ensures looked { OnOk result (IsTrue disks.old.written → IfSome journal.old.opened (λ opened.
        IsLookedAt (S.System.state sys.old) (S.System.state sys.new) JOURNAL.now opened.node)) }
    ensures count { IfOk result (λ written. written.count ≤ length bytes.now) }
    ensures some { IfOk result (λ written. 0 < length bytes.now → 0 < written.count) }
{
    if disks.has_written() {
        journal.look_again(sys)?;
        disks.check_unchanged(sys, folder)?;
    }
    journal.write_at(sys, offset, bytes)
}

/// Brings the names of files that were made or renamed to the device.
pub fn sync_names<S: System>(sys: &mut S, folder: &mut Option<S::File>) -> Result<(), Failure> {
    open_folder(sys, folder)?;
    let synced = match folder {
        Some(folder) => of_sync(sys.sync_all(folder), None),
        None => Ok(()),
    };
    noted(sys, synced)
}

/// What a sync gave; where it failed, that is noted for those processes that come. Where that fails too nothing can be done.
pub fn noted<S: System>(sys: &mut S, synced: Result<(), Failure>) -> Result<(), Failure> {
    match &synced {
        Err(Failure::OfSync(place, error)) if error.kind() != ErrorKind::Interrupted => {
            let _ = unsynced::note(sys, place);
        }
        _ => {}
    }
    synced
}
