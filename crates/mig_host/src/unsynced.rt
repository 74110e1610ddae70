//! The note that a sync failed. It is read from the memory in which the files are that it speaks of, so it counts also where its own sync fails: that one keeps a power cut from leaving a part of it.
ghost use Rattle.std.specs.Prelude.{IfOk, IfNone, OnOk};
ghost use Rattle.mig_host.specs.Systems.{Absent, Finds, Goes, note_path};

use crate::failures::Failure;
use crate::system::{Access, System};
use crate::tables::{is_nowhere, text_if_there, text_of};
use crate::texts::{FileOf, JOURNAL};
use mig_base::Name;
use mig_calls::Place;
use std::io::{self, Write};

/// The note's file: a line with the machine's boot and the file whose sync failed.
const NOTE: &str = "unsynced.mig";

/// What tells one boot of the machine from another, a line; none where the system doesn't tell, so that each note counts as this boot's.
fn boot<S: System>(sys: &S) -> io::Result<String> {
    let told = text_if_there(sys, "/proc/sys/kernel/random", "boot_id")?;
    Ok(told.unwrap_or(String::new(sys.alloc())))
}

/// Notes a sync that failed.
pub fn note<S: System>(sys: &mut S, place: &Option<Place>) -> io::Result<()> {
    let line = format!(in sys.alloc(); "{} {}\n", boot(sys)?.trim_end(), FileOf(place))?;
    write_note(sys, line.as_bytes())
}

fn write_note<S: System>(sys: &mut S, line: &[u8]) -> io::Result<()> {
    let mut file = sys.open(NOTE, Access::Anew)?;
    file.write_all(line)?;
    sys.sync_all(&file)
}

/// Refuses where a sync failed since the machine was started. What an earlier boot noted is removed; a note that isn't whole counts as this one's.
pub fn check<S: System>(sys: &mut S) -> Result<(), Failure>
    ensures none { OnOk result (Finds (S.System.state sys.old) (S.System.state sys.new) (Absent note_path)) }
    ensures goes { Goes (S.System.state sys.old) (S.System.state sys.new) }
{
    match look(sys) {
        Ok(None) => Ok(()),
        Ok(Some(place)) => Err(Failure::Unsynced(place)),
        Err(error) => Err(Failure::OfFolder(error)),
    }
}

fn look<S: System>(sys: &mut S) -> io::Result<Option<Option<Place>>>
    ensures none { IfOk result (λ found. IfNone found (Finds (S.System.state sys.old) (S.System.state sys.new) (Absent note_path))) }
    ensures goes { Goes (S.System.state sys.old) (S.System.state sys.new) }
{
    let text = match sys.open(NOTE, Access::Read) {
        Ok(mut file) => text_of(sys.alloc(), &mut file)?,
        Err(error) if is_nowhere(&error) => return Ok(None),
        Err(error) => return Err(error),
    };
    let boot = boot(sys)?;
    if text.ends_with('\n') && !text.starts_with(boot.trim_end()) {
        sys.remove(NOTE)?;
        return Ok(None);
    }
    Ok(Some(file_of(text.trim_end())))
}

/// The file that a note names.
fn file_of(note: &str) -> Option<Place> {
    let (_, file) = note.split_once(' ')?;
    if file == JOURNAL {
        return Some(Place::Journal);
    }
    Some(Place::Disk(Name::read(file.strip_suffix(".disk")?.as_bytes())?))
}
