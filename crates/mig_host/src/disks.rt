//! The disks' files.
ghost use Rattle.std.specs.Prelude.{◌≡◌, ◌⊎◌, ◌≤◌, ◌<◌, IsTrue, IsFalse, IfOk, IfSome, OnOk, length};
ghost use Rattle.mig_host.specs.Systems.{AreNamed, Finds, Goes, IsOwn, Led, disk_path};

use crate::failures::{Failure, of_sync, too_many_open};
use crate::identity::{check_name, exchanged, is_link};
use crate::journal::Journal;
use crate::opened::{Opened, open_again, open_to_read, open_to_write, take};
use crate::system::{Access, FileIdentity, System};
use crate::texts::path_of;
use indexmap::{IndexMap, IndexSet};
use mig_base::Name;
use mig_calls::{Extent, Place, Written};
use std::alloc::Global;
use std::io::{self, Error, ErrorKind};

/// The disks' files that are open. That a file isn't there is found out once, until this process makes it.
#[derive(Drop)]
pub struct Disks<S: System> {
    open: IndexMap<Name, Opened<S>>,
    /// The place among them of the last one that was looked up.
    recent: usize,
    absent: IndexSet<Name>,
    /// The file of each disk that was opened.
    known: IndexMap<Name, FileIdentity>,
    /// The disk that has this file, or, where that is told so, a part of it.
    owners: IndexMap<FileIdentity, (Name, bool)>,
    /// A disk was written since the journal was.
    written: bool,
    /// The files of the disks that were synced since it was last looked, after a write of the journal, whether they have their names still: those whose names are links, and the others.
    linked: IndexMap<Name, FileIdentity>,
    synced: IndexMap<Name, FileIdentity>,
    /// When the folder had changed, as was seen before the journal was written.
    changed: Option<(i64, i64)>,
    /// The permissions of the first file that was opened: new ones get the same.
    mode: Option<u32>,
}

impl<S: System> Disks<S> {
    /// No file is open yet.
    pub fn new(alloc: Global) -> Disks<S> {
        Disks {
            open: IndexMap::new(alloc),
            recent: 0,
            absent: IndexSet::new(alloc),
            known: IndexMap::new(alloc),
            owners: IndexMap::new(alloc),
            written: false,
            linked: IndexMap::new(alloc),
            synced: IndexMap::new(alloc),
            changed: None,
            mode: None,
        }
    }

    /// Whether a file is open, which could be closed.
    pub fn has_open(&self) -> bool {
        !self.open.is_empty()
    }

    /// Reads some bytes of a disk's file; none where it isn't there.
    pub fn read_at(
        &mut self,
        sys: &mut S,
        journal: &Journal<S>,
        name: &Name,
        offset: u64,
        into: &mut [u8],
    ) -> Result<usize, Failure>
        ensures { IfOk result (λ n. n ≤ length into.old) }
    {
        let Some(opened) = self.to_read(sys, journal, name)? else {
            return Ok(0);
        };
        match opened.read_at(sys, offset, into) {
            Ok(count) => Ok(count),
            Err(error) => Err(Failure::OfDisk(*name, error)),
        }
    }

    /// How many bytes a disk's file has. A link that leads nowhere is a file that isn't there.
    pub fn len(
        &mut self,
        sys: &mut S,
        journal: &Journal<S>,
        name: &Name,
    ) -> Result<Extent, Failure> {
        let failure = match self.to_read(sys, journal, name) {
            Ok(Some(opened)) => return Ok(opened.extent()),
            Ok(None) => return Ok(Extent::Absent),
            Err(failure) => failure,
        };
        if failure.is_missing() && !self.known.contains_key(name) {
            return Ok(Extent::Absent);
        }
        Err(failure)
    }

    /// Writes some of the bytes to a disk's file, which is made where it isn't there. Where the journal was written since disks were, it looks first whether those have their names still: what the journal marks may now be emptied.
    pub fn write_at(
        &mut self,
        sys: &mut S,
        journal: &Journal<S>,
        name: &Name,
        offset: u64,
        bytes: &[u8],
    ) -> Result<Written, Failure>
        ensures count { IfOk result (λ written. written.count ≤ length bytes.now) }
        ensures some { IfOk result (λ written. 0 < length bytes.now → 0 < written.count) }
        ensures linked { OnOk result (IsFalse self.old.written → AreNamed (S.System.state sys.old) (S.System.state sys.new) self.old.linked.entries) }
        ensures synced { OnOk result (IsFalse self.old.written → AreNamed (S.System.state sys.old) (S.System.state sys.new) self.old.synced.entries) }
    {
        if !self.written {
            check_names(sys, &self.linked)?;
            check_names(sys, &self.synced)?;
            self.linked.clear();
            self.synced.clear();
        }
        let made = self.open_for_writing(sys, journal, name)?;
        self.written = true;
        let Some(place) = self.find(name) else {
            return Err(Failure::memory(*name));
        };
        let Some(opened) = self.open.get_index_mut(place) else {
            return Err(Failure::memory(*name));
        };
        match opened.write_at(sys, offset, bytes) {
            Ok(count) => Ok(Written { count, made }),
            Err(error) => Err(Failure::OfDisk(*name, error)),
        }
    }

    /// Brings all that was written to a disk's file to the device, where the file is there.
    pub fn sync(&mut self, sys: &mut S, journal: &Journal<S>, name: &Name) -> Result<(), Failure> {
        let Some(opened) = self.to_read(sys, journal, name)? else {
            return Ok(());
        };
        of_sync(opened.sync(sys), Some(Place::Disk(*name)))?;
        let (node, linked) = (opened.node, opened.linked);
        let files = match linked {
            true => &mut self.linked,
            false => &mut self.synced,
        };
        stored(name, files.insert(*name, node))
    }

    /// Whether a disk was written since the journal was.
    pub fn has_written(&self) -> bool
        ensures { result ≡ self.now.written }
    {
        self.written
    }

    /// Looks whether the disks that were synced have their names still: those that are no links where the folder has changed since the journal was written.
    pub fn check_unchanged(&mut self, sys: &mut S, folder: &Option<S::File>) -> Result<(), Failure>
        ensures { Goes (S.System.state sys.old) (S.System.state sys.new) }
    {
        check_names(sys, &self.linked)?;
        if self.has_changed(sys, folder)? {
            check_names(sys, &self.synced)?;
        }
        self.written = false;
        Ok(())
    }

    /// Whether the folder has changed since this was last asked.
    fn has_changed(&mut self, sys: &S, folder: &Option<S::File>) -> Result<bool, Failure> {
        let Some(folder) = folder else {
            return Ok(true);
        };
        let found = sys.fstat(folder).map_err(Failure::OfFolder)?;
        let before = self.changed.replace(found.changed);
        Ok(before != Some(found.changed))
    }

    /// Closes a disk's file.
    pub fn close(&mut self, name: &Name) {
        let _ = self.open.swap_remove(name);
    }

    /// The disk's file, opened where it isn't, if it is there. Once this process has claimed the journal it locks a file before it looks at it: what is seen there stays until this process writes over it.
    fn to_read(
        &mut self,
        sys: &mut S,
        journal: &Journal<S>,
        name: &Name,
    ) -> Result<Option<&Opened<S>>, Failure>
        ensures { IfOk result (λ found. IfSome found (λ opened. IsTrue journal.now.locked → IsTrue opened.now.taken ⊎ IsTrue opened.now.fixed)) }
    {
        let Some(place) = self.find_or_open(sys, journal, name)? else {
            return Ok(None);
        };
        if journal.is_claimed() {
            self.lock_open(sys, name, place)?;
        }
        match self.open.get_index(place) {
            Some((_, opened)) if journal.is_claimed() && !opened.is_steady() => {
                Err(Failure::OfDisk(*name, exchanged()))
            }
            Some((_, opened)) => Ok(Some(opened)),
            None => Ok(None),
        }
    }

    /// Opens the disk's file for writing too, for this process alone, where it is open for reading. One that can't be written is left as it is.
    fn lock_open(&mut self, sys: &mut S, name: &Name, place: usize) -> Result<(), Failure> {
        let found = self.open.get_index(place);
        if !matches!(found, Some((_, opened)) if !opened.is_steady()) {
            return Ok(());
        }
        match self.find_to_write(sys, name) {
            Ok((opened, made)) => self.keep_taken(sys, name, opened, made),
            Err(error) if is_read_only(&error) => {
                if let Some(opened) = self.open.get_mut(name) {
                    opened.fixed = true;
                }
                Ok(())
            }
            Err(error) => Err(Failure::OfDisk(*name, error)),
        }
    }

    /// Takes a file for this process alone, and keeps it open, in place of the same one that was open for reading alone.
    fn keep_taken(
        &mut self,
        sys: &mut S,
        name: &Name,
        mut opened: Opened<S>,
        made: bool,
    ) -> Result<(), Failure>
        ensures goes { Goes (S.System.state sys.old) (S.System.state sys.new) }
    {
        let mode = if made { self.mode } else { None };
        match take_disk(sys, name, &mut opened, mode) {
            Ok(()) => self.keep(name, opened),
            Err(error) => Err(Failure::OfDisk(*name, error)),
        }
    }

    /// The place of the disk's file among those that are open.
    fn find(&mut self, name: &Name) -> Option<usize> {
        let recent = self.open.get_index(self.recent);
        if !matches!(recent, Some((disk, _)) if disk == name) {
            self.recent = self.open.get_index_of(name)?;
        }
        Some(self.recent)
    }

    /// The same of a file that is opened where it isn't, if it is there.
    fn find_or_open(
        &mut self,
        sys: &mut S,
        journal: &Journal<S>,
        name: &Name,
    ) -> Result<Option<usize>, Failure> {
        if let Some(place) = self.find(name) {
            return Ok(Some(place));
        }
        if !self.absent.contains(name) {
            self.open_for_reading(sys, journal, name)?;
        }
        Ok(self.find(name))
    }

    /// Opens the disk's file, if it is there.
    fn open_for_reading(
        &mut self,
        sys: &mut S,
        journal: &Journal<S>,
        name: &Name,
    ) -> Result<(), Failure> {
        match self.find_to_read(sys, name) {
            Ok(Some(opened)) => {
                self.identify(journal, name, &opened)?;
                self.mode = self.mode.or(Some(opened.mode));
                self.keep(name, opened)
            }
            Ok(None) => stored(name, self.absent.insert(*name)),
            Err(error) => Err(Failure::OfDisk(*name, error)),
        }
    }

    /// Opens the disk's file for writing too, for this process alone, and says whether it was made for it. One that was made gets the permissions of the others.
    fn open_for_writing(
        &mut self,
        sys: &mut S,
        journal: &Journal<S>,
        name: &Name,
    ) -> Result<bool, Failure>
        ensures goes { Goes (S.System.state sys.old) (S.System.state sys.new) }
    {
        if let Some(place) = self.find(name) {
            let found = self.open.get_index(place);
            if matches!(found, Some((_, opened)) if opened.is_taken()) {
                return Ok(false);
            }
        }
        let (opened, made) = match self.find_to_write(sys, name) {
            Ok(found) => found,
            Err(error) => return Err(Failure::OfDisk(*name, error)),
        };
        self.identify(journal, name, &opened)?;
        if !made && self.absent.contains(name) {
            return Err(Failure::OfDisk(*name, exchanged()));
        }
        self.keep_taken(sys, name, opened, made)?;
        let _ = self.absent.swap_remove(name);
        Ok(made)
    }

    fn find_to_read(&self, sys: &mut S, name: &Name) -> io::Result<Option<Opened<S>>> {
        self.check_spare(sys, name)?;
        let path = path_of(sys.alloc(), name)?;
        let found = match self.known.get(name) {
            Some(node) => Some(open_again(sys, path.as_str(), *node, Access::Read)?),
            None => open_to_read(sys, path.as_str())?,
        };
        let Some(mut opened) = found else {
            return Ok(None);
        };
        opened.linked = is_link(sys, path.as_str())?;
        Ok(Some(opened))
    }

    fn find_to_write(&self, sys: &mut S, name: &Name) -> io::Result<(Opened<S>, bool)>
        ensures goes { Goes (S.System.state sys.old) (S.System.state sys.new) }
    {
        self.check_spare(sys, name)?;
        let path = path_of(sys.alloc(), name)?;
        let (mut opened, made) = match self.known.get(name) {
            Some(node) => (open_again(sys, path.as_str(), *node, Access::Both)?, false),
            None => open_to_write(sys, path.as_str())?,
        };
        opened.linked = is_link(sys, path.as_str())?;
        Ok((opened, made))
    }

    /// Two descriptors stay free for another part of the process, where another disk's file is open that could be closed.
    fn check_spare(&self, sys: &S, name: &Name) -> io::Result<()> {
        for (other, opened) in self.open.iter() {
            if other != name {
                if opened.leaves_some(sys) {
                    return Ok(());
                }
                return Err(too_many_open());
            }
        }
        Ok(())
    }

    /// Notes which file the disk is, and refuses one that is another disk's or the journal's.
    fn identify(
        &mut self,
        journal: &Journal<S>,
        name: &Name,
        opened: &Opened<S>,
    ) -> Result<(), Failure> {
        if journal.overlaps(opened) {
            return Err(Failure::IsJournal(*name));
        }
        for part in opened.parts.iter() {
            self.note_owner(name, part.node, part.whole)?;
        }
        stored(name, self.known.insert(*name, opened.node))
    }

    /// Notes that a disk has a file, or a part of it. Two of them may have parts of one file.
    fn note_owner(&mut self, name: &Name, node: FileIdentity, whole: bool) -> Result<(), Failure> {
        match self.owners.get(&node) {
            Some((other, owns)) if other != name && (*owns || whole) => {
                return Err(Failure::OneFile(*name, *other));
            }
            Some(_) => return Ok(()),
            None => {}
        }
        stored(name, self.owners.insert(node, (*name, whole)))
    }

    /// Keeps a file open.
    fn keep(&mut self, name: &Name, opened: Opened<S>) -> Result<(), Failure> {
        stored(name, self.open.insert(*name, opened))
    }
}

/// Whether memory was there for what is kept of a disk.
fn stored<T: Drop, E: Drop>(name: &Name, made: Result<T, E>) -> Result<(), Failure> {
    match made {
        Ok(_) => Ok(()),
        Err(_) => Err(Failure::memory(*name)),
    }
}

/// Refuses where one of these disks hasn't its name still.
fn check_names<S: System>(sys: &mut S, files: &IndexMap<Name, FileIdentity>) -> Result<(), Failure>
    ensures named { OnOk result (AreNamed (S.System.state sys.old) (S.System.state sys.new) files.now.entries) }
    ensures goes { Goes (S.System.state sys.old) (S.System.state sys.new) }
{
    'each: for k in 0..files.len() {
        if let Some((name, node)) = files.get_index(k) {
            check_named(sys, name, *node)?;
        }
    }
    Ok(())
}

/// Takes a disk's file for this process alone, and gives it these permissions, if any.
fn take_disk<S: System>(
    sys: &mut S,
    name: &Name,
    opened: &mut Opened<S>,
    mode: Option<u32>,
) -> io::Result<()>
    ensures own { OnOk result (IsOwn (S.System.state sys.new) (disk_path name.now) opened.new.node (S.File.holds opened.new.file) (S.File.since opened.new.file)) }
    ensures taken { OnOk result (IsTrue opened.new.taken) }
    ensures goes { Goes (S.System.state sys.old) (S.System.state sys.new) }
{
    take(sys, path_of(sys.alloc(), name)?.as_str(), opened)?;
    match mode {
        Some(mode) => opened.set_mode(sys, mode),
        None => Ok(()),
    }
}

/// Refuses a disk whose name leads to another file than this one.
fn check_named<S: System>(sys: &mut S, name: &Name, node: FileIdentity) -> Result<(), Failure>
    ensures led { OnOk result (Finds (S.System.state sys.old) (S.System.state sys.new) (Led (disk_path name.now) node)) }
    ensures goes { Goes (S.System.state sys.old) (S.System.state sys.new) }
{
    let made = match path_of(sys.alloc(), name) {
        Ok(path) => check_name(sys, path.as_str(), node),
        Err(error) => Err(error),
    };
    made.map_err(|error| Failure::OfDisk(*name, error))
}

/// Whether a file can't be written, though it can be read.
fn is_read_only(error: &Error) -> bool {
    matches!(
        error.kind(),
        ErrorKind::PermissionDenied | ErrorKind::ReadOnlyFilesystem
    )
}
