//! The calls that save a file, over the system. Each makes the one call that its name says, and what that needs to be safe.
ghost use Rattle.std.specs.IoError.{error_kind};
ghost use Rattle.std.specs.Prelude.{◌≡◌, ◌≢◌, ◌≤◌, ◌<◌, IfOk, IfErr, OnErr, length};
ghost use Rattle.mig_base.specs.FaultCounts.{Rose};
ghost use Rattle.mig_save.specs.HostSaves.{host_state, host_is_state};

use crate::save_calls::{Inode, SaveCalls, Target};
use crate::writing::{write_some, write_whole};
use std::alloc::Global;
use std::fs::{self, File, Metadata, OpenOptions, Permissions};
use std::io::{self, Error, ErrorKind, Read};
use std::os::unix::fs::{FileTypeExt, MetadataExt, PermissionsExt};
use std::path::Path;
use std::rt::Files;

/// The node of a plain file. A pipe or a device may be read and written in one run.
pub fn node_of(found: &Metadata) -> Option<Inode> {
    if !found.is_file() {
        return None;
    }
    Some(Inode {
        device: found.dev(),
        inode: found.ino(),
    })
}

/// The files that a run has used: none of them is saved over.
#[derive(Clone, Copy)]
struct Used<'a> {
    loaded: &'a [Inode],
    saved: Option<Inode>,
}

impl<'a> Used<'a> {
    /// Why a file is not to be saved over.
    fn refusal(&self, node: Inode) -> Option<&'static str> {
        if self.loaded.contains(&node) {
            Some("it was loaded in this run")
        } else if self.saved == Some(node) {
            Some("it was saved in this run")
        } else {
            None
        }
    }
}

/// The calls on the file of one name, over this runtime's files. They tell nothing but how many failed.
pub struct HostSave<'a, R: Files<File = File>> {
    rt: &'a R,
    alloc: Global,
    used: Used<'a>,
    name: &'a str,
    /// The new file's own name.
    path: io::Result<&'a str>,
    /// What is written: the new file, or what is to be written in place.
    file: Option<File>,
    failures: u64,
}

impl<'a, R: Files<File = File>> Drop for HostSave<'a, R> {
    fn drop(self) {
        let HostSave {
            rt: _,
            alloc: _,
            used: _,
            name: _,
            path: _,
            file,
            failures: _,
        } = self;
        drop(file);
    }
}

impl<'a, R: Files<File = File>> HostSave<'a, R> {
    /// No call was made so far. The files that were loaded, and the one that was saved last, are not saved over; the path of the new file is put together in `room`.
    pub fn new(
        rt: &'a R,
        alloc: Global,
        loaded: &'a [Inode],
        saved: Option<Inode>,
        name: &'a str,
        room: &'a mut [u8; PATH_MAX],
    ) -> Self {
        HostSave {
            rt,
            alloc,
            used: Used { loaded, saved },
            name,
            path: new_path(name, room),
            file: None,
            failures: 0,
        }
    }

    /// Counts a call that failed.
    fn counted<T>(&mut self, made: io::Result<T>) -> io::Result<T>
        ensures same { result ≡ made }
        ensures rose { OnErr result (Rose self.old.failures self.new.failures) }
        ensures later { self.old.failures ≤ self.new.failures }
    {
        if made.is_err() {
            self.failures = self.failures.saturating_add(1);
        }
        made
    }

    /// Finds what the name leads to, open where it is to be written in place; an error where that was used, or can't be written. Nothing is changed.
    fn find_target(&self) -> io::Result<(Target, Option<File>)> {
        let file = match OpenOptions::new().write(true).open(self.rt, self.name) {
            Ok(file) => file,
            Err(error) if error.kind() == ErrorKind::NotFound => return self.find_free_target(),
            Err(error) => return Err(error),
        };
        let found = again(|| file.metadata())?;
        if let Some(refusal) = node_of(&found).and_then(|node| self.used.refusal(node)) {
            return Err(Error::other(refusal));
        }
        if found.file_type().is_block_device() {
            return Err(Error::other("it is a block device"));
        }
        if found.is_file() {
            check_text(self.rt, self.name)?;
        }
        if found.is_file() && !self.stand_at(self.name)?.is_symlink() {
            return Ok((Target::Plain(found.mode()), None));
        }
        if found.is_file() {
            check_path(self.rt.canonicalize(self.alloc, self.name)?.as_str())?;
        }
        Ok((Target::InPlace, Some(file)))
    }

    /// A name that leads to no file yet: it is free, or it is a link to one that is free, through which an empty file is made.
    fn find_free_target(&self) -> io::Result<(Target, Option<File>)> {
        match self.stand_at(self.name) {
            Ok(_) => {
                check_path(self.rt.read_link(self.alloc, self.name)?.as_str())?;
                let mut options = OpenOptions::new();
                let file = options.write(true).create(true).open(self.rt, self.name)?;
                Ok((Target::InPlace, Some(file)))
            }
            Err(error) if error.kind() == ErrorKind::NotFound => Ok((Target::Missing, None)),
            Err(error) => Err(error),
        }
    }

    /// What stands under a name itself, a link for instance.
    fn stand_at(&self, path: &str) -> io::Result<Metadata> {
        again(|| fs::symlink_metadata(self.rt, path))
    }

    fn make_at_path(&self) -> io::Result<File> {
        let mut options = OpenOptions::new();
        options
            .write(true)
            .create_new(true)
            .open(self.rt, self.path?)
    }

    fn check_left_at_path(&self) -> io::Result<()> {
        let left = node_of(&self.stand_at(self.path?)?);
        if left.is_none_or(|node| self.used.refusal(node).is_some()) {
            return Err(Error::other("what stands at its name and .new.mig is in the way"));
        }
        Ok(())
    }

    fn check_made_at_path(&self, made: Option<Inode>) -> io::Result<()> {
        if node_of(&self.stand_at(self.path?)?) != made {
            return Err(Error::other("another process saves it at this moment"));
        }
        Ok(())
    }

    fn remove_at_path(&self) -> io::Result<()> {
        let path = self.path?;
        again(|| fs::remove_file(self.rt, path))
    }

    fn rename_from_path(&self) -> io::Result<()> {
        let path = self.path?;
        again(|| fs::rename(self.rt, path, self.name))
    }
}

impl<'a, R: Files<File = File>> SaveCalls for HostSave<'a, R> {
    ghost state = { λ h. host_state h.failures };

    ghost is_state = { λ h. host_is_state h.failures };

    fn look(&mut self) -> io::Result<Target> {
        let found = self.find_target();
        let (target, file) = self.counted(found)?;
        self.file = file;
        Ok(target)
    }

    fn make(&mut self) -> io::Result<()> {
        let made = self.make_at_path();
        self.file = Some(self.counted(made)?);
        Ok(())
    }

    fn check_left(&mut self) -> io::Result<()> {
        let made = self.check_left_at_path();
        self.counted(made)
    }

    /// The new file is closed first.
    fn remove(&mut self) -> io::Result<()> {
        self.file = None;
        let made = self.remove_at_path();
        self.counted(made)
    }

    fn set_mode(&mut self, mode: u32) -> io::Result<()> {
        let made = set_mode_of(&self.file, mode);
        self.counted(made)
    }

    fn node(&mut self) -> io::Result<Option<Inode>> {
        let made = node_of_open(&self.file);
        self.counted(made)
    }

    fn write(&mut self, bytes: &[u8]) -> io::Result<usize> {
        let made = write_to(&mut self.file, bytes);
        self.counted(made)
    }

    fn sync(&mut self) -> io::Result<()> {
        let made = sync_whole(self.file.take());
        self.counted(made)
    }

    fn check_made(&mut self, made: Option<Inode>) -> io::Result<()> {
        let made = self.check_made_at_path(made);
        self.counted(made)
    }

    fn rename(&mut self) -> io::Result<()> {
        let made = self.rename_from_path();
        self.counted(made)
    }

    fn sync_folder(&mut self) -> io::Result<()> {
        let made = sync_folder_of(self.rt, self.name);
        self.counted(made)
    }

    fn save_in_place(&mut self, bytes: &[u8]) -> io::Result<Option<Inode>> {
        let made = write_in_place(self.file.take(), bytes);
        self.counted(made)
    }
}

fn set_mode_of(file: &Option<File>, mode: u32) -> io::Result<()> {
    match file {
        Some(file) => file.set_permissions(Permissions::from_mode(mode & 0o777)),
        None => Err(ErrorKind::NotFound.into()),
    }
}

fn node_of_open(file: &Option<File>) -> io::Result<Option<Inode>> {
    match file {
        Some(file) => Ok(node_of(&again(|| file.metadata())?)),
        None => Err(ErrorKind::NotFound.into()),
    }
}

/// One write, of some bytes. A write of no byte is a fault.
fn write_to(file: &mut Option<File>, bytes: &[u8]) -> io::Result<usize>
    ensures count { IfOk result (λ n. n ≤ length bytes.now) }
    ensures some { IfOk result (λ n. 0 < n) }
{
    let Some(file) = file else {
        return Err(ErrorKind::NotFound.into());
    };
    let count = write_some(file, bytes)?;
    if count == 0 {
        return Err(ErrorKind::WriteZero.into());
    }
    Ok(count)
}

/// Makes a call again as long as a signal comes first.
fn again<T, F: Fn() -> io::Result<T>>(call: F) -> io::Result<T>
    requires { F.IsAlwaysCallable call }
{
    for _ in 0..u64::MAX {
        match call() {
            Err(error) if error.kind() == ErrorKind::Interrupted => {}
            made => return made,
        }
    }
    Err(ErrorKind::TimedOut.into())
}

/// One read. One that a signal interrupted is tried again.
fn read_some(file: &mut File, piece: &mut [u8; 4096]) -> io::Result<usize>
    ensures bound { IfOk result (λ n. n ≤ 4096) }
    ensures tried_again { IfErr result (λ e. error_kind e ≢ ErrorKind.Interrupted) }
{
    for _ in 0..u64::MAX {
        match file.read(piece) {
            Err(error) if error.kind() == ErrorKind::Interrupted => {}
            read => return read,
        }
    }
    Err(ErrorKind::TimedOut.into())
}

/// Refuses a file that holds no text, where this process may read it: it may be a disk or the journal under another name. A disk's slot has a byte 0 or 1 in its first bytes, and so has a journal.
fn check_text<R: Files<File = File>>(rt: &R, name: &str) -> io::Result<()> {
    let mut file = match fs::open(rt, name) {
        Ok(file) => file,
        Err(error) if error.kind() == ErrorKind::PermissionDenied => return Ok(()),
        Err(error) => return Err(error),
    };
    let mut first = [0u8; 4096];
    let count = read_some(&mut file, &mut first)?;
    let first = &first[..count];
    if first.contains(&0) || first.contains(&1) {
        return Err(Error::other("what it holds is no text"));
    }
    Ok(())
}

/// Refuses what a link leads to where it has the name of a disk or of a journal.
fn check_path(path: &str) -> io::Result<()> {
    if path.ends_with(".disk") || path.ends_with(".mig") {
        return Err(Error::other("it leads to a disk or a journal"));
    }
    Ok(())
}

/// The most bytes of a file's own name, and of a path.
const NAME_MAX: usize = 255;

pub const PATH_MAX: usize = 4096;

/// No word for a file ends in `.mig`, and no name followed by this is the journal's.
const SUFFIX: &str = ".new.mig";

/// The path of the new file, in memory of the caller: the name, cut where the system would find it too long, and the suffix. A name that would be its own new file's is an error.
fn new_path<'b>(name: &str, room: &'b mut [u8; PATH_MAX]) -> io::Result<&'b str> {
    let own = match Path::new(name).file_name() {
        Some(own) => own.len(),
        None => 0,
    };
    let over = (own + SUFFIX.len()).saturating_sub(NAME_MAX);
    let mut end = name.len().saturating_sub(over);
    for _ in 0..4 {
        if !name.is_char_boundary(end) {
            end = end.saturating_sub(1);
        }
    }
    let Some(stem) = name.get(..end) else {
        return Err(ErrorKind::InvalidFilename.into());
    };
    let whole = stem.len() + SUFFIX.len();
    if whole > PATH_MAX {
        return Err(ErrorKind::InvalidFilename.into());
    }
    room[..stem.len()].copy_from_slice(stem.as_bytes());
    room[stem.len()..whole].copy_from_slice(SUFFIX.as_bytes());
    match std::str::from_utf8(&room[..whole]) {
        Ok(path) if path != name => Ok(path),
        _ => Err(ErrorKind::InvalidFilename.into()),
    }
}

/// Writes into what is there. A plain file, which a link leads to, is emptied first.
fn write_in_place(file: Option<File>, bytes: &[u8]) -> io::Result<Option<Inode>> {
    let Some(mut file) = file else {
        return Err(ErrorKind::NotFound.into());
    };
    let node = node_of(&again(|| file.metadata())?);
    if node.is_some() {
        file.set_len(0)?;
    }
    write_whole(&mut file, bytes)?;
    sync_whole(Some(file))?;
    Ok(node)
}

/// Syncs what can be synced, and closes. What a file system tells only at the close is lost, but after a sync that succeeded there is none of it.
fn sync_whole(file: Option<File>) -> io::Result<()> {
    let Some(file) = file else {
        return Err(ErrorKind::NotFound.into());
    };
    match file.sync_all() {
        // a pipe or a terminal has nothing to sync
        Err(error) if error.kind() == ErrorKind::InvalidInput => Ok(()),
        synced => synced,
    }
}

/// Syncs the folder that the name stands in, where this process may open it.
fn sync_folder_of<R: Files<File = File>>(rt: &R, name: &str) -> io::Result<()> {
    let folder = match Path::new(name).parent() {
        Some(folder) if !folder.as_str().is_empty() => folder,
        _ => Path::new("."),
    };
    match fs::open(rt, folder) {
        Ok(folder) => folder.sync_all(),
        Err(error) if error.kind() == ErrorKind::PermissionDenied => Ok(()),
        Err(error) => Err(error),
    }
}
