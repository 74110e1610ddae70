//! The one adapter between the store and the system. Each method makes the one call that its name says, and turns its answer; what it does with files is trusted.
ghost use Rattle.std.specs.Prelude.{true, ⊤};
ghost use Rattle.mig_host.specs.Untold.{untold};

use crate::system::{Access, Handle, Kind, Stat, System};
use std::alloc::Global;
use std::fmt::Display;
use std::fs::{self, File, Metadata, OpenOptions, Permissions, TryLockError};
use std::io::{self, ErrorKind, Seek, SeekFrom};
use std::os::fd::AsRawFd;
use std::os::unix::fs::{FileExt, FileTypeExt, MetadataExt, PermissionsExt};
use std::rt::Files;

/// The calls over this runtime's files. They tell nothing.
pub struct HostSystem<'a, R: Files<File = File> + Eprint> {
    rt: &'a R,
    alloc: Global,
}

impl<'a, R: Files<File = File> + Eprint> Drop for HostSystem<'a, R> {
    fn drop(self) {
        let HostSystem { rt: _, alloc: _ } = self;
    }
}

impl<'a, R: Files<File = File> + Eprint> HostSystem<'a, R> {
    /// The system of this runtime.
    pub fn new(rt: &'a R, alloc: Global) -> Self {
        HostSystem { rt, alloc }
    }
}

impl Handle for File {
    ghost is_of = { λ file node. ⊤ };

    ghost holds = { λ file. true };

    ghost since = { λ file. 0 };
}

/// Makes a call again as long as a signal comes first, as std does with the others.
fn again<T, F: Fn() -> io::Result<T>>(call: F) -> io::Result<T>
    requires { F.IsAlwaysCallable call }
{
    for _ in 0..u64::MAX {
        match call() {
            Err(error) if error.kind() == ErrorKind::Interrupted => {}
            made => return made,
        }
    }
    Err(ErrorKind::TimedOut.into())
}

fn kind_of(found: &Metadata) -> Kind {
    if found.is_file() {
        Kind::Plain
    } else if found.file_type().is_block_device() {
        Kind::Device
    } else if found.is_dir() {
        Kind::Folder
    } else if found.is_symlink() {
        Kind::Link
    } else {
        Kind::Other
    }
}

fn stat_of(found: &Metadata) -> Stat {
    Stat {
        kind: kind_of(found),
        device: found.dev(),
        inode: found.ino(),
        number: found.rdev(),
        mode: found.mode(),
        len: found.len(),
        changed: (found.ctime(), found.ctime_nsec()),
    }
}

fn options_of(access: Access) -> OpenOptions {
    let mut options = OpenOptions::new();
    match access {
        Access::Read => options.read(true),
        Access::Both => options.read(true).write(true),
        Access::Make => options.read(true).write(true).create_new(true),
        Access::Anew => options.write(true).create(true).truncate(true),
    };
    options
}

impl<'a, R: Files<File = File> + Eprint> System for HostSystem<'a, R> {
    type File = File;

    type Folder = R::Dir;

    ghost state = { λ s. untold };

    fn alloc(&self) -> Global {
        self.alloc
    }

    fn stat(&mut self, path: &str) -> io::Result<Stat> {
        self.entry(path)
    }

    fn lstat(&mut self, path: &str) -> io::Result<Stat> {
        let rt = self.rt;
        Ok(stat_of(&again(|| fs::symlink_metadata(rt, path))?))
    }

    fn open(&mut self, path: &str, access: Access) -> io::Result<File> {
        options_of(access).open(self.rt, path)
    }

    fn lock(&mut self, file: &mut File) -> io::Result<bool> {
        match file.try_lock() {
            Ok(()) => Ok(true),
            Err(TryLockError::WouldBlock) => Ok(false),
            Err(TryLockError::Error(error)) => Err(error),
        }
    }

    fn read_at(&mut self, file: &File, offset: u64, into: &mut [u8]) -> io::Result<usize> {
        file.read_at(into, offset)
    }

    fn write_at(&mut self, file: &File, offset: u64, bytes: &[u8]) -> io::Result<usize> {
        file.write_at(bytes, offset)
    }

    fn set_mode(&mut self, file: &File, mode: u32) -> io::Result<()> {
        file.set_permissions(Permissions::from_mode(mode))
    }

    fn sync_data(&mut self, file: &File) -> io::Result<()> {
        file.sync_data()
    }

    fn sync_all(&mut self, file: &File) -> io::Result<()> {
        file.sync_all()
    }

    fn remove(&mut self, path: &str) -> io::Result<()> {
        fs::remove_file(self.rt, path)
    }

    fn fstat(&self, file: &File) -> io::Result<Stat> {
        Ok(stat_of(&again(|| file.metadata())?))
    }

    fn duplicate(&self, file: &File) -> io::Result<File> {
        file.try_clone()
    }

    fn descriptor(&self, file: &File) -> i32 {
        file.as_raw_fd()
    }

    fn end(&self, file: &File) -> io::Result<u64> {
        let mut file = file;
        file.seek(SeekFrom::End(0))
    }

    fn table(&self, path: &str) -> io::Result<File> {
        fs::open(self.rt, path)
    }

    fn folder(&self, path: &str) -> io::Result<R::Dir> {
        self.rt.open_dir(path)
    }

    fn entry(&self, path: &str) -> io::Result<Stat> {
        let rt = self.rt;
        Ok(stat_of(&again(|| fs::metadata(rt, path))?))
    }

    fn say<D: Display + Drop>(&self, what: D) {
        let _ = eprintln!(self.rt; "migrate: {what}");
    }
}
