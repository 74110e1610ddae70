//! The working folder of the process.
ghost use Rattle.std.specs.Prelude.{◌≡◌, ◌≢◌, ◌≤◌, ◌↔◌, vec_len, None, IfOk};
ghost use Rattle.std.specs.IoError.{error_kind};

use crate::reading::read_first;
use crate::{Folder, LoadFault, SaveFailed};
use mig_save::{HostSave, Inode, PATH_MAX, Unsaved, node_of, save_over};
use std::alloc::Global;
use std::fs::{self, File};
use std::io::{self, ErrorKind};
use std::rt::Files;

/// The working folder. A name is a path of the operating system, and two spellings of one file are two names. Of what files hold nothing is told. A file that was loaded, and the one that was saved last, is never saved over, whatever its spelling: a folder serves one run. What failed, and why, is said on standard error.
pub struct DirFolder<'a, R: Files<File = File> + Eprint> {
    rt: &'a R,
    alloc: Global,
    loaded: Vec<Inode>,
    saved: Option<Inode>,
    faults: u64,
}

impl<'a, R: Files<File = File> + Eprint> Drop for DirFolder<'a, R> {
    fn drop(self) {
        let DirFolder {
            rt: _,
            alloc: _,
            loaded,
            saved: _,
            faults: _,
        } = self;
        drop(loaded);
    }
}

impl<'a, R: Files<File = File> + Eprint> DirFolder<'a, R> {
    /// The folder over this runtime's files, without a fault so far.
    pub fn new(rt: &'a R, alloc: Global) -> Self
        ensures { result.faults ≡ 0 }
    {
        DirFolder {
            rt,
            alloc,
            loaded: Vec::new(alloc),
            saved: None,
            faults: 0,
        }
    }
}

/// What a file that can't be opened means.
fn fault_of(error: &io::Error) -> LoadFault
    ensures missing { result ≡ LoadFault.Missing ↔ error_kind error.now ≡ ErrorKind.NotFound }
    ensures memory { result ≡ LoadFault.Memory ↔ error_kind error.now ≡ ErrorKind.OutOfMemory }
{
    match error.kind() {
        ErrorKind::NotFound => LoadFault::Missing,
        ErrorKind::OutOfMemory => LoadFault::Memory,
        _ => LoadFault::Failed,
    }
}

/// What a file that was opened and can't be read means: it is there.
fn read_fault_of(error: &io::Error) -> LoadFault
    ensures there { result ≢ LoadFault.Missing }
    ensures memory { result ≡ LoadFault.Memory ↔ error_kind error.now ≡ ErrorKind.OutOfMemory }
{
    if error.kind() == ErrorKind::OutOfMemory {
        LoadFault::Memory
    } else {
        LoadFault::Failed
    }
}

/// Reads a file, and notes which one it is.
fn read_noted(
    alloc: Global,
    file: &mut File,
    most: usize,
    loaded: &mut Vec<Inode>,
) -> io::Result<Vec<u8>>
    ensures most { IfOk result (λ bytes. vec_len bytes ≤ most) }
{
    if let Some(node) = node_of(&file.metadata()?) {
        loaded.push(node)?;
    }
    read_first(alloc, file, most)
}

/// Saves a file by calls over the system.
fn save_named<R: Files<File = File>>(
    rt: &R,
    alloc: Global,
    loaded: &[Inode],
    saved: Option<Inode>,
    name: &str,
    bytes: &[u8],
) -> Result<Option<Inode>, Unsaved> {
    let mut room = [0u8; PATH_MAX];
    let mut calls = HostSave::new(rt, alloc, loaded, saved, name, &mut room);
    save_over(&mut calls, bytes)
}

impl<'a, R: Files<File = File> + Eprint> Folder for DirFolder<'a, R> {
    ghost state = { λ s. record { files = None; faults = s.faults } };

    fn load(&mut self, alloc: Global, name: &str, most: usize) -> Result<Vec<u8>, LoadFault> {
        let (error, fault) = match fs::open(self.rt, name) {
            Ok(mut file) => match read_noted(alloc, &mut file, most, &mut self.loaded) {
                Ok(bytes) => return Ok(bytes),
                Err(error) => (error, read_fault_of(&error)),
            },
            Err(error) => (error, fault_of(&error)),
        };
        if fault != LoadFault::Missing {
            let _ = eprintln!(self.rt; "migrate: cannot load {name}: {error}");
        }
        if fault == LoadFault::Failed {
            self.faults = self.faults.saturating_add(1);
        }
        Err(fault)
    }

    fn save(&mut self, name: &str, bytes: &[u8]) -> Result<(), SaveFailed> {
        match save_named(self.rt, self.alloc, &self.loaded, self.saved, name, bytes) {
            Ok(saved) => {
                self.saved = saved;
                Ok(())
            }
            Err(unsaved) => {
                let _ = eprintln!(self.rt; "migrate: cannot save {name}: {unsaved}");
                self.faults = self.faults.saturating_add(1);
                Err(SaveFailed)
            }
        }
    }
}
