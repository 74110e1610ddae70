//! A device with files in memory, and what was done to them.
ghost use Rattle.std.specs.Prelude.{◌≡◌, ◌≤◌, ◌<◌, ◌+◌, ◌++◌, ◌∷◌, [], ℕ, OnOk, OnErr, IfSome, IfNone, length, slice_index};
ghost use Rattle.mig_calls.specs.MemFiles.{no_file, file_moment};
ghost use Rattle.mig_calls.specs.Memory.{files_after, reads_of};
ghost use Rattle.mig_calls.specs.declared.mem_disk.FilesStep.TheVariants.{Changed, Named, Crashed};

use crate::growing::push;
use crate::mem_file::{Change, MemFile};
use crate::mem_files;
use crate::pick::FilePick;
use crate::places::Place;
use mig_keys::KeyTable;
use std::alloc::{AllocError, Global};
use std::marker::Model;

/// What was done to the files.
#[derive(Drop)]
pub enum FilesStep {
    /// One of them changed.
    Changed { place: Place, change: Change },
    /// The names of all files were brought to the device.
    Named,
    /// A crash came.
    Crashed { pick: FilePick },
}

/// Files in memory, and the steps that made them. Reads and changes don't depend on how many steps there were.
#[derive(Drop)]
pub struct MemDisk {
    alloc: Global,
    table: KeyTable<Place>,
    files: Vec<MemFile>,
    steps: Vec<FilesStep>,
}

impl Model for MemDisk {
    ghost use Rattle.std.specs.Prelude.{List};
    ghost use Rattle.mig_calls.specs.declared.mem_disk.FilesStep.{FilesStep};
    ghost use Rattle.mig_calls.specs.FileBytes.{byte_at};
    ghost use Rattle.mig_calls.specs.MemFiles.{seen_files};
    ghost use Rattle.mig_calls.specs.Memory.{IsDisk};

    ghost Value = { List FilesStep };

    ghost view = { λ d. d.steps.items };

    ghost invariant = { λ d. IsDisk d.steps.items d.table (seen_files d.files.items) };
}

impl MemDisk {
    /// No files.
    pub fn new(alloc: Global) -> MemDisk
        ensures { result ≡ [] }
    {
        MemDisk {
            alloc,
            table: KeyTable::new(alloc),
            files: Vec::new(alloc),
            steps: Vec::new(alloc),
        }
    }

    // Keeps a file of this place from now on.
    fn add(&mut self, place: &Place) -> Result<(), AllocError>
        ensures { self.new ≡ self.old }
    {
        if self.table.find(place).is_some() {
            return Ok(());
        }
        self.files.reserve(1)?;
        self.table.push(*place)?;
        push(&mut self.files, MemFile::new(self.alloc, place));
        Ok(())
    }

    /// Changes the file of a place. An error is want of memory, and changes nothing.
    pub fn change(&mut self, place: &Place, change: Change) -> Result<(), AllocError>
        ensures done { OnOk result (self.new ≡ self.old ++ Changed place.now change ∷ []) }
        ensures nothing { OnErr result (self.new ≡ self.old) }
    {
        let place = *place;
        self.add(&place)?;
        self.steps.reserve(1)?;
        mem_files::change(&self.table, &mut self.files, self.alloc, &place, &change)?;
        push(&mut self.steps, FilesStep::Changed { place, change });
        Ok(())
    }

    /// Brings the names of all files to the device. An error is want of memory, and changes nothing.
    pub fn name_all(&mut self) -> Result<(), AllocError>
        ensures done { OnOk result (self.new ≡ self.old ++ Named ∷ []) }
        ensures nothing { OnErr result (self.new ≡ self.old) }
    {
        let _journal = Place::Journal;
        self.steps.reserve(1)?;
        mem_files::name_all(&mut self.files);
        push(&mut self.steps, FilesStep::Named);
        Ok(())
    }

    /// Keeps what a crash leaves of each file. An error is want of memory, and changes nothing.
    pub fn crash(&mut self, pick: FilePick) -> Result<(), AllocError>
        ensures done { OnOk result (self.new ≡ self.old ++ Crashed pick ∷ []) }
        ensures nothing { OnErr result (self.new ≡ self.old) }
    {
        let _journal = Place::Journal;
        self.steps.reserve(1)?;
        mem_files::crash_all(&mut self.files, pick);
        push(&mut self.steps, FilesStep::Crashed { pick });
        Ok(())
    }

    /// The file of a place, where one is kept.
    pub fn file(&self, place: &Place) -> Option<&MemFile>
        ensures some { IfSome result (λ file. file_moment file.now ≡ (files_after self.now).files place.now) }
        ensures none { IfNone result ((files_after self.now).files place.now ≡ no_file) }
    {
        mem_files::get(&self.table, &self.files, place)
    }

    /// Reads bytes of a file from an offset on, so many at most, and tells how many there are.
    pub fn read(&self, place: &Place, at: u64, most: usize, into: &mut [u8]) -> usize
        ensures count { result ≤ length into.old }
        ensures values { (i : ℕ) → i < result → slice_index into.new i ≡ reads_of (files_after self.now) place.now (at + i) }
        ensures end { result ≡ 0 → 0 < length into.old → 0 < most → (i : ℕ) → at ≤ i → reads_of (files_after self.now) place.now i ≡ 0 }
    {
        match self.file(place) {
            Some(file) => file.now.read(at, most, into),
            None => 0,
        }
    }

    /// How many bytes a file has, and whether it was made.
    pub fn len(&self, place: &Place) -> (usize, bool)
        ensures { (i : ℕ) → result.0 ≤ i → reads_of (files_after self.now) place.now i ≡ 0 }
    {
        match self.file(place) {
            Some(file) => (file.now.len(), file.there),
            None => (0, false),
        }
    }
}
