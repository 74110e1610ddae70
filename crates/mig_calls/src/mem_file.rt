//! A file in memory: what is under its name, and what the device may have under it.
ghost use Rattle.std.specs.Prelude.{◌≡◌, OnOk, OnErr, map};
ghost use Rattle.mig_calls.specs.declared.mem_file.Change.TheVariants.{Made, Synced};
ghost use Rattle.mig_calls.specs.MemFiles.{no_file, file_moment, changed, after_write, with_name, first_or, crashed};
ghost use Rattle.mig_calls.specs.FileBytes.{byte_at};

use crate::file_bytes::FileBytes;
use crate::pick::FilePick;
use crate::places::Place;
use crate::values::Values;
use std::alloc::{AllocError, Global};

/// How a file changes.
#[derive(Drop)]
pub enum Change {
    /// The file was made. The device may have none under the name.
    Made,
    /// Values were written from an offset on.
    Wrote { at: u64, values: Values },
    /// A sync succeeded.
    Synced,
}

/// A file in memory.
#[derive(Drop)]
pub struct MemFile {
    pub place: Place,
    /// The bytes of the file that has the name.
    pub now: FileBytes,
    /// Those of the files that the device may have under the name instead, the latest first.
    pub olds: Vec<FileBytes>,
    /// All that was written to it was brought to the device.
    pub flushed: bool,
    /// The file was made.
    pub there: bool,
}

impl MemFile {
    /// No file.
    pub fn new(alloc: Global, place: &Place) -> MemFile
        ensures place { result.place ≡ place.now }
        ensures none { file_moment result ≡ no_file }
    {
        MemFile {
            place: *place,
            now: FileBytes::new(alloc),
            olds: Vec::new(alloc),
            flushed: true,
            there: false,
        }
    }

    fn make(&mut self, alloc: Global) -> Result<(), AllocError>
        ensures place { self.new.place ≡ self.old.place }
        ensures done { OnOk result (file_moment self.new ≡ changed Made (file_moment self.old)) }
        ensures nothing { OnErr result (file_moment self.new ≡ file_moment self.old) }
    {
        let before = self.now.copied(alloc)?;
        match self.olds.insert(0, before) {
            Ok(()) => {}
            Err(_) => return Err(AllocError),
        }
        self.there = true;
        Ok(())
    }

    fn write(&mut self, at: u64, values: &Values) -> Result<(), AllocError>
        ensures place { self.new.place ≡ self.old.place }
        ensures done { OnOk result (file_moment self.new ≡ after_write at values.now (file_moment self.old)) }
        ensures nothing { OnErr result (file_moment self.new ≡ file_moment self.old) }
    {
        self.now.write(at, values.as_slice())?;
        self.flushed = false;
        Ok(())
    }

    fn sync(&mut self)
        ensures place { self.new.place ≡ self.old.place }
        ensures done { file_moment self.new ≡ changed Synced (file_moment self.old) }
    {
        self.now.settle();
        self.flushed = true;
    }

    /// Changes the file. An error is want of memory, and changes nothing.
    pub fn change(&mut self, alloc: Global, change: &Change) -> Result<(), AllocError>
        ensures place { self.new.place ≡ self.old.place }
        ensures done { OnOk result (file_moment self.new ≡ changed change.now (file_moment self.old)) }
        ensures nothing { OnErr result (file_moment self.new ≡ file_moment self.old) }
    {
        match change {
            Change::Made => self.make(alloc)?,
            Change::Wrote { at, values } => self.write(*at, values)?,
            Change::Synced => self.sync(),
        }
        Ok(())
    }

    /// Brings its name to the device.
    pub fn name(&mut self)
        ensures place { self.new.place ≡ self.old.place }
        ensures done { file_moment self.new ≡ with_name (file_moment self.old) }
    {
        self.olds.clear();
    }

    // Takes the file that the device had under the name in place of this one, where there is one.
    fn go_back(&mut self)
        ensures place { self.new.place ≡ self.old.place }
        ensures now { byte_at self.new.now ≡ first_or (byte_at self.old.now) (map byte_at self.old.olds.items) }
    {
        if !self.olds.is_empty() {
            self.now = self.olds.remove(0);
        }
    }

    /// Keeps what a crash leaves.
    pub fn crash(&mut self, pick: FilePick)
        ensures place { self.new.place ≡ self.old.place }
        ensures done { file_moment self.new ≡ crashed pick (file_moment self.old) }
    {
        if let FilePick::Old | FilePick::Back = pick {
            self.go_back();
        }
        self.now.crash(pick);
        self.olds.clear();
        self.flushed = true;
        self.there = self.now.len() > 0;
    }
}
