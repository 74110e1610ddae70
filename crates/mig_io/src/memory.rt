ghost use Rattle.std.specs.Prelude.{◌≡◌, ◌≢◌, ◌≤◌, ◌<◌, ◌↔◌, ℕ, [], Some, None, IfOk, OnOk, OnErr, IsErrOf, IsOk, IsTrue, if◌then◌else◌, MatchOption, length, take, vec_len, Contains};
ghost use Rattle.std.specs.Option.{IfSome, IsSomeAnd};

use crate::place::FolderEntry;
use crate::{Folder, LoadFault, SaveFailed, places};
use std::alloc::{AllocError, Global};
use std::marker::Model;

/// A folder in memory, which fails at the calls that it is told.
#[derive(Drop)]
pub struct MemFolder {
    alloc: Global,
    places: Vec<FolderEntry>,
    failing: Vec<u64>,
    calls: u64,
    faults: u64,
}

impl Model for MemFolder {
    ghost use Rattle.mig_io.specs.Memory.{HeldFolder, held_code};

    ghost Value = { HeldFolder };

    ghost coded = { held_code };

    ghost use Rattle.mig_io.specs.Places.{files_of, rooms_of};

    ghost view = { λ a. record { files = files_of a.places.items; rooms = rooms_of a.places.items; failing = a.failing.items; calls = a.calls; faults = a.faults } };
}

impl MemFolder {
    ghost use Rattle.std.specs.FinMap as map;
    ghost use Rattle.mig_io.specs.Files.{file};

    /// An empty folder, whose loads and saves with these numbers fail.
    pub fn new(alloc: Global, failing: Vec<u64>) -> Self
        ensures { result ≡ record { files = map.empty; rooms = map.empty; failing = failing.items; calls = 0; faults = 0 } }
    {
        MemFolder {
            alloc,
            places: Vec::new(alloc),
            failing,
            calls: 0,
            faults: 0,
        }
    }

    /// Sets memory aside for a file of at most so many bytes. The last grant for a name counts. An error is want of memory, and changes nothing.
    pub fn grant(&mut self, name: &str, room: usize) -> Result<(), AllocError>
        ensures ok { OnOk result (self.new ≡ record self.old { rooms = map.insert self.old.rooms name.now room }) }
        ensures err { OnErr result (self.new ≡ self.old) }
    {
        places::grant(self.alloc, &mut self.places, name, room)
    }

    /// Sets a file. An error is want of memory, and changes nothing.
    pub fn keep(&mut self, name: &str, bytes: &[u8]) -> Result<(), AllocError>
        ensures ok { OnOk result (self.new ≡ record self.old { files = map.insert self.old.files name.now bytes.now }) }
        ensures err { OnErr result (self.new ≡ self.old) }
    {
        places::keep(self.alloc, &mut self.places, name, bytes)
    }

    /// The bytes of a file, where it is there.
    pub fn file(&self, name: &str) -> Option<&[u8]>
        ensures { MatchOption result (file self.now.files name.now ≡ None) (λ bytes. file self.now.files name.now ≡ Some bytes.now) }
    {
        places::file_of(&self.places, name)
    }
}

impl MemFolder {
    ghost use Rattle.mig_io.specs.Counts.{next_count};
    ghost use Rattle.mig_io.specs.Memory.{folder_fails, folder_after, SavesAll};

    /// Counts a call, and says whether it is one that fails.
    fn begin(&mut self) -> bool
        ensures fails { result ≡ folder_fails self.old }
        ensures counted { self.new ≡ folder_after self.old self.old.faults }
    {
        let fails = self.failing.iter().any(|n| *n == self.calls);
        self.calls = self.calls.saturating_add(1);
        fails
    }

    /// Counts a fault.
    fn fault(&mut self)
        ensures { self.new ≡ record self.old { faults = next_count self.old.faults } }
    {
        self.faults = self.faults.saturating_add(1);
    }
}

impl Folder for MemFolder {
    ghost use Rattle.std.specs.FinMap as map;
    ghost use Rattle.mig_io.specs.Files.{file};
    ghost use Rattle.mig_io.specs.Counts.{next_count};
    ghost use Rattle.mig_io.specs.Memory.{folder_fails, folder_after, SavesAll};

    ghost state = { λ s. record { files = Some s.files; faults = s.faults } };

    /// Fails exactly at the numbers that were given.
    fn load(&mut self, alloc: Global, name: &str, most: usize) -> Result<Vec<u8>, LoadFault>
        ensures failed { IsErrOf result LoadFault.Failed ↔ IsTrue (folder_fails self.old) }
        ensures bytes { IfOk result (λ bytes. IsSomeAnd (file self.old.files name.now) (λ whole. bytes.items ≡ take most whole)) }
        ensures most { IfOk result (λ bytes. vec_len bytes ≤ most) }
        ensures missing { IsErrOf result LoadFault.Missing → file self.old.files name.now ≡ None }
        ensures after { self.new ≡ folder_after self.old (if folder_fails self.old then next_count self.old.faults else self.old.faults) }
    {
        if self.begin() {
            self.fault();
            return Err(LoadFault::Failed);
        }
        let Some(whole) = places::file_of(&self.places, name) else {
            return Err(LoadFault::Missing);
        };
        match Vec::from_slice(alloc, &whole[..most.min(whole.len())]) {
            Ok(bytes) => Ok(bytes),
            Err(_) => Err(LoadFault::Memory),
        }
    }

    /// Fails exactly at the numbers that were given, where nothing was granted to the name, and where the bytes are more than that.
    fn save(&mut self, name: &str, bytes: &[u8]) -> Result<(), SaveFailed>
        ensures saved { OnOk result (self.new ≡ folder_after (record self.old { files = map.insert self.old.files name.now bytes.now }) self.old.faults) }
        ensures failed { OnErr result (self.new ≡ folder_after self.old (next_count self.old.faults)) }
        ensures succeeds { IsOk result ↔ SavesAll self.old name.now bytes.now }
    {
        if self.begin() || !places::save(&mut self.places, name, bytes) {
            self.fault();
            return Err(SaveFailed);
        }
        Ok(())
    }
}
