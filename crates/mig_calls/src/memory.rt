//! Files in memory, which tell all.
ghost use Rattle.std.specs.Prelude.{◌≡◌, ◌≤◌, ◌<◌, ◌+◌, true, false, ◌++◌, ◌∷◌, [], ℕ, IsTrue, IsFalse, IfOk, IfErr, OnOk, OnErr, length, slice_index};
ghost use Rattle.mig_base.specs.FaultCounts.{Rose};
ghost use Rattle.mig_calls.specs.declared.calls.CallError.TheVariants.{Failed};
ghost use Rattle.mig_calls.specs.declared.mem_disk.FilesStep.TheVariants.{Changed, Crashed};
ghost use Rattle.mig_calls.specs.declared.places.Place.{Place as Places};
ghost use Rattle.mig_calls.specs.FileBytes.{picked_byte};
ghost use Rattle.mig_calls.specs.MemFiles.{left_file};
ghost use Rattle.mig_calls.specs.Files.{FilesState, FilesLook, FilesWrite, KeepsFlags, TouchesFile, IsSettledAt, HasBytes, EndsAt, HasCallCause};
ghost use Rattle.mig_calls.specs.Memory.{FileMemory, files_state, mem_is_state, files_after};

use crate::calls::{CallError, Calls, Extent, Written};
use crate::mem_disk::MemDisk;
use crate::mem_file::Change;
use crate::pick::FilePick;
use crate::places::Place;
use crate::refusals::Refusal;
use crate::trouble::CallTrouble;
use crate::values::Values;
use indexmap::IndexSet;
use std::alloc::{AllocError, Global};
use std::marker::Model;

/// Files in memory, which tell all: what reads give, and what a crash may leave. Calls fail where they are told to.
#[derive(Drop)]
pub struct MemCalls {
    alloc: Global,
    disk: MemDisk,
    opened: IndexSet<Place>,
    trouble: CallTrouble,
    /// How many calls were made.
    number: u64,
    faults: u64,
    refused: u64,
    unmade: u64,
    claimed: bool,
    usable: bool,
}

impl Model for MemCalls {
    ghost use Rattle.mig_calls.specs.Memory.{FileMemory};

    ghost Value = { FileMemory };

    ghost view = { λ m. record { steps = m.disk; faults = m.faults; refused = m.refused; unmade = m.unmade; claimed = m.claimed; usable = m.usable } };
}

impl MemCalls {
    /// No files, and no call that fails.
    pub fn new(alloc: Global) -> MemCalls
        ensures { result ≡ record { steps = []; faults = 0; refused = 0; unmade = 0; claimed = false; usable = true } }
    {
        MemCalls {
            alloc,
            disk: MemDisk::new(alloc),
            opened: IndexSet::new(alloc),
            trouble: CallTrouble::none(alloc),
            number: 0,
            faults: 0,
            refused: 0,
            unmade: 0,
            claimed: false,
            usable: true,
        }
    }

    /// Lets calls go wrong from now on, which are numbered from the next one on.
    pub fn trouble(&mut self, trouble: CallTrouble)
        ensures { self.new ≡ self.old }
    {
        self.trouble = trouble;
        self.number = 0;
    }

    /// How many calls were made since calls were told to go wrong.
    pub fn calls(&self) -> u64 {
        self.number
    }

    /// The files as the next process finds them: none is open, and nothing goes wrong. That a sync failed stays so.
    pub fn restart(&mut self)
        ensures { self.new ≡ record self.old { claimed = false } }
    {
        self.opened.clear();
        self.trouble = CallTrouble::none(self.alloc);
        self.number = 0;
        self.claimed = false;
    }

    // The files as the first process finds them once they were mounted.
    fn mount(&mut self)
        ensures { self.new ≡ record self.old { claimed = false; usable = true } }
    {
        self.restart();
        self.usable = true;
    }

    /// The files after a crash, as the next process finds them: what is picked of each byte that isn't settled, and under each name. An error is want of memory.
    pub fn crash(self, pick: FilePick) -> Result<MemCalls, AllocError>
        ensures files { IfOk result (λ left. left ≡ record self { steps = self.steps ++ Crashed pick ∷ []; claimed = false; usable = true }) }
        ensures picked { IfOk result (λ left. (place : Places) (i : ℕ) → (files_state left).reads place i ≡ picked_byte pick i (left_file pick ((files_after self.steps).files place) i)) }
        ensures left { IfOk result (λ left. (files_state self).may_leave (files_state left).reads) }
        ensures settled { IfOk result (λ left. (place : Places) → IsSettledAt (files_state left) place) }
        ensures named { IfOk result (λ left. IsTrue (files_state left).named) }
        ensures flushed { IfOk result (λ left. (place : Places) → IsTrue ((files_state left).flushed place)) }
        ensures usable { IfOk result (λ left. IsTrue (files_state left).usable) }
    {
        let mut left = self;
        left.crash_disk(pick)?;
        left.mount();
        Ok(left)
    }

    fn crash_disk(&mut self, pick: FilePick) -> Result<(), AllocError>
        ensures done { OnOk result (self.new ≡ record self.old { steps = self.old.steps ++ Crashed pick ∷ [] }) }
        ensures nothing { OnErr result (self.new ≡ self.old) }
    {
        self.disk.crash(pick)
    }

    /// What reads give of a file from an offset on; tells how many bytes there are. It counts as no call.
    pub fn peek(&self, place: &Place, at: u64, into: &mut [u8]) -> usize
        ensures count { result ≤ length into.old }
        ensures bytes { HasBytes ((files_state self.now).reads place.now) at result into.new }
        ensures end { result ≡ 0 → 0 < length into.old → EndsAt ((files_state self.now).reads place.now) at }
    {
        self.disk.read(place, at, usize::MAX, into)
    }

    // Counts a fault.
    fn fail(&mut self) -> CallError
        ensures error { result ≡ Failed }
        ensures same { self.new ≡ record self.old { faults = self.new.faults } }
        ensures look { FilesLook (files_state self.old) (files_state self.new) }
        ensures flags { KeepsFlags (files_state self.old) (files_state self.new) }
        ensures rose { Rose self.old.faults self.new.faults }
        ensures later { self.old.faults ≤ self.new.faults }
    {
        self.faults = self.faults.saturating_add(1);
        CallError::Failed
    }

    // Counts a call that isn't made.
    fn leave(&mut self)
        ensures same { self.new ≡ record self.old { unmade = self.new.unmade } }
        ensures rose { Rose self.old.unmade self.new.unmade }
        ensures more { self.old.unmade ≤ self.new.unmade }
    {
        self.unmade = self.unmade.saturating_add(1);
    }

    // Counts a refusal for what was found.
    fn deny(&mut self)
        ensures same { self.new ≡ record self.old { refused = self.new.refused } }
        ensures rose { Rose self.old.refused self.new.refused }
        ensures more { self.old.refused ≤ self.new.refused }
    {
        self.refused = self.refused.saturating_add(1);
    }

    // Begins a call, which may fail or be interrupted.
    fn enter(&mut self) -> Result<(), CallError>
        ensures look { FilesLook (files_state self.old) (files_state self.new) }
        ensures flags { KeepsFlags (files_state self.old) (files_state self.new) }
        ensures steps { self.new.steps ≡ self.old.steps }
        ensures claimed { self.new.claimed ≡ self.old.claimed }
        ensures usable { self.new.usable ≡ self.old.usable }
        ensures cause { HasCallCause (files_state self.old) (files_state self.new) result }
    {
        self.number = self.number.saturating_add(1);
        if self.trouble.interrupts(self.number) {
            self.leave();
            return Err(CallError::Interrupted);
        }
        if self.trouble.fails(self.number) {
            return Err(self.fail());
        }
        Ok(())
    }

    // Begins a call on a file, which opens it.
    fn open(&mut self, place: &Place) -> Result<(), CallError>
        ensures look { FilesLook (files_state self.old) (files_state self.new) }
        ensures flags { KeepsFlags (files_state self.old) (files_state self.new) }
        ensures steps { self.new.steps ≡ self.old.steps }
        ensures claimed { self.new.claimed ≡ self.old.claimed }
        ensures usable { self.new.usable ≡ self.old.usable }
        ensures cause { HasCallCause (files_state self.old) (files_state self.new) result }
    {
        self.enter()?;
        if self.opened.contains(place) {
            return Ok(());
        }
        if self.trouble.most_open <= self.opened.len() {
            self.leave();
            return Err(CallError::Full);
        }
        match self.opened.insert(*place) {
            Ok(_) => Ok(()),
            Err(_) => Err(self.fail()),
        }
    }

    // Changes a file.
    fn change(&mut self, place: &Place, change: Change) -> Result<(), CallError>
        ensures done { OnOk result (self.new.steps ≡ self.old.steps ++ Changed place.now change ∷ []) }
        ensures nothing { OnErr result (self.new.steps ≡ self.old.steps) }
        ensures failed { IfErr result (λ error. error ≡ Failed) }
        ensures claimed { self.new.claimed ≡ self.old.claimed }
        ensures usable { self.new.usable ≡ self.old.usable }
        ensures refused { self.old.refused ≤ self.new.refused }
        ensures cause { HasCallCause (files_state self.old) (files_state self.new) result }
    {
        match self.disk.change(place, change) {
            Ok(()) => Ok(()),
            Err(_) => Err(self.fail()),
        }
    }

    // Makes the file where it isn't there, and tells whether it did.
    fn make(&mut self, place: &Place) -> Result<bool, CallError>
        ensures look { FilesLook (files_state self.old) (files_state self.new) }
        ensures flushed { (files_state self.new).flushed ≡ (files_state self.old).flushed }
        ensures named { IfOk result (λ made. IsFalse made → (files_state self.new).named ≡ (files_state self.old).named) }
        ensures claimed { self.new.claimed ≡ self.old.claimed }
        ensures usable { self.new.usable ≡ self.old.usable }
        ensures cause { HasCallCause (files_state self.old) (files_state self.new) result }
    {
        let there = match self.disk.file(place) {
            Some(file) => file.there,
            None => false,
        };
        if there {
            return Ok(false);
        }
        self.change(place, Change::Made)?;
        Ok(true)
    }

    // Writes values from an offset on.
    fn put(&mut self, place: &Place, at: u64, values: &[u8]) -> Result<(), CallError>
        ensures written { OnOk result (HasBytes ((files_state self.new).reads place.now) at (length values.now) values.now) }
        ensures change { FilesWrite place.now at (length values.now) (files_state self.old) (files_state self.new) }
        ensures flags { TouchesFile place.now (files_state self.old) (files_state self.new) }
        ensures named { (files_state self.new).named ≡ (files_state self.old).named }
        ensures claimed { self.new.claimed ≡ self.old.claimed }
        ensures usable { self.new.usable ≡ self.old.usable }
        ensures cause { HasCallCause (files_state self.old) (files_state self.new) result }
    {
        match Values::of(self.alloc, values) {
            Ok(values) => self.change(place, Change::Wrote { at, values }),
            Err(_) => Err(self.fail()),
        }
    }

    // This process alone may write from now on.
    fn own(&mut self)
        ensures same { self.new ≡ record self.old { claimed = true } }
        ensures claimed { IsTrue self.old.usable → IsTrue (files_state self.new).claimed }
        ensures look { FilesLook (files_state self.old) (files_state self.new) }
        ensures flushed { (files_state self.new).flushed ≡ (files_state self.old).flushed }
    {
        self.claimed = true;
    }

    // A sync failed: nobody may write from now on.
    fn give_up(&mut self)
        ensures same { self.new ≡ record self.old { usable = false } }
        ensures look { FilesLook (files_state self.old) (files_state self.new) }
        ensures named { (files_state self.new).named ≡ (files_state self.old).named }
        ensures flushed { (files_state self.new).flushed ≡ (files_state self.old).flushed }
    {
        self.usable = false;
    }

    // Brings a file to the device, unless a sync has failed.
    fn bring(&mut self, place: &Place) -> Result<(), CallError>
        ensures look { FilesLook (files_state self.old) (files_state self.new) }
        ensures brought { OnOk result (IsTrue ((files_state self.new).flushed place.now)) }
        ensures flags { TouchesFile place.now (files_state self.old) (files_state self.new) }
        ensures named { (files_state self.new).named ≡ (files_state self.old).named }
        ensures claimed { self.new.claimed ≡ self.old.claimed }
        ensures usable { self.new.usable ≡ self.old.usable }
        ensures cause { HasCallCause (files_state self.old) (files_state self.new) result }
    {
        if !self.usable {
            return Err(self.fail());
        }
        self.open(place)?;
        self.change(place, Change::Synced)
    }

    // Brings the names of all files to the device.
    fn name(&mut self) -> Result<(), CallError>
        ensures look { FilesLook (files_state self.old) (files_state self.new) }
        ensures done { OnOk result (IsTrue (files_state self.new).named) }
        ensures flushed { (files_state self.new).flushed ≡ (files_state self.old).flushed }
        ensures claimed { self.new.claimed ≡ self.old.claimed }
        ensures usable { self.new.usable ≡ self.old.usable }
        ensures cause { HasCallCause (files_state self.old) (files_state self.new) result }
    {
        match self.disk.name_all() {
            Ok(()) => Ok(()),
            Err(_) => Err(self.fail()),
        }
    }

    // Does so unless a sync has failed.
    fn bring_names(&mut self) -> Result<(), CallError>
        ensures look { FilesLook (files_state self.old) (files_state self.new) }
        ensures done { OnOk result (IsTrue (files_state self.new).named) }
        ensures flushed { (files_state self.new).flushed ≡ (files_state self.old).flushed }
        ensures claimed { self.new.claimed ≡ self.old.claimed }
        ensures usable { self.new.usable ≡ self.old.usable }
        ensures cause { HasCallCause (files_state self.old) (files_state self.new) result }
    {
        if !self.usable {
            return Err(self.fail());
        }
        self.enter()?;
        self.name()
    }

    // How many of so many bytes a call moves.
    fn most(&self, len: usize) -> usize
        ensures most { result ≤ len }
        ensures some { 0 < len → 0 < result }
    {
        let _claimed = self.claimed;
        len.min(self.trouble.most_bytes.max(1))
    }
}

impl Calls for MemCalls {
    ghost state = { files_state };

    ghost is_state = { mem_is_state };

    fn claim(&mut self) -> Result<(), CallError> {
        self.open(&Place::Journal)?;
        if !self.usable {
            return Err(self.fail());
        }
        let _made = self.make(&Place::Journal)?;
        self.own();
        Ok(())
    }

    fn read_at(&mut self, place: &Place, offset: u64, into: &mut [u8]) -> Result<usize, CallError> {
        self.open(place)?;
        let most = self.most(into.len());
        Ok(self.disk.read(place, offset, most, into))
    }

    fn len(&mut self, place: &Place) -> Result<Extent, CallError> {
        self.open(place)?;
        let (len, there) = self.disk.len(place);
        if len == 0 && !there {
            return Ok(Extent::Absent);
        }
        Ok(Extent::File { len: len as u64 })
    }

    fn write_at(&mut self, place: &Place, offset: u64, bytes: &[u8]) -> Result<Written, CallError> {
        self.open(place)?;
        let made = self.make(place)?;
        let count = self.most(bytes.len());
        self.put(place, offset, &bytes[..count])?;
        Ok(Written { count, made })
    }

    fn sync(&mut self, place: &Place) -> Result<(), CallError> {
        match self.bring(place) {
            Ok(()) => Ok(()),
            Err(CallError::Failed) => {
                self.give_up();
                Err(CallError::Failed)
            }
            Err(error) => Err(error),
        }
    }

    fn sync_names(&mut self) -> Result<(), CallError> {
        match self.bring_names() {
            Ok(()) => Ok(()),
            Err(CallError::Failed) => {
                self.give_up();
                Err(CallError::Failed)
            }
            Err(error) => Err(error),
        }
    }

    fn close(&mut self, place: &Place) {
        let _was_open = self.opened.swap_remove(place);
    }

    fn refuse(&mut self, why: &Refusal) {
        if why.is_found() {
            self.deny();
            return;
        }
        let _failed = self.fail();
    }
}
