//! The calls on the files of the working folder.
ghost use Rattle.std.specs.Prelude.{◌≡◌, ◌≤◌, IsTrue, Ok};
ghost use Rattle.mig_calls.specs.declared.places.Place.{Place as Places};
ghost use Rattle.mig_calls.specs.Files.{HasCallCause, IsCallCause, StaysUsable};
ghost use Rattle.mig_host.specs.Untold.{untold_state, host_is_state};

use crate::disks::Disks;
use crate::failures::Failure;
use crate::files::{claim_journal, noted, sync_names, write_journal};
use crate::journal::Journal;
use crate::system::System;
use crate::texts::RefusalText;
use mig_calls::{CallError, Calls, Extent, Place, Refusal, Written};

/// The calls over a system. They tell nothing but how many failed or were not made, how often the store refused, and whether a sync failed in this process. What failed, and why, is said on standard error.
pub struct SystemCalls<S: System> {
    sys: S,
    disks: Disks<S>,
    journal: Journal<S>,
    folder: Option<S::File>,
    faults: u64,
    refused: u64,
    unmade: u64,
    usable: bool,
}

impl<S: System> Drop for SystemCalls<S> {
    fn drop(self) {
        let SystemCalls {
            sys,
            disks,
            journal,
            folder,
            faults: _,
            refused: _,
            unmade: _,
            usable: _,
        } = self;
        drop(disks);
        drop(journal);
        drop(folder);
        drop(sys);
    }
}

impl<S: System> SystemCalls<S> {
    /// No file is open yet, and no call failed.
    pub fn new(sys: S) -> Self
        ensures usable { IsTrue (⟦<SystemCalls<S> as Calls>⟧.state result).usable }
        ensures flushed { (place : Places) → IsTrue ((⟦<SystemCalls<S> as Calls>⟧.state result).flushed place) }
        ensures faults { (⟦<SystemCalls<S> as Calls>⟧.state result).faults ≡ 0 }
    {
        let disks = Disks::new(sys.alloc());
        SystemCalls {
            sys,
            disks,
            journal: Journal::new(),
            folder: None,
            faults: 0,
            refused: 0,
            unmade: 0,
            usable: true,
        }
    }

    /// Counts a call that failed, and says why. One that may be made again is counted apart, and not told.
    fn counted(&mut self, failure: Failure) -> CallError
        ensures cause { IsCallCause (untold_state self.old.faults self.old.refused self.old.unmade self.old.usable) (untold_state self.new.faults self.new.refused self.new.unmade self.new.usable) result }
        ensures usable { self.new.usable ≡ self.old.usable }
        ensures later { self.old.faults ≤ self.new.faults }
        ensures more { self.old.unmade ≤ self.new.unmade }
        ensures refused { self.new.refused ≡ self.old.refused }
    {
        if failure.is_interruption() {
            self.unmade = self.unmade.saturating_add(1);
            return CallError::Interrupted;
        }
        if failure.is_full() && self.disks.has_open() {
            self.unmade = self.unmade.saturating_add(1);
            return CallError::Full;
        }
        self.sys.say(failure);
        self.faults = self.faults.saturating_add(1);
        CallError::Failed
    }

    /// What a call gave; where it failed, that is counted.
    fn answer<T>(&mut self, made: Result<T, Failure>) -> Result<T, CallError>
        ensures refused { self.new.refused ≡ self.old.refused }
        ensures cause { HasCallCause (untold_state self.old.faults self.old.refused self.old.unmade self.old.usable) (untold_state self.new.faults self.new.refused self.new.unmade self.new.usable) result }
        ensures usable { self.new.usable ≡ self.old.usable }
        ensures given { (given : T) → result ≡ Ok given → made ≡ Ok given }
    {
        match made {
            Ok(given) => Ok(given),
            Err(failure) => Err(self.counted(failure)),
        }
    }

    /// The same of a sync: after one that failed nothing may be written.
    fn synced(&mut self, made: Result<(), Failure>) -> Result<(), CallError>
        ensures refused { self.new.refused ≡ self.old.refused }
        ensures cause { HasCallCause (untold_state self.old.faults self.old.refused self.old.unmade self.old.usable) (untold_state self.new.faults self.new.refused self.new.unmade self.new.usable) result }
        ensures usable { StaysUsable (untold_state self.old.faults self.old.refused self.old.unmade self.old.usable) (untold_state self.new.faults self.new.refused self.new.unmade self.new.usable) result }
    {
        match self.answer(made) {
            Ok(()) => Ok(()),
            Err(CallError::Failed) => {
                self.usable = false;
                Err(CallError::Failed)
            }
            Err(error) => Err(error),
        }
    }
}

impl<S: System> Calls for SystemCalls<S> {
    ghost state = { λ h. untold_state h.faults h.refused h.unmade h.usable };

    ghost is_state = { λ h. host_is_state h.faults h.refused h.unmade h.usable };

    fn claim(&mut self) -> Result<(), CallError> {
        if !self.usable {
            return Err(self.counted(Failure::Unsynced(None)));
        }
        let made = claim_journal(&mut self.sys, &mut self.journal, &mut self.folder);
        self.answer(made)
    }

    fn read_at(&mut self, place: &Place, offset: u64, into: &mut [u8]) -> Result<usize, CallError> {
        let sys = &mut self.sys;
        let read = match place {
            Place::Disk(name) => self.disks.read_at(sys, &self.journal, name, offset, into),
            Place::Journal => self.journal.read_at(sys, offset, into),
        };
        self.answer(read)
    }

    fn len(&mut self, place: &Place) -> Result<Extent, CallError> {
        let made = match place {
            Place::Disk(name) => self.disks.len(&mut self.sys, &self.journal, name),
            Place::Journal => self.journal.len(&mut self.sys),
        };
        self.answer(made)
    }

    fn write_at(&mut self, place: &Place, offset: u64, bytes: &[u8]) -> Result<Written, CallError> {
        let sys = &mut self.sys;
        let made = match place {
            Place::Disk(name) => self.disks.write_at(sys, &self.journal, name, offset, bytes),
            Place::Journal => {
                let (disks, journal) = (&mut self.disks, &mut self.journal);
                write_journal(sys, disks, journal, &self.folder, offset, bytes)
            }
        };
        self.answer(made)
    }

    fn sync(&mut self, place: &Place) -> Result<(), CallError> {
        let made = match place {
            Place::Disk(name) => self.disks.sync(&mut self.sys, &self.journal, name),
            Place::Journal => self.journal.sync(&mut self.sys),
        };
        let made = noted(&mut self.sys, made);
        self.synced(made)
    }

    fn sync_names(&mut self) -> Result<(), CallError> {
        let made = sync_names(&mut self.sys, &mut self.folder);
        self.synced(made)
    }

    /// The journal's file stays open, with its lock.
    fn close(&mut self, place: &Place) {
        if let Place::Disk(name) = place {
            self.disks.close(name);
        }
    }

    fn refuse(&mut self, why: &Refusal) {
        self.sys.say(RefusalText(why));
        if why.is_found() {
            self.refused = self.refused.saturating_add(1);
            return;
        }
        self.faults = self.faults.saturating_add(1);
    }
}
