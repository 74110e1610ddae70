//! The journal's file.
ghost use Rattle.std.specs.Prelude.{◌≡◌, ◌≤◌, ◌<◌, IsTrue, IsFalse, IfOk, IfSome, IsSomeAnd, OnOk, length};
ghost use Rattle.mig_host.specs.Systems.{Goes, IsLookedAt, IsOwn};

use crate::failures::{Failure, of_sync};
use crate::opened::{Opened, check_taken, open_to_read, open_to_write, take};
use crate::system::System;
use crate::texts::JOURNAL;
use mig_calls::{Extent, Place, Written};
use std::io::{self, Error};

/// The journal's file, which one process writes at a time.
#[derive(Drop)]
pub struct Journal<S: System> {
    opened: Option<Opened<S>>,
    /// This process alone may write.
    locked: bool,
}

impl<S: System> Journal<S> {
    /// The journal, not opened yet.
    pub fn new() -> Journal<S> {
        Journal {
            opened: None,
            locked: false,
        }
    }

    /// Whether another file has bytes in common with it.
    pub fn overlaps(&self, opened: &Opened<S>) -> bool {
        matches!(&self.opened, Some(file) if file.overlaps(opened))
    }

    /// Takes the file for this process alone until it ends, and makes it where it isn't there. It is refused where another process has it.
    pub fn claim(&mut self, sys: &mut S) -> Result<(), Failure>
        ensures locked { OnOk result (IsTrue self.new.locked) }
        ensures own { OnOk result (IsFalse self.old.locked → IsSomeAnd self.new.opened (λ opened.
            IsOwn (S.System.state sys.new) JOURNAL.now opened.node (S.File.holds opened.file) (S.File.since opened.file))) }
        ensures goes { Goes (S.System.state sys.old) (S.System.state sys.new) }
    {
        if self.locked {
            return Ok(());
        }
        match open_and_lock(sys) {
            Ok(opened) => {
                self.opened = Some(opened);
                self.locked = true;
                Ok(())
            }
            Err(error) => Err(Failure::OfJournal(error)),
        }
    }

    /// Whether this process has taken the file.
    pub fn is_claimed(&self) -> bool
        ensures { result ≡ self.now.locked }
    {
        self.locked
    }

    /// Reads some bytes, none where the file isn't there. It takes no lock.
    pub fn read_at(&mut self, sys: &mut S, offset: u64, into: &mut [u8]) -> Result<usize, Failure>
        ensures { IfOk result (λ n. n ≤ length into.old) }
    {
        match self.to_read(sys)? {
            Some(opened) => opened
                .read_at(sys, offset, into)
                .map_err(Failure::OfJournal),
            None => Ok(0),
        }
    }

    /// How many bytes the file has.
    pub fn len(&mut self, sys: &mut S) -> Result<Extent, Failure> {
        match self.to_read(sys)? {
            Some(opened) => Ok(opened.extent()),
            None => Ok(Extent::Absent),
        }
    }

    /// The file, opened where it isn't, if it is there.
    fn to_read(&mut self, sys: &mut S) -> Result<Option<&Opened<S>>, Failure> {
        if self.opened.is_none() {
            self.opened = open_to_read(sys, JOURNAL).map_err(Failure::OfJournal)?;
        }
        Ok(self.opened.as_ref())
    }

    /// Looks whether the file is this process's still.
    pub fn look_again(&self, sys: &mut S) -> Result<(), Failure>
        ensures own { OnOk result (IfSome self.now.opened (λ opened. IsLookedAt (S.System.state sys.old) (S.System.state sys.new) JOURNAL.now opened.node)) }
        ensures goes { Goes (S.System.state sys.old) (S.System.state sys.new) }
    {
        match &self.opened {
            Some(opened) => check_taken(sys, JOURNAL, opened.node).map_err(Failure::OfJournal),
            None => Ok(()),
        }
    }

    /// Writes some of the bytes to the file, which is locked.
    pub fn write_at(&mut self, sys: &mut S, offset: u64, bytes: &[u8]) -> Result<Written, Failure>
        ensures count { IfOk result (λ written. written.count ≤ length bytes.now) }
        ensures some { IfOk result (λ written. 0 < length bytes.now → 0 < written.count) }
        ensures goes { Goes (S.System.state sys.old) (S.System.state sys.new) }
    {
        let Some(opened) = &mut self.opened else {
            return Err(Failure::OfJournal(Error::other("it is not open")));
        };
        match opened.write_at(sys, offset, bytes) {
            Ok(count) => Ok(Written { count, made: false }),
            Err(error) => Err(Failure::OfJournal(error)),
        }
    }

    /// Brings all that was written to the file to the device.
    pub fn sync(&self, sys: &mut S) -> Result<(), Failure> {
        match &self.opened {
            Some(opened) => of_sync(opened.sync(sys), Some(Place::Journal)),
            None => Ok(()),
        }
    }
}

/// Opens the journal's file for writing, and locks it.
fn open_and_lock<S: System>(sys: &mut S) -> io::Result<Opened<S>>
    ensures own { IfOk result (λ opened. IsOwn (S.System.state sys.new) JOURNAL.now opened.node (S.File.holds opened.file) (S.File.since opened.file)) }
    ensures taken { IfOk result (λ opened. IsTrue opened.taken) }
    ensures goes { Goes (S.System.state sys.old) (S.System.state sys.new) }
{
    let (mut opened, _) = open_to_write(sys, JOURNAL)?;
    take(sys, JOURNAL, &mut opened)?;
    Ok(opened)
}
