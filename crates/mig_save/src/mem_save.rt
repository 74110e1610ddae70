//! The calls that save a file, in memory.
ghost use Rattle.std.specs.Prelude.{◌≡◌, ◌≤◌, ◌++◌, ◌∷◌, [], IsTrue, IsFalse, IfOk, OnOk, OnErr};
ghost use Rattle.mig_base.specs.FaultCounts.{Rose};
ghost use Rattle.mig_save.specs.Saves.{IsContentSettled};
ghost use Rattle.mig_save.specs.MemSaves.{SaveMoment, after_save_step, content_of, mem_state, mem_is_state};

use crate::save_calls::{Inode, SaveCalls, Target};
use std::alloc::{AllocError, Global};
use std::io::{self, ErrorKind};

/// What was done to the name and to the new file beside it.
#[derive(Clone, Copy)]
pub enum SaveStep {
    Made,
    Wrote { byte: u8 },
    Synced,
    Renamed,
    Removed,
    FolderSynced,
}

/// A file of one name in memory, which tells all, or a pipe, which is written in place and tells nothing. A write takes one byte, and one call may fail.
#[derive(Drop)]
pub struct MemSave {
    /// It is no pipe.
    told: bool,
    /// What stood under the name at first.
    first: Option<Vec<u8>>,
    steps: Vec<SaveStep>,
    /// How many calls were made.
    calls: u64,
    /// The number of the call that fails, counted from 1.
    failing: u64,
    failures: u64,
}

impl MemSave {
    /// A name under which these bytes stand, or no file, and the number of the call that fails, counted from 1.
    pub fn new(alloc: Global, first: Option<Vec<u8>>, failing: u64) -> Self
        ensures told { IsTrue (⟦<MemSave as SaveCalls>⟧.state result).told }
        ensures stands { (⟦<MemSave as SaveCalls>⟧.state result).stands ≡ content_of first }
        ensures settled { IsContentSettled (⟦<MemSave as SaveCalls>⟧.state result) }
    {
        MemSave {
            told: true,
            first,
            steps: Vec::new(alloc),
            calls: 0,
            failing,
            failures: 0,
        }
    }

    /// A pipe, and the number of the call that fails, counted from 1.
    pub fn pipe(alloc: Global, failing: u64) -> Self
        ensures untold { IsFalse (⟦<MemSave as SaveCalls>⟧.state result).told }
    {
        MemSave {
            told: false,
            first: None,
            steps: Vec::new(alloc),
            calls: 0,
            failing,
            failures: 0,
        }
    }

    /// What stands under the name. An error is want of memory.
    pub fn stands(&self, alloc: Global) -> Result<Option<Vec<u8>>, AllocError>
        ensures { IfOk result (λ found. content_of found ≡ (⟦<MemSave as SaveCalls>⟧.state self.now).stands) }
    {
        let mut stands = match &self.first {
            Some(bytes) => Some(bytes.clone()?),
            None => None,
        };
        let mut beside = Vec::new(alloc);
        for step in &self.steps {
            follow(alloc, step, &mut stands, &mut beside)?;
        }
        Ok(stands)
    }

    /// Begins a call, which may fail.
    fn enter(&mut self) -> io::Result<()>
        ensures told { self.new.told ≡ self.old.told }
        ensures first { self.new.first ≡ self.old.first }
        ensures steps { self.new.steps.items ≡ self.old.steps.items }
        ensures later { self.old.failures ≤ self.new.failures }
        ensures failed { OnErr result (Rose self.old.failures self.new.failures) }
    {
        self.calls = self.calls.saturating_add(1);
        if self.calls == self.failing {
            self.failures = self.failures.saturating_add(1);
            return Err(ErrorKind::Other.into());
        }
        Ok(())
    }

    /// Notes a step; an error where memory is refused.
    fn note(&mut self, step: SaveStep) -> io::Result<()>
        ensures told { self.new.told ≡ self.old.told }
        ensures first { self.new.first ≡ self.old.first }
        ensures done { OnOk result (self.new.steps.items ≡ self.old.steps.items ++ step ∷ []) }
        ensures nothing { OnErr result (self.new.steps.items ≡ self.old.steps.items) }
        ensures later { self.old.failures ≤ self.new.failures }
        ensures failed { OnErr result (Rose self.old.failures self.new.failures) }
    {
        if self.steps.push(step).is_err() {
            self.failures = self.failures.saturating_add(1);
            return Err(ErrorKind::OutOfMemory.into());
        }
        Ok(())
    }
}

/// What a step makes of what stands under the name, and of the new file. An error is want of memory.
fn follow(
    alloc: Global,
    step: &SaveStep,
    stands: &mut Option<Vec<u8>>,
    beside: &mut Vec<u8>,
) -> Result<(), AllocError>
    ensures stands { OnOk result ((m : SaveMoment) → content_of stands.old ≡ m.stands → beside.old.items ≡ m.beside → content_of stands.new ≡ (after_save_step m step.now).stands) }
    ensures beside { OnOk result ((m : SaveMoment) → beside.old.items ≡ m.beside → beside.new.items ≡ (after_save_step m step.now).beside) }
{
    match step {
        SaveStep::Made | SaveStep::Removed => *beside = Vec::new(alloc),
        SaveStep::Wrote { byte } => beside.push(*byte)?,
        SaveStep::Renamed => *stands = Some(beside.clone()?),
        SaveStep::Synced | SaveStep::FolderSynced => {}
    }
    Ok(())
}

impl SaveCalls for MemSave {
    ghost state = { λ m. mem_state m.told (content_of m.first) m.steps.items m.failures };

    ghost is_state = { λ m. mem_is_state m.told (content_of m.first) m.steps.items m.failures };

    fn look(&mut self) -> io::Result<Target> {
        self.enter()?;
        match self.first {
            _ if !self.told => Ok(Target::InPlace),
            Some(_) => Ok(Target::Plain(0o644)),
            None => Ok(Target::Missing),
        }
    }

    fn make(&mut self) -> io::Result<()> {
        self.enter()?;
        self.note(SaveStep::Made)
    }

    fn check_left(&mut self) -> io::Result<()> {
        self.enter()
    }

    fn remove(&mut self) -> io::Result<()> {
        self.enter()?;
        self.note(SaveStep::Removed)
    }

    fn set_mode(&mut self, _mode: u32) -> io::Result<()> {
        self.enter()
    }

    fn node(&mut self) -> io::Result<Option<Inode>> {
        self.enter()?;
        Ok(None)
    }

    fn write(&mut self, bytes: &[u8]) -> io::Result<usize> {
        self.enter()?;
        self.note(SaveStep::Wrote { byte: bytes[0] })?;
        Ok(1)
    }

    fn sync(&mut self) -> io::Result<()> {
        self.enter()?;
        self.note(SaveStep::Synced)
    }

    fn check_made(&mut self, _made: Option<Inode>) -> io::Result<()> {
        self.enter()
    }

    fn rename(&mut self) -> io::Result<()> {
        self.enter()?;
        self.note(SaveStep::Renamed)
    }

    fn sync_folder(&mut self) -> io::Result<()> {
        self.enter()?;
        self.note(SaveStep::FolderSynced)
    }

    fn save_in_place(&mut self, _bytes: &[u8]) -> io::Result<Option<Inode>> {
        self.enter()?;
        Ok(None)
    }
}
