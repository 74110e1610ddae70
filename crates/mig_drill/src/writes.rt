//! The writes by which a plan is carried out.
ghost use Rattle.std.specs.Prelude.{◌≡◌, ◌++◌, IfOk, OnOk, replicate};
ghost use Rattle.mig_drill.specs.Writes.{round_writes, sets_mark, writes_of};

use mig_jobs::Job;
use std::alloc::{AllocError, Global};

/// A write of an undisturbed start.
#[derive(Clone, Copy, Debug, PartialEq, Eq)]
pub enum Write {
    /// 0 to a mark.
    ClearMark,
    /// The plan's digest to the head.
    Head,
    /// 1 to the gate.
    Gate,
    /// An item to a target.
    Copy,
    /// 1 to a mark.
    SetMark,
    /// Zeros to a source.
    Erase,
}

impl Write {
    /// Whether the write sets a mark.
    pub fn sets_mark(self) -> bool
        ensures { result ≡ sets_mark self }
    {
        match self {
            Write::SetMark => true,
            _ => false,
        }
    }
}

// Adds so many of the same write.
fn push_many(writes: &mut Vec<Write>, write: Write, count: u32) -> Result<(), AllocError>
    ensures { OnOk result (writes.new.items ≡ writes.old.items ++ replicate count write) }
{
    for _ in 0..count {
        writes.push(write)?;
    }
    Ok(())
}

// Adds the writes of a round with so many shifts.
fn push_round(writes: &mut Vec<Write>, shifts: u32) -> Result<(), AllocError>
    ensures { OnOk result (writes.new.items ≡ writes.old.items ++ round_writes shifts) }
{
    push_many(writes, Write::Copy, shifts)?;
    writes.push(Write::SetMark)?;
    push_many(writes, Write::Erase, shifts)
}

/// The writes of an undisturbed start, in order. An error is want of memory.
pub fn list_writes(alloc: Global, job: &Job) -> Result<Vec<Write>, AllocError>
    ensures { IfOk result (λ writes. writes.items ≡ writes_of job.now.plan) }
{
    let mut writes = Vec::new(alloc);
    push_many(&mut writes, Write::ClearMark, job.rounds())?;
    writes.push(Write::Head)?;
    writes.push(Write::Gate)?;
    for n in 0..job.rounds() {
        push_round(&mut writes, job.round_len(n + 1))?;
    }
    Ok(writes)
}
