//! `move` and `resume`: carry out a plan, or what is left of it.
ghost use Rattle.mig_top.specs.Calls.{call, world};
ghost use Rattle.mig_top.specs.Ends.{FormFinishes};
ghost use Rattle.mig_words.specs.Commands.{task_names};
ghost use Rattle.mig_words.specs.Words.{Move, Resume};

use crate::tasks::load_job;
use mig_io::{Folder, Sink};
use mig_lanes::{resume_lanes, start_lanes};
use mig_store::Store;
use mig_words::{CommandError, TaskFiles, fault_ending, show_rounds};
use std::alloc::Global;

/// `move`, with its text. Once the job is made it takes no memory.
pub fn run_move<F: Folder, K: Sink, S: Store>(
    alloc: Global,
    folder: &mut F,
    out: &mut K,
    store: &mut S,
    task: TaskFiles<'_>,
) -> Result<u8, CommandError>
    ensures { FormFinishes (call S.refuses (world (F.state folder.old) (K.state out.old) (S.state store.old)) (world (F.state folder.new) (K.state out.new) (S.state store.new))) (Move (task_names task.entry)) result }
{
    let job = load_job(alloc, folder, task)?;
    match start_lanes(&job, store) {
        Ok(()) => Ok(show_rounds(out, job.rounds(), 0)),
        Err(fault) => Err(fault_ending(job.input(), fault)),
    }
}

/// `resume`, with its text. Once the job is made it takes no memory.
pub fn run_resume<F: Folder, K: Sink, S: Store>(
    alloc: Global,
    folder: &mut F,
    out: &mut K,
    store: &mut S,
    task: TaskFiles<'_>,
) -> Result<u8, CommandError>
    ensures { FormFinishes (call S.refuses (world (F.state folder.old) (K.state out.old) (S.state store.old)) (world (F.state folder.new) (K.state out.new) (S.state store.new))) (Resume (task_names task.entry)) result }
{
    let job = load_job(alloc, folder, task)?;
    match resume_lanes(&job, store) {
        Ok(found) => Ok(show_rounds(out, job.rounds(), found)),
        Err(fault) => Err(fault_ending(job.input(), fault)),
    }
}
