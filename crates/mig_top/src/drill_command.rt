//! `drill`: tries each stop of a plan on stores of its own.
ghost use Rattle.std.specs.Prelude.{◌≡◌, ◌≤◌, [], IfOk, length};
ghost use Rattle.mig_base.specs.Readiness.{shifts_of};
ghost use Rattle.mig_drill.specs.Drills.{drill_text};
ghost use Rattle.mig_top.specs.Calls.{Untouched};
ghost use Rattle.mig_top.specs.Causes.{drills};
ghost use Rattle.mig_top.specs.Ends.{EndsOrStops, FolderEnds};
ghost use Rattle.mig_top.specs.Steps.{TakesFrom};
ghost use Rattle.mig_words.specs.Commands.{names_in};
ghost use Rattle.mig_words.specs.Words.{four_and};

use crate::loads::load_plan;
use mig_commands::small_job;
use mig_drill::{DrillFault, MAX_DRILL_SHIFTS, drill};
use mig_io::{Folder, Sink};
use mig_jobs::Job;
use mig_words::{CommandError, PlanFiles};
use std::alloc::Global;

/// The job of a plan that isn't too large for a drill.
fn load_small_job<F: Folder>(
    alloc: Global,
    folder: &mut F,
    files: PlanFiles<'_>,
) -> Result<Job, CommandError>
    ensures takes { TakesFrom (λ job. drill_text job.plan) (F.state folder.old) (F.state folder.new) (four_and (names_in files.entry) []) (drills (names_in files.entry)) result }
    ensures fits { IfOk result (λ job. length (shifts_of job.plan) ≤ MAX_DRILL_SHIFTS) }
    ensures same { (F.state folder.new).files ≡ (F.state folder.old).files }
    ensures later { (F.state folder.old).faults ≤ (F.state folder.new).faults }
{
    let bytes = load_plan(alloc, folder, files)?;
    small_job(alloc, bytes.input.files(), &bytes.plan)
}

/// `drill`, with its text, which is put once each stop was tried.
pub fn run_drill<F: Folder, K: Sink>(
    alloc: Global,
    folder: &mut F,
    out: &mut K,
    files: PlanFiles<'_>,
) -> Result<u8, CommandError>
    ensures { EndsOrStops (four_and (names_in files.entry) []) (FolderEnds (F.state folder.old) (F.state folder.new) (drills (names_in files.entry)) (λ o. Untouched (F.state folder.old) (F.state folder.new))) (K.state out.old) (K.state out.new) result }
{
    let job = load_small_job(alloc, folder, files)?;
    match drill(alloc, job.input(), &job, out) {
        Ok(_) => Ok(0),
        Err(DrillFault::Sink) => Ok(6),
        Err(DrillFault::Memory) => Err(CommandError::Memory),
    }
}
