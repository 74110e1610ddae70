//! Makes the job of a plan that runs, and of one that isn't too large for a drill.
ghost use Rattle.std.specs.Prelude.{◌≤◌, IfOk, length};
ghost use Rattle.mig_base.specs.Readiness.{shifts_of};
ghost use Rattle.mig_commands.specs.Bodies.{bodies_in, with_plan};
ghost use Rattle.mig_commands.specs.Commands.{drills_bytes, fits_drill};
ghost use Rattle.mig_commands.specs.Reads.{reads_task};
ghost use Rattle.mig_commands.specs.Steps.{Takes, TakesAs};
ghost use Rattle.mig_drill.specs.Drills.{drill_text};

use crate::files::InputFiles;
use crate::judging::check_runs;
use crate::reads::{read_files, read_plan_text};
use mig_base::{MAX_FILE_BYTES, Plan};
use mig_drill::MAX_DRILL_SHIFTS;
use mig_jobs::{Job, count_shifts, prepare};
use mig_words::{CommandError, InputRefusal, Reader};
use std::alloc::Global;

/// The job of the plan that these bytes spell.
pub fn job_of(
    alloc: Global,
    reader: Reader,
    files: InputFiles<'_>,
    plan: &[u8],
) -> Result<Job, CommandError>
    ensures takes { Takes (reads_task reader (with_plan (bodies_in files.entry) plan.now)) result }
    ensures few { IfOk result (λ job. length (shifts_of job.plan) ≤ MAX_FILE_BYTES) }
{
    let input = read_files(alloc, reader, files)?;
    let rounds = read_plan_text(alloc, &input, plan)?;
    check_runs(alloc, &input, &rounds)?;
    Ok(prepare(alloc, &input, &rounds, plan)?)
}

/// Refuses a plan that is too large for a drill.
fn check_size(plan: &Plan) -> Result<(), CommandError>
    requires { length (shifts_of plan.now) ≤ MAX_FILE_BYTES }
    ensures { Takes (fits_drill plan.now) result }
{
    let shifts = count_shifts(plan);
    if shifts > MAX_DRILL_SHIFTS {
        return Err(CommandError::Found(InputRefusal::TooLarge { shifts }));
    }
    Ok(())
}

/// The job of the plan that these bytes spell, where it isn't too large for a drill.
pub fn small_job(alloc: Global, files: InputFiles<'_>, plan: &[u8]) -> Result<Job, CommandError>
    ensures takes { TakesAs (λ job. drill_text job.plan) (drills_bytes (with_plan (bodies_in files.entry) plan.now)) result }
    ensures fits { IfOk result (λ job. length (shifts_of job.plan) ≤ MAX_DRILL_SHIFTS) }
{
    let job = job_of(alloc, Reader::Roomy, files, plan)?;
    check_size(job.plan())?;
    Ok(job)
}
