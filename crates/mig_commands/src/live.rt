//! `live`: reads a plan that runs, and a script for it.
ghost use Rattle.std.specs.Prelude.{All, IfOk};
ghost use Rattle.mig_commands.specs.Bodies.{bodies_in, scripted_read, with_plan};
ghost use Rattle.mig_commands.specs.Reads.{reads_script, reads_scripted};
ghost use Rattle.mig_commands.specs.Steps.{Takes, TakesAs};
ghost use Rattle.mig_live.specs.Orders.{IsOrder};

use crate::files::InputFiles;
use crate::judging::check_runs;
use crate::reads::{read_plan_text, read_roomy};
use mig_base::Input;
use mig_jobs::{Job, prepare};
use mig_live::{Script, ScriptError, read_script};
use mig_words::{CommandError, InputRefusal, TextFile};
use std::alloc::Global;

/// The job of a plan, and a script for it.
#[derive(Drop)]
pub struct ScriptedJob {
    pub job: Job,
    pub script: Script,
}

/// The script whose spelling the bytes are.
fn read_script_text(alloc: Global, input: &Input, bytes: &[u8]) -> Result<Script, CommandError>
    ensures takes { Takes (reads_script bytes.now input.now) result }
    ensures fits { IfOk result (All (IsOrder input.now)) }
{
    match read_script(alloc, input, bytes) {
        Ok(script) => Ok(script),
        Err(ScriptError::Line { number }) => Err(CommandError::Found(InputRefusal::NotSpelled {
            text: TextFile::Script,
            line: number,
        })),
        Err(ScriptError::Memory) => Err(CommandError::Memory),
    }
}

/// What the bytes of the four files of a plan stand for, and those of a script. The script is read before it is asked
/// whether the plan runs.
pub fn scripted_job(
    alloc: Global,
    files: InputFiles<'_>,
    plan: &[u8],
    script: &[u8],
) -> Result<ScriptedJob, CommandError>
    ensures takes { TakesAs scripted_read (reads_scripted (with_plan (bodies_in files.entry) plan.now) script.now) result }
    ensures fits { IfOk result (λ read. All (IsOrder read.job.input) read.script) }
{
    let input = read_roomy(alloc, files)?;
    let rounds = read_plan_text(alloc, &input, plan)?;
    let script = read_script_text(alloc, &input, script)?;
    check_runs(alloc, &input, &rounds)?;
    let job = prepare(alloc, &input, &rounds, plan)?;
    Ok(ScriptedJob { job, script })
}
