//! Drills: each stop of a plan is tried.
ghost use Rattle.std.specs.Prelude.{◌≡◌, ◌+◌, ◌*◌, ◌<◌, ◌≤◌, ◌^◌, IfErr, IfOk, IsTrue, OnErr, OnOk, length};
ghost use Rattle.mig_base.specs.Readiness.{shifts_of};
ghost use Rattle.mig_base.specs.Stores.{IsSettled};
ghost use Rattle.mig_io.specs.Held.{Extends, ExtendsInPart};
ghost use Rattle.mig_store.specs.Memories.{state_of};
ghost use Rattle.mig_drill.specs.declared.faults.DrillFault.{DrillFault};
ghost use Rattle.mig_drill.specs.Drills.{drill_text, IsDrillFault};
ghost use Rattle.mig_drill.specs.Stops.{HasResumed};
ghost use Rattle.mig_drill.specs.Stores.{AreJobCells, TellsJob};

use crate::faults::DrillFault;
use crate::limits::MAX_DRILL_SHIFTS;
use crate::stops::{Stop, stop_at};
use crate::stores::{filled, job_cells, store_of};
use crate::texts::put_drill;
use crate::writes::{Write, list_writes};
use indexmap::IndexSet;
use mig_base::{Cell, Input};
use mig_io::Sink;
use mig_jobs::Job;
use mig_store::{MemStore, Pick};
use std::alloc::Global;

// Where a plan is stopped: after so many writes, with this pick of what the crash leaves. By the plan so many marks are set then.
#[derive(Clone, Copy)]
struct Trial {
    writes: u32,
    pick: Pick,
    marks: u32,
}

// Whether so many marks were set at a stop, and the plan was then resumed to its end.
fn ended_so(stop: Stop, marks: u32) -> bool
    ensures reached { IsTrue result → IsTrue stop.reached }
    ensures marks { IsTrue result → stop.marks ≡ marks }
{
    stop.reached && stop.marks == marks
}

// Fills a store of the job's cells, stops the plan there, and counts the run. Where the store isn't filled, the crash leaves other marks, or
// the plan isn't resumed to its end, the store had too little room for its record: want of memory.
fn try_stop(
    job: &Job,
    store: MemStore,
    cells: &IndexSet<Cell>,
    trial: Trial,
    runs: &mut u32,
) -> Result<MemStore, DrillFault>
    requires cells { AreJobCells job.now cells.now.keys }
    requires told { TellsJob job.now (state_of store) }
    requires few { runs.old < 2 ^ 31 }
    ensures counted { OnOk result (runs.new ≡ runs.old + 1) }
    ensures told { IfOk result (λ left. TellsJob job.now (state_of left)) }
    ensures resumed { IfOk result (λ left. HasResumed job.now trial.marks (state_of left)) }
    ensures ended { IfOk result (λ left. IsSettled (state_of left)) }
    ensures fault { IfErr result (λ why. why ≡ DrillFault.Memory) }
{
    let Ok(full) = filled(job, store, cells) else {
        return Err(DrillFault::Memory);
    };
    let (stop, left) = stop_at(job, full, trial.writes, trial.pick);
    if !ended_so(stop, trial.marks) {
        return Err(DrillFault::Memory);
    }
    *runs += 1;
    Ok(left)
}

// Stops the plan after so many writes, once for each pick. The marks are those that are set without the write that is cut off, and with it.
fn try_picks(
    job: &Job,
    store: MemStore,
    cells: &IndexSet<Cell>,
    writes: u32,
    before: u32,
    after: u32,
    runs: &mut u32,
) -> Result<MemStore, DrillFault>
    requires cells { AreJobCells job.now cells.now.keys }
    requires told { TellsJob job.now (state_of store) }
    requires few { runs.old < 2 ^ 30 }
    ensures counted { OnOk result (runs.new ≡ runs.old + 4) }
    ensures told { IfOk result (λ left. TellsJob job.now (state_of left)) }
    ensures fault { IfErr result (λ why. why ≡ DrillFault.Memory) }
{
    let old = Trial {
        writes,
        pick: Pick::Old,
        marks: before,
    };
    let store = try_stop(job, store, cells, old, runs)?;
    let new = Trial {
        writes,
        pick: Pick::New,
        marks: after,
    };
    let store = try_stop(job, store, cells, new, runs)?;
    let half = Trial {
        writes,
        pick: Pick::Half,
        marks: before,
    };
    let store = try_stop(job, store, cells, half, runs)?;
    let ones = Trial {
        writes,
        pick: Pick::Ones,
        marks: after,
    };
    try_stop(job, store, cells, ones, runs)
}

// Stops the plan before each of these writes, and answers how many runs it made. An error is want of memory.
fn try_stops(alloc: Global, job: &Job, writes: &[Write]) -> Result<u32, DrillFault>
    requires few { length (shifts_of job.now.plan) ≤ MAX_DRILL_SHIFTS }
    requires short { length writes.now < 2 ^ 20 }
    ensures runs { IfOk result (λ runs. runs ≡ 4 * length writes.now) }
    ensures fault { IfErr result (λ why. why ≡ DrillFault.Memory) }
{
    let cells = job_cells(alloc, job)?;
    let mut store = store_of(alloc, job, &cells)?;
    let mut runs = 0;
    let mut marks = 0;
    for n in 0..writes.len() {
        let after = marks + u32::from(writes[n].sets_mark());
        store = try_picks(job, store, &cells, n as u32, marks, after, &mut runs)?;
        marks = after;
    }
    Ok(runs)
}

/// Tries each stop of a plan, on a store of its own that is filled for each: after each number of writes short of all of them,
/// with each pick of what the crash leaves. Then it puts the number of writes, for each stop the marks that are set, and the
/// number of runs, each of which was resumed to the plan's end, and answers that number.
///
/// # Errors
///
/// `Memory` is want of memory, which is also answered where a run left other marks or wasn't resumed to the end; nothing was
/// put. `Sink` is a fault of the sink.
pub fn drill<K: Sink>(
    alloc: Global,
    input: &Input,
    job: &Job,
    out: &mut K,
) -> Result<u32, DrillFault>
    requires of { job.now.input ≡ input.now }
    requires few { length (shifts_of job.now.plan) ≤ MAX_DRILL_SHIFTS }
    ensures answer { IfOk result (λ stops. stops ≡ 4 * (2 * length job.now.plan + 2 + 2 * length (shifts_of job.now.plan))) }
    ensures text { OnOk result (Extends (drill_text job.now.plan) (K.state out.old) (K.state out.new)) }
    ensures in_part { OnErr result (ExtendsInPart (drill_text job.now.plan) (K.state out.old) (K.state out.new)) }
    ensures fault { IfErr result (IsDrillFault (K.state out.old) (K.state out.new)) }
    ensures later { (K.state out.old).faults ≤ (K.state out.new).faults }
{
    job.keeps_rules();
    let writes = list_writes(alloc, job)?;
    let runs = try_stops(alloc, job, &writes)?;
    put_drill(out, &writes, runs)?;
    Ok(runs)
}
