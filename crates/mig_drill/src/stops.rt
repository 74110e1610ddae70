//! A plan that is stopped after some of its writes, and resumed.
ghost use Rattle.std.specs.Prelude.{◌≡◌, ◌≤◌, IsTrue, length};
ghost use Rattle.mig_base.specs.Arrivals.{IsReached};
ghost use Rattle.mig_base.specs.Journals.{is_one, count_of};
ghost use Rattle.mig_base.specs.Safety.{Contents};
ghost use Rattle.mig_base.specs.Stores.{IsSettled};
ghost use Rattle.mig_drill.specs.Stops.{HasResumed, LeavesSound};
ghost use Rattle.mig_drill.specs.Stores.{TellsJob};
ghost use Rattle.mig_store.specs.Memories.{state_of};

use mig_base::Cell;
use mig_jobs::Job;
use mig_lanes::{resume_lanes, start_lanes};
use mig_store::{MemStore, Pick};

/// What a stop left.
#[derive(Clone, Copy, Debug, PartialEq, Eq)]
pub struct Stop {
    /// How many rounds counted as carried out after the crash.
    pub marks: u32,
    /// Whether the plan was then resumed to its end.
    pub reached: bool,
}

// Whether a cell holds the one byte 1.
fn holds_one(store: &MemStore, cell: &Cell) -> bool
    ensures { result ≡ is_one ((state_of store.now).reads cell.now) }
{
    match store.cell(cell) {
        Some([byte]) => *byte == 1,
        _ => false,
    }
}

// How many of so many rounds are carried out: where the gate is 1, the marks from the first on that are 1.
fn count_rounds(store: &MemStore, rounds: u32) -> u32
    ensures { result ≡ count_of rounds (state_of store.now).reads }
{
    if !holds_one(store, &Cell::Gate) {
        return 0;
    }
    for n in 0..rounds {
        if !holds_one(store, &Cell::Mark { n: n + 1 }) {
            return n;
        }
    }
    rounds
}

/// Starts a plan, stops it after so many writes, lets the store crash, and resumes the plan. It answers what the stop left, and
/// the store as the resumption left it.
///
/// Where each image that a crash of the given store may leave is safe and clean, so is each that a crash of the answered store
/// may leave; and where the plan was resumed to its end, the answered store shows its target, with nothing unsettled. Its events
/// are then those of the rounds that weren't marked.
pub fn stop_at(job: &Job, mut store: MemStore, writes: u32, pick: Pick) -> (Stop, MemStore)
    ensures keeps { (contents : Contents) → LeavesSound job.now contents (state_of store) → LeavesSound job.now contents (state_of result.1) }
    ensures reached { IsTrue result.0.reached → (contents : Contents) → LeavesSound job.now contents (state_of store) → IsReached job.now.input job.now.plan job.now.digest contents (state_of result.1).reads }
    ensures settled { IsTrue result.0.reached → IsSettled (state_of result.1) }
    ensures told { TellsJob job.now (state_of store) → TellsJob job.now (state_of result.1) }
    ensures resumed { IsTrue result.0.reached → TellsJob job.now (state_of store) → HasResumed job.now result.0.marks (state_of result.1) }
    ensures marks { result.0.marks ≤ length job.now.plan }
{
    store.fuse(u64::from(writes));
    let _ = start_lanes(job, &mut store);
    let mut left = store.crash(pick);
    let marks = count_rounds(&left, job.rounds());
    let reached = resume_lanes(job, &mut left).is_ok();
    (Stop { marks, reached }, left)
}
