//! How far a plan is carried out.
ghost use Rattle.std.specs.Prelude.{◌≡◌, ◌≢◌, ◌≤◌, ℕ, List, [], true, false, Some, Err, IfErr, IfOk, IfSome, IsOk, IsSome, length};
ghost use Rattle.std.specs.List.{prefix_len, range_with_len};
ghost use Rattle.mig_base.specs.declared.cells.Cell.TheVariants.{Gate, Head};
ghost use Rattle.mig_base.specs.Flights.{AreFlights};
ghost use Rattle.mig_base.specs.Images.{NoCell};
ghost use Rattle.mig_base.specs.Journals.{is_armed, is_marked};
ghost use Rattle.mig_base.specs.JobCells.{IsMark, Tells};
ghost use Rattle.mig_base.specs.Stores.{State, flights, ChangesOnly};
ghost use Rattle.mig_mover.specs.Erasures.{AreAsked, AreCompared};
ghost use Rattle.mig_mover.specs.Holdings.{IsKeptMarked, IsSeen, IsUnrefused};
ghost use Rattle.mig_mover.specs.Moves.{Lands};
ghost use Rattle.mig_store.specs.Grounds.{FailedOr};
ghost use Rattle.mig_mover.specs.Stands.{IsOtherFault, Stands, IsStandFault};
ghost use Rattle.mig_base.specs.Tasks.{Task};

use crate::entries::{check_plan, expect_marked, settle_and_look};
use crate::faults::MoveFault;
use mig_jobs::Job;
use mig_journal::Seen;
use mig_store::Store;

// Counts the marked rounds of the plan that the journal names, where it is the job's, and asks the store for each item that the plan shifts.
fn stand_running<S: Store>(job: &Job, store: &mut S, kept: &[u8; 32]) -> Result<u32, MoveFault>
    requires none { flights (S.state store.old) ≡ [] }
    ensures ours { IfOk result (λ k. kept.now ≡ job.now.digest) }
    ensures most { IfOk result (λ k. k ≤ length job.now.plan) }
    ensures asked { IfOk result (λ k. AreAsked S.asked job.now) }
    ensures compared { IfOk result (AreCompared S.compared job.now) }
    ensures count { IfOk result (λ k. Tells (IsMark (length job.now.plan)) (S.state store.old).reads → k ≡ prefix_len (is_marked (S.state store.old).reads) (range_with_len 1 (length job.now.plan))) }
    ensures change { ChangesOnly NoCell (S.state store.old) (S.state store.new) }
    ensures seen { IfOk result (λ k. S.refuses → IsKeptMarked job.now (S.state store.old).reads → IsSeen job.now (S.seen store.new) (S.state store.new).reads k) }
    ensures fault { IfErr result (IsOtherFault (S.refuses × (kept.now ≡ job.now.digest) × ¬ IsKeptMarked job.now (S.state store.old).reads) job.now kept.now (S.state store.old) (S.state store.new)) }
    ensures later { (S.state store.old).faults ≤ (S.state store.new).faults }
{
    check_plan(job, kept)?;
    Ok(expect_marked(job, store)?)
}

/// How many rounds of a plan that is being carried out, or was, are marked.
///
/// It syncs and then looks, asks the store for each item that the plan shifts, at its spot after these rounds, and writes
/// nothing. `NotStarted` comes where the gate isn't 1, `OtherPlan` where it is
/// and the head has another digest.
pub fn stand<S: Store>(job: &Job, store: &mut S) -> Result<u32, MoveFault>
    ensures stands { IfOk result (Stands job.now (S.state store.old) (S.state store.new)) }
    ensures asked { IfOk result (λ k. AreAsked S.asked job.now) }
    ensures compared { IfOk result (AreCompared S.compared job.now) }
    ensures lands { Lands (S.state store.old) (S.state store.new) }
    ensures seen { IfOk result (λ k. S.refuses → IsUnrefused job.now (S.state store.old) → IsSeen job.now (S.seen store.new) (S.state store.new).reads k) }
    ensures fault { IfErr result (IsStandFault (S.refuses × ¬ IsUnrefused job.now (S.state store.old)) job.now (S.state store.old) (S.state store.new)) }
    // Where the store doesn't fail, the gate and the head say what is answered.
    ensures not_started { AreFlights (flights (S.state store.old)) → ¬ FailedOr (S.refuses × ¬ IsUnrefused job.now (S.state store.old)) (S.state store.old) (S.state store.new) → IsSome ((S.state store.old).reads Gate) → is_armed (S.state store.old).reads ≡ false → result ≡ Err MoveFault.NotStarted }
    ensures other { AreFlights (flights (S.state store.old)) → ¬ FailedOr (S.refuses × ¬ IsUnrefused job.now (S.state store.old)) (S.state store.old) (S.state store.new) → is_armed (S.state store.old).reads ≡ true → (kept : List ℕ) → (S.state store.old).reads Head ≡ Some kept → kept ≢ job.now.digest → result ≡ Err (MoveFault.OtherPlan kept job.now.digest) }
    ensures running { AreFlights (flights (S.state store.old)) → ¬ FailedOr (S.refuses × ¬ IsUnrefused job.now (S.state store.old)) (S.state store.old) (S.state store.new) → is_armed (S.state store.old).reads ≡ true → (S.state store.old).reads Head ≡ Some job.now.digest → IsOk result }
    ensures later { (S.state store.old).faults ≤ (S.state store.new).faults }
{
    match settle_and_look(store)? {
        Seen::Idle => Err(MoveFault::NotStarted),
        Seen::Running { digest } => stand_running(job, store, &digest),
    }
}
