//! Rounds, one after the other.
ghost use Rattle.std.specs.Prelude.{◌≡◌, ◌+◌, ◌<◌, ◌≤◌, Bool, ℕ, List, [], OnOk, length};
ghost use Rattle.mig_base.specs.JobCells.{IsWorkCell};
ghost use Rattle.mig_base.specs.RoundEvents.{AreRoundEvents, AreRounds, Adds};
ghost use Rattle.mig_base.specs.RoundStates.{HasDone};
ghost use Rattle.mig_base.specs.Safety.{Contents, IsSound};
ghost use Rattle.mig_base.specs.Stores.{State, flights, Changes, ChangesOnly, LeavesOnly, IsSettled};
ghost use Rattle.mig_base.specs.declared.cells.Event.{Event};
ghost use Rattle.mig_base.specs.Tasks.{Task};
ghost use Rattle.mig_mover.specs.Erasures.{AreAsked};
ghost use Rattle.mig_mover.specs.Holdings.{IsSeen};
ghost use Rattle.mig_store.specs.Grounds.{HasGround};
ghost use Rattle.mig_lanes.specs.LaneSteps.{copies_of, later_rounds, BeginsRound, BeginsRounds, HasCopied};

use crate::copies::run_copies;
use mig_jobs::Job;
use mig_journal::mark;
use mig_mover::erase_sources;
use mig_store::{Store, StoreFailed};

// Sets the mark of the round after the first k, whose copies are settled, and then erases what the round left.
fn close_round<S: Store>(job: &Job, store: &mut S, k: u32) -> Result<(), StoreFailed>
    requires more { k < length job.now.plan }
    requires asked { AreAsked S.asked job.now }
    requires none { flights (S.state store.old) ≡ [] }
    ensures any_moment { (asked : Bool) (contents : Contents) → HasCopied asked job.now contents (S.state store.old) k →
        LeavesOnly (IsSound asked job.now.input job.now.plan job.now.digest contents) (S.state store.old) (S.state store.new) }
    ensures done { OnOk result ((asked : Bool) (contents : Contents) → HasCopied asked job.now contents (S.state store.old) k →
        HasDone asked job.now.input job.now.plan job.now.digest contents (S.state store.new) (k + 1)) }
    ensures change { ChangesOnly (IsWorkCell job.now.input job.now.plan) (S.state store.old) (S.state store.new) }
    ensures seen { OnOk result (IsSeen job.now (S.seen store.old) (S.state store.old).reads (k + 1) → IsSeen job.now (S.seen store.new) (S.state store.new).reads (k + 1)) }
    ensures cause { HasGround S.refuses (¬ IsSeen job.now (S.seen store.old) (S.state store.old).reads (k + 1)) (S.state store.old) (S.state store.new) result }
{
    job.keeps_rules();
    mark(store, k + 1)?;
    erase_sources(job, store, k + 1)
}

// Carries out the round after the first k.
fn carry_out<S: Store>(job: &Job, store: &mut S, k: u32) -> Result<(), StoreFailed>
    requires more { k < length job.now.plan }
    requires asked { AreAsked S.asked job.now }
    requires none { flights (S.state store.old) ≡ [] }
    ensures any_moment { (asked : Bool) (contents : Contents) → HasDone asked job.now.input job.now.plan job.now.digest contents (S.state store.old) k →
        LeavesOnly (IsSound asked job.now.input job.now.plan job.now.digest contents) (S.state store.old) (S.state store.new) }
    ensures done { OnOk result ((asked : Bool) (contents : Contents) → HasDone asked job.now.input job.now.plan job.now.digest contents (S.state store.old) k →
        HasDone asked job.now.input job.now.plan job.now.digest contents (S.state store.new) (k + 1)) }
    ensures landed { OnOk result (flights (S.state store.new) ≡ []) }
    // All copies begin before one is waited for, and each ends once.
    ensures round { OnOk result (Adds (AreRoundEvents (copies_of job.now (k + 1))) (S.state store.old) (S.state store.new)) }
    ensures part { Adds (BeginsRound (copies_of job.now (k + 1))) (S.state store.old) (S.state store.new) }
    ensures change { (added : List Event) × Changes (IsWorkCell job.now.input job.now.plan) (IsWorkCell job.now.input job.now.plan) added (S.state store.old) (S.state store.new) }
    ensures seen { OnOk result (S.refuses → IsSeen job.now (S.seen store.old) (S.state store.old).reads k → IsSeen job.now (S.seen store.new) (S.state store.new).reads (k + 1)) }
    ensures cause { HasGround S.refuses (¬ IsSeen job.now (S.seen store.old) (S.state store.old).reads k) (S.state store.old) (S.state store.new) result }
{
    job.keeps_rules();
    run_copies(job, store, k + 1)?;
    close_round(job, store, k)
}

/// Carries out the rounds after the first k, and syncs.
pub fn carry_on<S: Store>(job: &Job, store: &mut S, k: u32) -> Result<(), StoreFailed>
    requires most { k ≤ length job.now.plan }
    requires asked { AreAsked S.asked job.now }
    requires none { flights (S.state store.old) ≡ [] }
    ensures any_moment { (asked : Bool) (contents : Contents) → HasDone asked job.now.input job.now.plan job.now.digest contents (S.state store.old) k →
        LeavesOnly (IsSound asked job.now.input job.now.plan job.now.digest contents) (S.state store.old) (S.state store.new) }
    ensures done { OnOk result ((asked : Bool) (contents : Contents) → HasDone asked job.now.input job.now.plan job.now.digest contents (S.state store.old) k →
        HasDone asked job.now.input job.now.plan job.now.digest contents (S.state store.new) (length job.now.plan)) }
    ensures settled { OnOk result (IsSettled (S.state store.new)) }
    ensures landed { OnOk result (flights (S.state store.new) ≡ []) }
    ensures rounds { OnOk result (Adds (AreRounds (later_rounds job.now k)) (S.state store.old) (S.state store.new)) }
    ensures part { Adds (BeginsRounds (later_rounds job.now k)) (S.state store.old) (S.state store.new) }
    ensures change { (added : List Event) × Changes (IsWorkCell job.now.input job.now.plan) (IsWorkCell job.now.input job.now.plan) added (S.state store.old) (S.state store.new) }
    ensures cause { HasGround S.refuses (¬ IsSeen job.now (S.seen store.old) (S.state store.old).reads k) (S.state store.old) (S.state store.new) result }
{
    for done in k..job.rounds() {
        carry_out(job, store, done)?;
    }
    store.sync()
}
