//! The copies of one round, in flight together.
ghost use Rattle.std.specs.Prelude.{◌≡◌, ◌≤◌, ℕ, suc, List, [], All, IsSome, OnOk, length, take, map};
ghost use Rattle.mig_base.specs.declared.cells.Event.{Event};
ghost use Rattle.mig_base.specs.declared.cells.Flight.{Flight};
ghost use Rattle.mig_base.specs.Images.{IsCopy, NoCell};
ghost use Rattle.mig_base.specs.Flights.{began, IsTargetOf, AreFlights};
ghost use Rattle.mig_base.specs.RoundEvents.{AreRoundEvents};
ghost use Rattle.mig_base.specs.Stores.{State, flights, Changes, Ends, IsSettled, HasCause};
ghost use Rattle.mig_base.specs.Tasks.{Task};
ghost use Rattle.mig_mover.specs.Erasures.{AreAsked};
ghost use Rattle.mig_mover.specs.Holdings.{IsSeen};
ghost use Rattle.mig_store.specs.Grounds.{HasGround, Remembers};
ghost use Rattle.mig_lanes.specs.LaneSteps.{copies_of, AreMoved, BeginsRound, HaveLanded};

use mig_jobs::Job;
use mig_store::{Store, StoreFailed};

// Begins each copy of a round, in the plan's order.
fn begin_copies<S: Store>(job: &Job, store: &mut S, round: u32) -> Result<(), StoreFailed>
    requires from { 1 ≤ round }
    requires to { round ≤ length job.now.plan }
    requires asked { AreAsked S.asked job.now }
    requires none { flights (S.state store.old) ≡ [] }
    ensures begun { OnOk result (Changes (IsTargetOf (copies_of job.now round)) (IsTargetOf (copies_of job.now round)) (map began (copies_of job.now round)) (S.state store.old) (S.state store.new)) }
    ensures landed { OnOk result (HaveLanded (copies_of job.now round) (S.state store.old).reads (S.state store.new)) }
    ensures change { (n : ℕ) × Changes (IsTargetOf (copies_of job.now round)) (IsTargetOf (copies_of job.now round)) (map began (take n (copies_of job.now round))) (S.state store.old) (S.state store.new) }
    ensures seen { OnOk result ((k : ℕ) → round ≡ suc k → S.refuses → IsSeen job.now (S.seen store.old) (S.state store.old).reads k → IsSeen job.now (S.seen store.new) (S.state store.new).reads k × AreMoved job.now round (S.seen store.new)) }
    ensures cause { HasGround S.refuses ((k : ℕ) × (round ≡ suc k) × ¬ IsSeen job.now (S.seen store.old) (S.state store.old).reads k) (S.state store.old) (S.state store.new) result }
{
    for place in 0..job.round_len(round) {
        let (from, to) = job.copy(round, place);
        store.begin(&from, &to)?;
    }
    Ok(())
}

// Waits for so many copies.
fn end_copies<S: Store>(store: &mut S, count: u32) -> Result<(), StoreFailed>
    requires { AreFlights (flights (S.state store.old)) }
    ensures ends { (these : List Flight) × Ends these (S.state store.old) (S.state store.new) }
    ensures seen { Remembers NoCell (S.seen store.old) (S.seen store.new) }
    ensures cause { HasCause (S.state store.old) (S.state store.new) result }
{
    for _ in 0..count {
        match store.ended()? {
            Some(_) => {}
            None => return Ok(()),
        }
    }
    Ok(())
}

// Ends what is still in flight, and settles the copies.
fn settle_copies<S: Store>(store: &mut S) -> Result<(), StoreFailed>
    ensures ends { (these : List Flight) × Ends these (S.state store.old) (S.state store.new) }
    ensures settled { OnOk result (IsSettled (S.state store.new)) }
    ensures landed { OnOk result (flights (S.state store.new) ≡ []) }
    ensures seen { Remembers NoCell (S.seen store.old) (S.seen store.new) }
    ensures cause { HasCause (S.state store.old) (S.state store.new) result }
{
    store.sync()
}

/// Makes the copies of a round, all in flight together, and syncs. Rounds count from 1.
pub fn run_copies<S: Store>(job: &Job, store: &mut S, round: u32) -> Result<(), StoreFailed>
    requires from { 1 ≤ round }
    requires to { round ≤ length job.now.plan }
    requires asked { AreAsked S.asked job.now }
    requires none { flights (S.state store.old) ≡ [] }
    ensures copied { OnOk result (All (λ c. IsCopy ((S.state store.old).reads c.from) ((S.state store.new).reads c.to)) (copies_of job.now round)) }
    ensures settled { OnOk result (IsSettled (S.state store.new)) }
    ensures landed { OnOk result (flights (S.state store.new) ≡ []) }
    ensures round { OnOk result (IsSome (S.state store.old).events → (added : List Event) × AreRoundEvents (copies_of job.now round) added × Changes (IsTargetOf (copies_of job.now round)) (IsTargetOf (copies_of job.now round)) added (S.state store.old) (S.state store.new)) }
    ensures part { IsSome (S.state store.old).events → (added : List Event) × BeginsRound (copies_of job.now round) added × Changes (IsTargetOf (copies_of job.now round)) (IsTargetOf (copies_of job.now round)) added (S.state store.old) (S.state store.new) }
    ensures change { (added : List Event) × Changes (IsTargetOf (copies_of job.now round)) (IsTargetOf (copies_of job.now round)) added (S.state store.old) (S.state store.new) }
    // Where the items were seen, nothing is refused of what comes after the round's copies.
    ensures seen { OnOk result ((k : ℕ) → round ≡ suc k → S.refuses → IsSeen job.now (S.seen store.old) (S.state store.old).reads k → IsSeen job.now (S.seen store.new) (S.state store.new).reads round) }
    ensures cause { HasGround S.refuses ((k : ℕ) × (round ≡ suc k) × ¬ IsSeen job.now (S.seen store.old) (S.state store.old).reads k) (S.state store.old) (S.state store.new) result }
{
    begin_copies(job, store, round)?;
    end_copies(store, job.round_len(round))?;
    settle_copies(store)
}
