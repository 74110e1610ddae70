//! The steps of a round, one at a time.
ghost use Rattle.std.specs.Prelude.{◌≡◌, ◌≢◌, ◌⊎◌, ◌+◌, ◌<◌, ◌≤◌, ◌∷◌, Bool, ℕ, suc, [], IsTrue, OnOk, drop, length, take};
ghost use Rattle.mig_base.specs.declared.limits.TheConstants.{MAX_FILE_BYTES};
ghost use Rattle.mig_base.specs.Cells.{is_slot};
ghost use Rattle.mig_base.specs.Flights.{began, ended};
ghost use Rattle.mig_base.specs.Images.{IsCopy};
ghost use Rattle.mig_base.specs.Layouts.{round_at};
ghost use Rattle.mig_base.specs.Safety.{Contents, IsSound};
ghost use Rattle.mig_base.specs.Stores.{State, flights, Changes, LeavesOnly, HasCause};
ghost use Rattle.mig_base.specs.Tasks.{Task};
ghost use Rattle.mig_mover.specs.Erasures.{AreAsked};
ghost use Rattle.mig_live.specs.Actions.{MakesFirst, actions_after, actions_since};
ghost use Rattle.mig_mover.specs.Holdings.{IsSeen};
ghost use Rattle.mig_store.specs.Grounds.{HasGround, IsSeenAtBoth, IsUncopiable, Remembers};
ghost use Rattle.mig_live.specs.Sessions.{IsSeenAtStep};
ghost use Rattle.mig_live.specs.Underways.{IsUnderway, IsAtStep, round_size, steps_in};

use mig_base::Cell;
use mig_jobs::Job;
use mig_journal::mark;
use mig_mover::erase;
use mig_store::{Store, StoreFailed};

// Copies a slot to another, and waits for the copy.
fn copy_slot<S: Store>(store: &mut S, from: &Cell, to: &Cell) -> Result<(), StoreFailed>
    requires slots { IsTrue (is_slot from.now) × IsTrue (is_slot to.now) }
    requires apart { from.now ≢ to.now }
    requires asked { S.asked to.now }
    requires none { flights (S.state store.old) ≡ [] }
    ensures copied { OnOk result (IsCopy ((S.state store.old).reads from.now) ((S.state store.new).reads to.now)) }
    ensures landed { OnOk result (flights (S.state store.new) ≡ []) }
    ensures made { OnOk result (Changes (λ c. c ≡ to.now) (λ c. c ≡ to.now) (began (record { from = from.now; to = to.now }) ∷ ended (record { from = from.now; to = to.now }) ∷ []) (S.state store.old) (S.state store.new)) }
    ensures part { (n : ℕ) × Changes (λ c. c ≡ to.now) (λ c. c ≡ to.now) (take n (began (record { from = from.now; to = to.now }) ∷ ended (record { from = from.now; to = to.now }) ∷ [])) (S.state store.old) (S.state store.new) }
    ensures noted { OnOk result (S.refuses → IsSeenAtBoth (S.seen store.new) from.now to.now) }
    ensures seen { Remembers (λ c. (c ≡ from.now) ⊎ (c ≡ to.now)) (S.seen store.old) (S.seen store.new) }
    ensures cause { HasGround S.refuses (IsUncopiable (S.state store.old).reads (S.seen store.new) from.now to.now) (S.state store.old) (S.state store.new) result }
{
    store.begin(from, to)?;
    store.ended()?;
    Ok(())
}

// Erases what a shift of round k left.
fn erase_next<S: Store>(job: &Job, store: &mut S, k: u32, place: u32) -> Result<(), StoreFailed>
    requires most { k ≤ length job.now.plan }
    requires place { place < length (round_at job.now.plan k) }
    requires asked { AreAsked S.asked job.now }
    requires none { flights (S.state store.old) ≡ [] }
    ensures any_moment { (asked : Bool) (contents : Contents) → IsUnderway asked job.now.input job.now.plan job.now.digest contents (S.state store.old) k place 0 →
        LeavesOnly (IsSound asked job.now.input job.now.plan job.now.digest contents) (S.state store.old) (S.state store.new) }
    ensures done { OnOk result ((asked : Bool) (contents : Contents) → IsUnderway asked job.now.input job.now.plan job.now.digest contents (S.state store.old) k place 0 →
        IsUnderway asked job.now.input job.now.plan job.now.digest contents (S.state store.new) k (place + 1) 0) }
    ensures first { MakesFirst (drop place (actions_since job.now k)) (drop (place + 1) (actions_since job.now k)) (S.state store.old) (S.state store.new) result }
    ensures landed { OnOk result (flights (S.state store.new) ≡ []) }
    ensures seen { OnOk result (IsSeen job.now (S.seen store.old) (S.state store.old).reads k → IsSeen job.now (S.seen store.new) (S.state store.new).reads k) }
    ensures cause { HasGround S.refuses (¬ IsSeen job.now (S.seen store.old) (S.state store.old).reads k) (S.state store.old) (S.state store.new) result }
{
    job.keeps_rules();
    let (from, _) = job.copy(k, place);
    erase(store, &from)
}

// Copies a shift of the round after the first k.
fn copy_next<S: Store>(job: &Job, store: &mut S, k: u32, place: u32) -> Result<(), StoreFailed>
    requires more { k < length job.now.plan }
    requires place { place < length (round_at job.now.plan (suc k)) }
    requires asked { AreAsked S.asked job.now }
    requires none { flights (S.state store.old) ≡ [] }
    ensures any_moment { (asked : Bool) (contents : Contents) (e : ℕ) → IsUnderway asked job.now.input job.now.plan job.now.digest contents (S.state store.old) k e place →
        LeavesOnly (IsSound asked job.now.input job.now.plan job.now.digest contents) (S.state store.old) (S.state store.new) }
    ensures done { OnOk result ((asked : Bool) (contents : Contents) (e : ℕ) → IsUnderway asked job.now.input job.now.plan job.now.digest contents (S.state store.old) k e place →
        IsUnderway asked job.now.input job.now.plan job.now.digest contents (S.state store.new) k e (place + 1)) }
    ensures first { MakesFirst (drop place (actions_after job.now k)) (drop (place + 1) (actions_after job.now k)) (S.state store.old) (S.state store.new) result }
    ensures landed { OnOk result (flights (S.state store.new) ≡ []) }
    ensures seen { OnOk result (S.refuses → IsSeenAtStep job.now (S.seen store.old) (S.state store.old).reads k (round_size job.now.plan k + place) → IsSeenAtStep job.now (S.seen store.new) (S.state store.new).reads k (round_size job.now.plan k + place + 1)) }
    ensures cause { HasGround S.refuses (¬ IsSeen job.now (S.seen store.old) (S.state store.old).reads k) (S.state store.old) (S.state store.new) result }
{
    job.keeps_rules();
    let (from, to) = job.copy(k + 1, place);
    copy_slot(store, &from, &to)
}

/// How many shifts a round has; none where there is no such round. Rounds count from 1.
pub(crate) fn shifts_of_round(job: &Job, round: u32) -> u32
    ensures count { result ≡ round_size job.now.plan round }
    ensures few { result ≤ MAX_FILE_BYTES }
{
    job.keeps_rules();
    if round == 0 || round > job.rounds() {
        return 0;
    }
    job.round_len(round)
}

/// Makes the step after the first `p` since mark k, which isn't a mark: first the sources of round k are erased, then the
/// shifts of the next round are copied, and then the store syncs.
///
/// # Errors
///
/// A fault of the store.
pub(crate) fn step_within<S: Store>(
    job: &Job,
    store: &mut S,
    k: u32,
    p: u32,
) -> Result<(), StoreFailed>
    requires most { k ≤ length job.now.plan }
    requires place { p < steps_in job.now.plan k }
    requires asked { AreAsked S.asked job.now }
    requires none { flights (S.state store.old) ≡ [] }
    ensures any_moment { (asked : Bool) (contents : Contents) → IsAtStep asked job.now.input job.now.plan job.now.digest contents (S.state store.old) k p →
        LeavesOnly (IsSound asked job.now.input job.now.plan job.now.digest contents) (S.state store.old) (S.state store.new) }
    ensures done { OnOk result ((asked : Bool) (contents : Contents) → IsAtStep asked job.now.input job.now.plan job.now.digest contents (S.state store.old) k p →
        IsAtStep asked job.now.input job.now.plan job.now.digest contents (S.state store.new) k (p + 1)) }
    ensures first { MakesFirst (drop p (actions_since job.now k)) (drop (p + 1) (actions_since job.now k)) (S.state store.old) (S.state store.new) result }
    ensures landed { OnOk result (flights (S.state store.new) ≡ []) }
    ensures seen { OnOk result (S.refuses → IsSeenAtStep job.now (S.seen store.old) (S.state store.old).reads k p → IsSeenAtStep job.now (S.seen store.new) (S.state store.new).reads k (p + 1)) }
    ensures cause { HasGround S.refuses (¬ IsSeenAtStep job.now (S.seen store.old) (S.state store.old).reads k p) (S.state store.old) (S.state store.new) result }
{
    job.keeps_rules();
    let erasures = shifts_of_round(job, k);
    if p < erasures {
        return erase_next(job, store, k, p);
    }
    let copies = shifts_of_round(job, k + 1);
    if p - erasures < copies {
        return copy_next(job, store, k, p - erasures);
    }
    store.sync()
}

/// Sets the mark of the round after the first k, whose copies are settled.
///
/// # Errors
///
/// A fault of the store.
pub(crate) fn mark_next<S: Store>(job: &Job, store: &mut S, k: u32) -> Result<(), StoreFailed>
    requires more { k < length job.now.plan }
    requires none { flights (S.state store.old) ≡ [] }
    ensures any_moment { (asked : Bool) (contents : Contents) → IsAtStep asked job.now.input job.now.plan job.now.digest contents (S.state store.old) k (steps_in job.now.plan k) →
        LeavesOnly (IsSound asked job.now.input job.now.plan job.now.digest contents) (S.state store.old) (S.state store.new) }
    ensures done { OnOk result ((asked : Bool) (contents : Contents) → IsAtStep asked job.now.input job.now.plan job.now.digest contents (S.state store.old) k (steps_in job.now.plan k) →
        IsAtStep asked job.now.input job.now.plan job.now.digest contents (S.state store.new) (k + 1) 0) }
    ensures first { MakesFirst (drop (steps_in job.now.plan k) (actions_since job.now k)) (actions_since job.now (k + 1)) (S.state store.old) (S.state store.new) result }
    ensures landed { OnOk result (flights (S.state store.new) ≡ []) }
    ensures seen { OnOk result (S.refuses → IsSeenAtStep job.now (S.seen store.old) (S.state store.old).reads k (steps_in job.now.plan k) → IsSeenAtStep job.now (S.seen store.new) (S.state store.new).reads (k + 1) 0) }
    ensures cause { HasCause (S.state store.old) (S.state store.new) result }
{
    job.keeps_rules();
    mark(store, k + 1)
}
