//! Whether a store is ready for a plan.
ghost use Rattle.std.specs.Prelude.{◌≡◌, ◌<◌, ◌≤◌, [], ℕ, All, false, IfErr, IfNone, IfOk, IfSome, MatchBool, OnOk, length};
ghost use Rattle.mig_base.specs.Images.{NoCell};
ghost use Rattle.mig_base.specs.JobCells.{IsJobCell, Tells};
ghost use Rattle.mig_base.specs.Journals.{is_armed};
ghost use Rattle.mig_base.specs.Readiness.{shifts_of, IsShifted, CanTake, IsReady, IsFirstLost, IsFirstUsed};
ghost use Rattle.mig_base.specs.Slots.{IsThere, IsLost};
ghost use Rattle.mig_base.specs.Stores.{State, flights, ChangesOnly, HasCause};
ghost use Rattle.mig_mover.specs.Erasures.{AreAsked};
ghost use Rattle.mig_mover.specs.Holdings.{IsSeen};
ghost use Rattle.mig_mover.specs.Moves.{IsFaultOn, IsResumeFault};
ghost use Rattle.mig_base.specs.Tasks.{Task};

use crate::expecting::expect_all;
use crate::faults::MoveFault;
use mig_base::{ItemId, Spot};
use mig_jobs::{Job, is_there, is_used};
use mig_store::{Store, StoreFailed};

// Whether the plan shifts an item, and the header at its spot of now doesn't name it.
fn is_lost<S: Store>(
    job: &Job,
    store: &mut S,
    item: usize,
    slot: &mut [u8; 4096],
) -> Result<bool, StoreFailed>
    requires item { item < length job.now.input.items }
    requires none { flights (S.state store.old) ≡ [] }
    ensures answer { IfOk result (λ yes. MatchBool yes (IsShifted job.now.plan item × IsLost job.now.input (S.state store.old).reads item) (IsShifted job.now.plan item → IsThere job.now.input (S.state store.old).reads item)) }
    ensures change { ChangesOnly NoCell (S.state store.old) (S.state store.new) }
    ensures cause { HasCause (S.state store.old) (S.state store.new) result }
{
    if !job.is_shifted(item) {
        return Ok(false);
    }
    Ok(!is_there(job.input(), store, item, slot)?)
}

// The first item that the plan shifts and that isn't at its spot of now.
fn find_lost<S: Store>(job: &Job, store: &mut S) -> Result<Option<ItemId>, StoreFailed>
    requires none { flights (S.state store.old) ≡ [] }
    ensures lost { IfOk result (λ found. IfSome found (λ item. IsFirstLost job.now.input job.now.plan (S.state store.old).reads item.0)) }
    ensures there { IfOk result (λ found. IfNone found ((item : ℕ) → item < length job.now.input.items → IsShifted job.now.plan item → IsThere job.now.input (S.state store.old).reads item)) }
    ensures change { ChangesOnly NoCell (S.state store.old) (S.state store.new) }
    ensures cause { HasCause (S.state store.old) (S.state store.new) result }
{
    job.input().keeps_rules();
    let mut slot = [0; 4096];
    for item in 0..job.input().items().len() {
        if is_lost(job, store, item, &mut slot)? {
            return Ok(Some(ItemId(item as u32)));
        }
    }
    Ok(None)
}

// The first target that is free now and used.
#[tactic(auto, using(crate::proofs::Looked::two_calls, crate::proofs::Looked::failed_calls, crate::proofs::TargetLaws::targets))]
fn find_used<S: Store>(job: &Job, store: &mut S) -> Result<Option<Spot>, StoreFailed>
    requires none { flights (S.state store.old) ≡ [] }
    ensures used { IfOk result (λ found. IfSome found (IsFirstUsed job.now.input job.now.plan (S.state store.old).reads)) }
    ensures free { IfOk result (λ found. IfNone found (All (CanTake job.now.input (S.state store.old).reads) (shifts_of job.now.plan))) }
    ensures change { ChangesOnly NoCell (S.state store.old) (S.state store.new) }
    ensures cause { HasCause (S.state store.old) (S.state store.new) result }
{
    let mut slot = [0; 4096];
    for spot in job.targets() {
        if is_used(job.input(), store, *spot, &mut slot)? {
            return Ok(Some(*spot));
        }
    }
    Ok(None)
}

/// Refuses a store that isn't ready for the plan, and asks it whether it stands as it should before the first round. The gate isn't 1.
pub(crate) fn check_ready<S: Store>(job: &Job, store: &mut S) -> Result<(), MoveFault>
    requires idle { is_armed (S.state store.old).reads ≡ false }
    requires none { flights (S.state store.old) ≡ [] }
    ensures ready { OnOk result (IsReady job.now.input job.now.plan (S.state store.old).reads) }
    ensures asked { OnOk result (AreAsked S.asked job.now) }
    ensures change { ChangesOnly NoCell (S.state store.old) (S.state store.new) }
    ensures seen { OnOk result (S.refuses → Tells (IsJobCell job.now.input job.now.plan) (S.state store.old).reads → IsSeen job.now (S.seen store.new) (S.state store.new).reads 0) }
    ensures fault { IfErr result (IsFaultOn (S.refuses × ¬ Tells (IsJobCell job.now.input job.now.plan) (S.state store.old).reads) job.now (S.state store.old) (S.state store.new)) }
    ensures kind { IfErr result IsResumeFault }
    ensures later { (S.state store.old).faults ≤ (S.state store.new).faults }
{
    job.keeps_rules();
    if let Some(item) = find_lost(job, store)? {
        return Err(MoveFault::NotThere { item });
    }
    if let Some(spot) = find_used(job, store)? {
        return Err(MoveFault::Occupied {
            disk: spot.disk,
            slot: spot.slot,
        });
    }
    expect_all(job, store, 0)?;
    Ok(())
}
