//! Plans of single shifts, and why there is none.
ghost use Rattle.std.specs.Prelude.{◌≡◌, ◌+◌, ◌<◌, length, vec_len, IfErr, IfOk, IsErrAnd};
ghost use Rattle.mig_base.specs.Transfers.{moves};
ghost use Rattle.mig_base.specs.Running.{PlanFits};
ghost use Rattle.mig_base.specs.TightPlans.{Fits, HasFreeSlot, HasMove, IsTightPlan, parked};
ghost use Rattle.mig_tight.specs.Causes.{IsTightCause, HasNoPlanUnlessMemory, IsNoFreeOrMemory, IsTooManyOrMemory};
ghost use Rattle.mig_tight.specs.PlanStates.{HasSpares, ArePlaced};

use crate::checks::{first_overfull, has_move};
use crate::errors::TightError;
use crate::planner::Planner;
use crate::spares::free_spots;
use mig_base::{Input, Plan, Spot};
use std::alloc::{AllocError, Global};

/// A plan over these free spots, of which there is one at least.
fn plan_over(alloc: Global, input: &Input, spares: Vec<Spot>) -> Result<Plan, AllocError>
    requires fits { Fits input.now }
    requires placed { ArePlaced input.now input.now.spots spares.items }
    requires enough { HasSpares input.now input.now.spots spares.items }
    requires some { 0 < vec_len spares }
    ensures tight { IfOk result (IsTightPlan input.now) }
    ensures spelled { IfOk result (PlanFits input.now) }
{
    input.keeps_rules();
    let mut planner = Planner::new(alloc, input, spares)?;
    planner.settle_all(alloc, input)?;
    planner.clear_all(alloc, input)?;
    Ok(planner.into_plan())
}

/// A plan, or why there is none.
fn find_plan(alloc: Global, input: &Input) -> Result<Plan, TightError>
    ensures tight { IfOk result (IsTightPlan input.now) }
    ensures spelled { IfOk result (PlanFits input.now) }
    ensures cause { IfErr result (IsTightCause input.now) }
{
    input.keeps_rules();
    if let Some(over) = first_overfull(alloc, input)? {
        return Err(TightError::TooMany {
            disk: over.disk,
            needs: over.needs,
            slots: over.slots,
        });
    }
    if !has_move(input) {
        return Ok(Plan::of(Vec::new(alloc)));
    }
    let spares = free_spots(alloc, input)?;
    if spares.is_empty() {
        return Err(TightError::NoFree);
    }
    Ok(plan_over(alloc, input, spares)?)
}

/// A plan of single shifts, also where a disk can't hold old and incoming items together.
///
/// Each relocated item is shifted straight to its next disk, or is parked on another disk once before; where each disk has
/// room for what comes to it, nothing is parked. While an item waits for the disk of a free slot, it is shifted there, and
/// leaves another free slot. Then each disk that is awaited is full, and one of its items that belong elsewhere is parked
/// in a free slot of a disk that isn't. Nobody waits for that disk later, so no item is parked twice. The time is linear in
/// the disks and items, but for look-ups. The plan has a round for each relocated item, and one more for each that it parks;
/// fewer may do.
///
/// # Errors
///
/// `TooMany` comes exactly where some disk is the next disk of more items than it has slots, and names the first. `NoFree`
/// comes exactly where the items fit, some item is relocated and no slot is free. In both cases no plan at all can be
/// carried out. `Memory` is want of memory.
pub fn tight_plan(alloc: Global, input: &Input) -> Result<Plan, TightError>
    ensures tight { IfOk result (IsTightPlan input.now) }
    ensures spelled { IfOk result (PlanFits input.now) }
    ensures parked { IfOk result (λ plan. length plan ≡ length (moves input.now) + parked input.now plan) }
    ensures cause { IfErr result (IsTightCause input.now) }
    ensures too_many { ¬ Fits input.now → IsErrAnd result IsTooManyOrMemory }
    ensures no_free { Fits input.now → HasMove input.now → ¬ HasFreeSlot input.now → IsErrAnd result IsNoFreeOrMemory }
    ensures no_plan { IfErr result (HasNoPlanUnlessMemory input.now) }
{
    input.keeps_rules();
    find_plan(alloc, input)
}
