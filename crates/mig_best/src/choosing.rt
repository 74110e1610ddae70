//! The plan with the fewest rounds.
ghost use Rattle.std.specs.Prelude.{◌≡◌, ◌≤◌, length, IfOk};
ghost use Rattle.mig_base.specs.MadePlans.{IsPlanOf, IsWithinLowered};
ghost use Rattle.mig_base.specs.Targets.{IsRoomy};
ghost use Rattle.mig_base.specs.Transfers.{transfer_graph};

use crate::certifying::value_of;
use mig_base::{Input, Plan};
use mig_bounds::best_bound;
use mig_graph::Graph;
use mig_plan::{lowered_quotient, make_lowered_plan, make_plan_from};
use std::alloc::{AllocError, Global};

/// A plan by limits that are lowered to even ones, where it has fewer rounds than this plan; else this plan.
fn with_fewer_rounds(
    alloc: Global,
    input: &Input,
    graph: &Graph,
    plan: Plan,
) -> Result<Plan, AllocError>
    requires graph { graph.now ≡ transfer_graph input.now }
    requires roomy { IsRoomy input.now }
    requires planned { IsPlanOf input.now plan }
    ensures planned { IfOk result (IsPlanOf input.now) }
    ensures lowered { IfOk result (IsWithinLowered input.now) }
    ensures fewest { IfOk result (λ best. length best ≤ length plan) }
{
    input.keeps_rules();
    let Some(rounds) = lowered_quotient(graph) else {
        return Ok(plan);
    };
    if plan.rounds().len() <= rounds as usize {
        return Ok(plan);
    }
    make_lowered_plan(alloc, input, graph, rounds)
}

/// The plan with the fewest rounds of those that are made for an input, over its transfer graph. Where a joint limit is
/// odd, plans of `start` rounds and then of more are looked for: a number that every schedule needs is a good start. Errs
/// for want of memory only.
///
/// A plan that can't have fewer rounds than the one at hand isn't made.
pub fn best_plan_from(
    alloc: Global,
    input: &Input,
    graph: &Graph,
    start: u32,
) -> Result<Plan, AllocError>
    requires graph { graph.now ≡ transfer_graph input.now }
    requires roomy { IsRoomy input.now }
    ensures planned { IfOk result (IsPlanOf input.now) }
    ensures lowered { IfOk result (IsWithinLowered input.now) }
{
    let plan = make_plan_from(alloc, input, graph, start)?;
    with_fewer_rounds(alloc, input, graph, plan)
}

/// The plan with the fewest rounds of those that are made for an input: as few as the quotient where limits are split, where
/// they are even, and where each transfer goes from one side of the disks to the other; where joint limits can be lowered
/// to even ones, no more than the greatest quotient by these; and no more than three halves of the quotient. Errs for want
/// of memory only.
pub fn best_plan(alloc: Global, input: &Input) -> Result<Plan, AllocError>
    requires { IsRoomy input.now }
    ensures planned { IfOk result (IsPlanOf input.now) }
    ensures lowered { IfOk result (IsWithinLowered input.now) }
{
    let graph = Graph::of(alloc, input)?;
    let bound = best_bound(alloc, &graph)?;
    best_plan_from(alloc, input, &graph, value_of(&bound))
}
