ghost use Rattle.std.specs.Prelude.{◌≡◌, ◌≤◌, length, IfOk};
ghost use Rattle.mig_base.specs.Lowered.{lowered_quotient, IsLowerable};
ghost use Rattle.mig_base.specs.Transfers.{transfer_graph};
ghost use Rattle.mig_base.specs.Targets.{AreTargets, IsRoomy};
ghost use Rattle.mig_base.specs.MadePlans.{IsPlanOf};
ghost use Rattle.mig_base.specs.Planned.{GoesToTargets, HasNoEmptyRound};
ghost use Rattle.mig_base.specs.Running.{Once, PlanFits, Runs};

use crate::colourings::{colour_lowered, colour_moves};
use crate::rounds::plan_of;
use crate::targets::target_spots;
use mig_base::{Input, Plan, Spot};
use mig_graph::Graph;
use std::alloc::{AllocError, Global};

/// A plan of the moves of a transfer graph to the spots that their items are given.
fn plan_moves(
    alloc: Global,
    input: &Input,
    graph: &Graph,
    targets: &[Spot],
    start: u32,
) -> Result<Plan, AllocError>
    requires graph { graph.now ≡ transfer_graph input.now }
    requires roomy { IsRoomy input.now }
    requires targets { AreTargets input.now targets.now }
    ensures planned { IfOk result (IsPlanOf input.now) }
{
    input.keeps_rules();
    let (colours, count) = colour_moves(alloc, graph, start)?;
    plan_of(alloc, input, graph, targets, &colours, count)
}

/// A plan that moves each item that is to go to another disk, in rounds that can be carried out one after the other.
///
/// Each relocated item is shifted once, from its spot to its target spot, and nothing else is shifted. No round is
/// empty, and each round keeps each disk's limits. Where limits are split, where each disk that takes part has an even
/// limit, and where each transfer goes from one side of the disks to the other, the number of rounds is the quotient and no
/// schedule has fewer; else it is at most three halves of the quotient. Errs for want of memory only.
pub fn make_plan(alloc: Global, input: &Input) -> Result<Plan, AllocError>
    requires roomy { IsRoomy input.now }
    ensures planned { IfOk result (IsPlanOf input.now) }
{
    let graph = Graph::of(alloc, input)?;
    make_plan_from(alloc, input, &graph, graph.quotient())
}

/// The same over a transfer graph that is there already. Where a joint limit is odd, plans of `start` rounds and then of more
/// are looked for: a number that every schedule needs is a good start. Errs for want of memory only.
pub fn make_plan_from(
    alloc: Global,
    input: &Input,
    graph: &Graph,
    start: u32,
) -> Result<Plan, AllocError>
    requires graph { graph.now ≡ transfer_graph input.now }
    requires roomy { IsRoomy input.now }
    ensures planned { IfOk result (IsPlanOf input.now) }
{
    let targets = target_spots(alloc, input)?;
    plan_moves(alloc, input, graph, &targets, start)
}

/// A plan whose rounds keep joint limits that are lowered to even ones: it has at most as many rounds as the greatest
/// quotient by these. Errs for want of memory only.
pub fn make_lowered_plan(
    alloc: Global,
    input: &Input,
    graph: &Graph,
    rounds: u32,
) -> Result<Plan, AllocError>
    requires graph { graph.now ≡ transfer_graph input.now }
    requires roomy { IsRoomy input.now }
    requires lowerable { IsLowerable graph.now }
    requires rounds { rounds ≡ lowered_quotient graph.now }
    ensures fits { IfOk result (PlanFits input.now) }
    ensures runs { IfOk result (Runs input.now) }
    ensures once { IfOk result (Once input.now) }
    ensures targets { IfOk result (GoesToTargets input.now) }
    ensures filled { IfOk result HasNoEmptyRound }
    ensures few { IfOk result (λ p. length p ≤ rounds) }
{
    let targets = target_spots(alloc, input)?;
    let colours = colour_lowered(alloc, graph, rounds)?;
    plan_of(alloc, input, graph, &targets, &colours, rounds)
}
