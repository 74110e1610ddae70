//! From a colouring that keeps each limit to a plan.
ghost use Rattle.std.specs.Prelude.{◌≡◌, ◌≤◌, length, filter, map, IfOk};
ghost use Rattle.mig_base.specs.Transfers.{transfer_graph};
ghost use Rattle.mig_base.specs.Targets.{AreTargets, IsRoomy};
ghost use Rattle.mig_base.specs.Running.{Runs, Once, PlanFits};
ghost use Rattle.mig_base.specs.Planned.{GoesToTargets, HasNoEmptyRound};
ghost use Rattle.mig_base.specs.Colourings.{IsLimited};
ghost use Rattle.mig_plan.specs.ColourRows.{is_filled, items_of};

use crate::rows::rows_of;
use mig_base::{Colour, Input, Plan, Round, Shift, Spot};
use mig_graph::Graph;
use std::alloc::{AllocError, Global};

/// The rounds of the rows that aren't empty.
fn rounds_of(alloc: Global, rows: Vec<Vec<Shift>>) -> Result<Plan, AllocError>
    ensures { IfOk result (λ p. p ≡ filter is_filled (map items_of rows.items)) }
{
    let mut rounds = Vec::with_capacity(alloc, rows.len())?;
    for row in rows {
        if !row.is_empty() {
            rounds.push(Round::of(row))?;
        }
    }
    Ok(Plan::of(rounds))
}

/// The plan whose rounds are the colours of a colouring that keeps each disk's limit; a colour of no edge gives no
/// round.
pub fn plan_of(
    alloc: Global,
    input: &Input,
    graph: &Graph,
    targets: &[Spot],
    colours: &[Colour],
    count: u32,
) -> Result<Plan, AllocError>
    requires graph { graph.now ≡ transfer_graph input.now }
    requires roomy { IsRoomy input.now }
    requires targets { AreTargets input.now targets.now }
    requires limited { IsLimited graph.now count colours.now }
    ensures fits { IfOk result (PlanFits input.now) }
    ensures runs { IfOk result (Runs input.now) }
    ensures once { IfOk result (Once input.now) }
    ensures targets { IfOk result (GoesToTargets input.now) }
    ensures filled { IfOk result HasNoEmptyRound }
    ensures few { IfOk result (λ p. length p ≤ count) }
{
    input.keeps_rules();
    let rows = rows_of(alloc, input, graph, targets, colours, count)?;
    rounds_of(alloc, rows)
}
