//! A table of a plan's targets.
ghost use Rattle.std.specs.Prelude.{◌≡◌, ◌++◌, [], ◌∷◌, IfOk, OnOk};
ghost use Rattle.mig_base.specs.InputLists.{IsInput};
ghost use Rattle.mig_base.specs.Readiness.{shifts_of};
ghost use Rattle.mig_jobs.specs.JobTables.{free_targets};

use mig_base::{Input, Plan, Shift, Spot};
use mig_keys::KeyTable;
use std::alloc::{AllocError, Global};

// Adds a shift's target, if the table doesn't have it.
fn add_target(table: &KeyTable<Spot>, s: &Shift, targets: &mut Vec<Spot>) -> Result<(), AllocError>
    ensures { OnOk result (targets.new.items ≡ targets.old.items ++ free_targets table.now (s.now ∷ [])) }
{
    if table.contains(&s.to) {
        return Ok(());
    }
    targets.push(s.to)?;
    Ok(())
}

// Adds the targets that the table doesn't have.
fn add_targets(
    table: &KeyTable<Spot>,
    shifts: &[Shift],
    targets: &mut Vec<Spot>,
) -> Result<(), AllocError>
    ensures { OnOk result (targets.new.items ≡ targets.old.items ++ free_targets table.now shifts.now) }
{
    for s in shifts {
        add_target(table, s, targets)?;
    }
    Ok(())
}

/// The targets of the plan that are free now, in the plan's order.
pub(crate) fn targets_of(alloc: Global, input: &Input, plan: &Plan) -> Result<Vec<Spot>, AllocError>
    ensures { IfOk result (λ targets. targets.items ≡ free_targets input.now.spots (shifts_of plan.now)) }
{
    let table = KeyTable::of(alloc, input.now())?;
    let mut targets = Vec::new(alloc);
    for round in plan.rounds() {
        add_targets(&table, round.shifts(), &mut targets)?;
    }
    Ok(targets)
}
