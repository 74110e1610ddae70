//! Whether a plan runs, and the layouts that it goes through.
ghost use Rattle.std.specs.Prelude.{◌≡◌, ℕ, ◌<◌, ◌≤◌, IfErr, IfNone, IfOk, IfSome, OnOk, length};
ghost use Rattle.mig_base.specs.declared.blames.Blame.TheVariants.{Memory};
ghost use Rattle.mig_base.specs.Judging.{IsLeast, IsRunBlame};
ghost use Rattle.mig_base.specs.Layouts.{At, IsListOf};
ghost use Rattle.mig_base.specs.Running.{IsArrivedAt, PlanFits, Runs};
ghost use Rattle.mig_check.specs.Start.{IsStart};
ghost use Rattle.mig_check.specs.Tables.{layout_of};

use crate::rounds::{Tables, check_rounds};
use crate::shifts::move_items;
use mig_base::{Blame, Input, ItemId, Plan, Round, Spot};
use std::alloc::{AllocError, Global};

/// Whether the plan runs. The rounds' shifts are legal one round after another, and the last layout
/// has each item on its next disk.
///
/// An error is the first of what is wrong, by rounds, which count from 1, and inside a round in the
/// order of the kinds from `EmptyRound` to `OverLimit`; then `WrongEnd`. `Memory` is the answer where
/// memory is refused.
pub fn runs(alloc: Global, input: &Input, plan: &Plan) -> Result<(), Blame>
    requires { PlanFits input.now plan.now }
    ensures runs { OnOk result (Runs input.now plan.now) }
    ensures blame { IfErr result (IsRunBlame input.now plan.now) }
    ensures blameless { Runs input.now plan.now → IfErr result (λ blame. blame ≡ Memory) }
{
    let Ok(mut spots) = Vec::from_slice(alloc, input.now()) else {
        return Err(Blame::Memory);
    };
    let Ok(mut tables) = Tables::new(alloc, input) else {
        return Err(Blame::Memory);
    };
    check_plan(input, &mut spots, &mut tables, plan.rounds())
}

/// Goes through a plan's rounds, and looks where they leave the items.
fn check_plan(
    input: &Input,
    spots: &mut [Spot],
    tables: &mut Tables,
    rounds: &[Round],
) -> Result<(), Blame>
    requires fits { PlanFits input.now rounds.now }
    requires spots { spots.old ≡ input.now.spots }
    requires tables { IsStart input.now tables.old }
    ensures runs { OnOk result (Runs input.now rounds.now) }
    ensures blame { IfErr result (IsRunBlame input.now rounds.now) }
{
    if let Err(blame) = check_rounds(input, spots, tables, rounds) {
        return Err(blame);
    }
    match find_astray(input, spots) {
        Some(item) => Err(Blame::WrongEnd { item }),
        None => Ok(()),
    }
}

/// The least item that isn't on its next disk.
fn find_astray(input: &Input, spots: &[Spot]) -> Option<ItemId>
    requires { length spots.now ≡ length input.now.items }
    ensures none { IfNone result ((item : ℕ) → item < length input.now.items → IsArrivedAt input.now (layout_of spots.now) item) }
    ensures some { IfSome result (λ item. IsLeast (λ i. (i < length input.now.items) × ¬ IsArrivedAt input.now (layout_of spots.now) i) item.0) }
{
    let next = input.next();
    for (i, spot) in spots.iter().enumerate() {
        if spot.disk != next[i] {
            return Some(ItemId(i as u32));
        }
    }
    None
}

/// The layout after the first `rounds` rounds: each item's spot, in the order of the items.
///
/// It is an error only where memory is refused.
pub fn layout_after(
    alloc: Global,
    input: &Input,
    plan: &Plan,
    rounds: u32,
) -> Result<Vec<Spot>, AllocError>
    requires runs { Runs input.now plan.now }
    requires there { rounds ≤ length plan.now }
    ensures layout { IfOk result (λ spots. IsListOf (At input.now plan.now rounds) spots.items) }
    ensures len { IfOk result (λ spots. length spots.items ≡ length input.now.items) }
{
    let mut spots = Vec::from_slice(alloc, input.now())?;
    carry_out(input, &mut spots, plan, rounds);
    Ok(spots)
}

/// Moves the items by the first rounds of the plan.
fn carry_out(input: &Input, spots: &mut [Spot], plan: &Plan, rounds: u32)
    requires runs { Runs input.now plan.now }
    requires there { rounds ≤ length plan.now }
    requires now { spots.old ≡ input.now.spots }
    ensures { IsListOf (At input.now plan.now rounds) spots.new }
{
    for round in &plan.rounds()[..rounds as usize] {
        move_items(spots, round.shifts());
    }
}
