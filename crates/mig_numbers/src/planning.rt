//! Plans over numbers.
ghost use Rattle.std.specs.Prelude.{◌≡◌, ◌≢◌, ◌⊎◌, ◌≤◌, ◌<◌, IfErr, IfOk, length};
ghost use Rattle.mig_base.specs.Targets.{IsRoomy};
ghost use Rattle.mig_best.specs.Certified.{IsCertified};
ghost use Rattle.mig_numbers.specs.Handed.{HandsPlan};
ghost use Rattle.mig_numbers.specs.Refusals.{IsNumbersRefusal, Refuses};

use crate::numbers::{DiskNumbers, Found, ItemNumbers, NumbersRefusal, Refused, ShiftNumbers};
use crate::reading::read_numbers;
use crate::writing::{found_in, refused_in, write_plan, write_set};
use mig_base::Input;
use mig_best::{Certified, certified_plan};
use mig_graph::Graph;
use std::alloc::{AllocError, Global};

/// The best plan for an input, and its certificate.
pub(crate) fn plan_input(alloc: Global, input: &Input) -> Result<Certified, AllocError>
    requires { IsRoomy input.now }
    ensures { IfOk result (λ made. IsCertified input.now made.plan made.cert) }
{
    let graph = Graph::of(alloc, input)?;
    certified_plan(alloc, input, &graph)
}

/// How many shifts there are and disks of a bound's set, and what was found.
#[derive(Clone, Copy)]
struct PlanCounts {
    shifts: usize,
    set_disks: usize,
    found: Found,
}

/// Plans, and puts the shifts and the disks of the bound's set as far as they fit.
fn plan_into(
    alloc: Global,
    split: bool,
    disks: &[DiskNumbers],
    items: &[ItemNumbers],
    shifts: &mut [ShiftNumbers],
    set: &mut [u32],
) -> Result<PlanCounts, NumbersRefusal>
    ensures planned { IfOk result (λ done. HandsPlan split disks.now items.now shifts.old shifts.new done.shifts set.old set.new done.set_disks done.found) }
    ensures refused { IfErr result (IsNumbersRefusal split disks.now items.now) }
    ensures kept { IfErr result (λ _. (shifts.new ≡ shifts.old) × (set.new ≡ set.old)) }
{
    let input = read_numbers(alloc, split, disks, items)?;
    let Ok(made) = plan_input(alloc, &input) else {
        return Err(NumbersRefusal::Memory);
    };
    Ok(PlanCounts {
        shifts: write_plan(shifts, &made.plan),
        set_disks: write_set(set, &made.cert.bound),
        found: found_in(&made.cert),
    })
}

/// Plans: the shifts in the order of their rounds, as many as fit, and how many there are; the disks of a bound that is a set,
/// likewise; and what was found, or why there is no plan. The disks have split limits or joint ones.
///
/// Statuses: 0 where all shifts fit, 3 where the numbers are refused, 7 where memory is wanting, 100 where there is too little room
/// for the shifts.
pub fn plan_numbers(
    alloc: Global,
    split: bool,
    disks: &[DiskNumbers],
    items: &[ItemNumbers],
    shifts: &mut [ShiftNumbers],
    count: &mut usize,
    set: &mut [u32],
    set_count: &mut usize,
    found: &mut Found,
    refused: &mut Refused,
) -> u32
    ensures done { result ≡ 0 → HandsPlan split disks.now items.now shifts.old shifts.new count.new set.old set.new set_count.new found.new × (count.new ≤ length shifts.old) }
    ensures short { result ≡ 100 → HandsPlan split disks.now items.now shifts.old shifts.new count.new set.old set.new set_count.new found.new × (length shifts.old < count.new) }

    // With room for as many shifts as there are items it is not 100.
    ensures roomy { length items.now ≤ length shifts.old → result ≢ 100 }
    ensures refused { result ≡ 3 → Refuses split disks.now items.now refused.new }
    ensures kept { (result ≡ 3) ⊎ (result ≡ 7) → (shifts.new ≡ shifts.old) × (set.new ≡ set.old) }
    ensures statuses { (result ≡ 0) ⊎ (result ≡ 3) ⊎ (result ≡ 7) ⊎ (result ≡ 100) }
{
    match plan_into(alloc, split, disks, items, shifts, set) {
        Ok(done) => {
            *count = done.shifts;
            *set_count = done.set_disks;
            *found = done.found;
            if done.shifts <= shifts.len() { 0 } else { 100 }
        }
        Err(NumbersRefusal::Memory) => 7,
        Err(why) => {
            *refused = refused_in(why);
            3
        }
    }
}
