//! Plans for tight space over numbers.
ghost use Rattle.std.specs.Prelude.{◌≡◌, ◌≢◌, ◌⊎◌, ◌≤◌, ◌<◌, ◌*◌, IfErr, IfOk, length};
ghost use Rattle.mig_numbers.specs.Numbers.{input_of};
ghost use Rattle.mig_numbers.specs.Refusals.{AreThere, RefusesUnfit};
ghost use Rattle.mig_numbers.specs.Tight.{HandsTight, IsNoPlan, IsUnplanned};
ghost use Rattle.mig_tight.specs.Causes.{HasNoPlanUnlessMemory, IsTightCause};

use crate::numbers::{DiskNumbers, ItemNumbers, NumbersRefusal, Refused, ShiftNumbers, Unmade};
use crate::reading::read_any;
use crate::writing::{refusal, refused_in, write_plan};
use mig_tight::{TightError, tight_plan};
use std::alloc::Global;

/// Why an input has no plan.
fn unplanned(split: bool, disks: &[DiskNumbers], items: &[ItemNumbers], error: TightError) -> Unmade
    requires there { AreThere split disks.now items.now }
    requires cause { IsTightCause (input_of split disks.now items.now) error }
    requires no_plan { HasNoPlanUnlessMemory (input_of split disks.now items.now) error }
    ensures { IsUnplanned split disks.now items.now result }
{
    match error {
        TightError::TooMany { disk, needs, slots } => Unmade::Impossible(Refused {
            cause: 9,
            place: disk.0,
            needs,
            has: slots,
        }),
        TightError::NoFree => Unmade::Impossible(refusal(10, 0)),
        TightError::Memory => Unmade::Unfit(NumbersRefusal::Memory),
    }
}

/// Plans, and puts the shifts as far as they fit; how many there are.
fn plan_tight_into(
    alloc: Global,
    split: bool,
    disks: &[DiskNumbers],
    items: &[ItemNumbers],
    shifts: &mut [ShiftNumbers],
) -> Result<usize, Unmade>
    ensures planned { IfOk result (HandsTight split disks.now items.now shifts.old shifts.new) }
    ensures unplanned { IfErr result (IsUnplanned split disks.now items.now) }
    ensures kept { IfErr result (λ _. shifts.new ≡ shifts.old) }
{
    let input = match read_any(alloc, split, disks, items) {
        Ok(input) => input,
        Err(why) => return Err(Unmade::Unfit(why)),
    };
    match tight_plan(alloc, &input) {
        Ok(plan) => Ok(write_plan(shifts, &plan)),
        Err(error) => Err(unplanned(split, disks, items, error)),
    }
}

/// Plans single shifts, one a round, where disks may be too full for old and incoming items together: as many as fit, and how many
/// there are, or why there is no plan.
///
/// Statuses: 0 where all shifts fit, 3 where the numbers are refused, 7 where memory is wanting, 13 where no plan can be carried
/// out, 100 where there is too little room for the shifts.
pub fn plan_tight_numbers(
    alloc: Global,
    split: bool,
    disks: &[DiskNumbers],
    items: &[ItemNumbers],
    shifts: &mut [ShiftNumbers],
    count: &mut usize,
    refused: &mut Refused,
) -> u32
    ensures done { result ≡ 0 → HandsTight split disks.now items.now shifts.old shifts.new count.new × (count.new ≤ length shifts.old) }
    ensures short { result ≡ 100 → HandsTight split disks.now items.now shifts.old shifts.new count.new × (length shifts.old < count.new) }

    // With room for twice as many shifts as there are items it is not 100.
    ensures roomy { 2 * length items.now ≤ length shifts.old → result ≢ 100 }
    ensures refused { result ≡ 3 → RefusesUnfit split disks.now items.now refused.new }
    ensures no_plan { result ≡ 13 → AreThere split disks.now items.now × IsNoPlan (input_of split disks.now items.now) refused.new }
    ensures kept { (result ≡ 3) ⊎ (result ≡ 7) ⊎ (result ≡ 13) → shifts.new ≡ shifts.old }
    ensures statuses { (result ≡ 0) ⊎ (result ≡ 3) ⊎ (result ≡ 7) ⊎ (result ≡ 13) ⊎ (result ≡ 100) }
{
    match plan_tight_into(alloc, split, disks, items, shifts) {
        Ok(done) => {
            *count = done;
            if done <= shifts.len() { 0 } else { 100 }
        }
        Err(Unmade::Impossible(why)) => {
            *refused = why;
            13
        }
        Err(Unmade::Unfit(NumbersRefusal::Memory)) => 7,
        Err(Unmade::Unfit(why)) => {
            *refused = refused_in(why);
            3
        }
    }
}
