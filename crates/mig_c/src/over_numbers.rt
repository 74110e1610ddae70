//! The calls over numbers, which are those of mig_numbers.
ghost use Rattle.std.specs.Prelude.{◌≡◌, ◌≢◌, ◌↔◌, ◌⊎◌, ◌≤◌, ◌<◌, ◌*◌, length};
ghost use Rattle.mig_c.specs.Slices.{TOO_SHORT};
ghost use Rattle.mig_numbers.specs.Drains.{CantDrain, HandsDrain};
ghost use Rattle.mig_numbers.specs.Handed.{HandsPlan};
ghost use Rattle.mig_numbers.specs.Judged.{AreRightNumbers, IsBlamed, IsUnspelled};
ghost use Rattle.mig_numbers.specs.Numbers.{input_of};
ghost use Rattle.mig_numbers.specs.Refusals.{AreThere, Refuses, RefusesUnfit};
ghost use Rattle.mig_numbers.specs.Rounds.{HandsRounds, IsOfPairs, disks_for, items_for};
ghost use Rattle.mig_numbers.specs.Tight.{HandsTight, IsNoPlan};

use mig_numbers::{
    DiskNumbers, DrainNumbers, Found, ItemNumbers, Judged, LimitNumbers, PairNumbers, Refused,
    ShiftNumbers, check_numbers, drain_numbers, plan_numbers, plan_tight_numbers, schedule,
};
use std::alloc::Global;

/// Plans over numbers: the shifts, the disks of a bound that is a set, and what was found, or why there is no plan.
#[unsafe(no_mangle)]
pub extern "C" fn migrate_plan_numbers(
    alloc: Global,
    split: bool,
    disks: &[DiskNumbers],
    items: &[ItemNumbers],
    shifts: &mut [ShiftNumbers],
    count: &mut usize,
    set: &mut [u32],
    set_count: &mut usize,
    found: &mut Found,
    refused: &mut Refused,
) -> u32
    // Each item that is to go to another disk has one row, to the lowest free slot of that disk; no round is past the limit of a disk; the bound holds.
    ensures done { result ≡ 0 → HandsPlan split disks.now items.now shifts.old shifts.new count.new set.old set.new set_count.new found.new × (count.new ≤ length shifts.old) }
    ensures short { result ≡ TOO_SHORT → HandsPlan split disks.now items.now shifts.old shifts.new count.new set.old set.new set_count.new found.new × (length shifts.old < count.new) }
    ensures roomy { length items.now ≤ length shifts.old → result ≢ TOO_SHORT }
    ensures refused { result ≡ 3 → Refuses split disks.now items.now refused.new }
    ensures kept { (result ≡ 3) ⊎ (result ≡ 7) → (shifts.new ≡ shifts.old) × (set.new ≡ set.old) }
    ensures statuses { (result ≡ 0) ⊎ (result ≡ 3) ⊎ (result ≡ 7) ⊎ (result ≡ TOO_SHORT) }
{
    plan_numbers(
        alloc, split, disks, items, shifts, count, set, set_count, found, refused,
    )
}

/// Schedules transfers without slots: a round for each pair of disks.
#[unsafe(no_mangle)]
pub extern "C" fn migrate_schedule(
    alloc: Global,
    split: bool,
    limits: &[LimitNumbers],
    pairs: &[PairNumbers],
    rounds: &mut [u32],
    set: &mut [u32],
    set_count: &mut usize,
    found: &mut Found,
    refused: &mut Refused,
) -> u32
    ensures done { result ≡ 0 → HandsRounds split limits.now pairs.now rounds.new set.old set.new set_count.new found.new }
    ensures short { (result ≡ TOO_SHORT) ↔ (length rounds.old < length pairs.now) }
    ensures refused { result ≡ 3 → Refuses split (disks_for limits.now) (items_for pairs.now) refused.new }

    // Neither slots nor room are a cause.
    ensures slotless { result ≡ 3 → IsOfPairs refused.new.cause }
    ensures kept { result ≢ 0 → (rounds.new ≡ rounds.old) × (set.new ≡ set.old) }
    ensures statuses { (result ≡ 0) ⊎ (result ≡ 3) ⊎ (result ≡ 7) ⊎ (result ≡ TOO_SHORT) }
{
    schedule(
        alloc, split, limits, pairs, rounds, set, set_count, found, refused,
    )
}

/// Judges the shifts of a plan over numbers, and what was found with it.
#[unsafe(no_mangle)]
pub extern "C" fn migrate_check_numbers(
    alloc: Global,
    split: bool,
    disks: &[DiskNumbers],
    items: &[ItemNumbers],
    shifts: &[ShiftNumbers],
    set: &[u32],
    found: &Found,
    verdict: &mut Judged,
    refused: &mut Refused,
) -> u32
    // The plan that the shifts spell runs and moves each relocated item once, what was found is so, and the verdict says whether no plan is shorter by the bound.
    ensures right { result ≡ 0 → AreRightNumbers split disks.now items.now shifts.now set.now found.now verdict.new }
    ensures blamed { result ≡ 1 → IsBlamed split disks.now items.now shifts.now set.now found.now verdict.new }
    ensures refused { result ≡ 3 → Refuses split disks.now items.now refused.new }
    ensures unspelled { result ≡ 10 → IsUnspelled split disks.now items.now shifts.now set.now found.now verdict.new }
    ensures statuses { (result ≡ 0) ⊎ (result ≡ 1) ⊎ (result ≡ 3) ⊎ (result ≡ 7) ⊎ (result ≡ 10) }
{
    check_numbers(
        alloc, split, disks, items, shifts, set, found, verdict, refused,
    )
}

/// Plans over numbers where disks may be too full for old and incoming items together: single shifts, one a round, or why there are none.
#[unsafe(no_mangle)]
pub extern "C" fn migrate_plan_tight_numbers(
    alloc: Global,
    split: bool,
    disks: &[DiskNumbers],
    items: &[ItemNumbers],
    shifts: &mut [ShiftNumbers],
    count: &mut usize,
    refused: &mut Refused,
) -> u32
    // The shifts run, and bring each item to its next disk: one that is there already has none, another one or two.
    ensures done { result ≡ 0 → HandsTight split disks.now items.now shifts.old shifts.new count.new × (count.new ≤ length shifts.old) }
    ensures short { result ≡ TOO_SHORT → HandsTight split disks.now items.now shifts.old shifts.new count.new × (length shifts.old < count.new) }
    ensures roomy { 2 * length items.now ≤ length shifts.old → result ≢ TOO_SHORT }
    ensures refused { result ≡ 3 → RefusesUnfit split disks.now items.now refused.new }
    ensures no_plan { result ≡ 13 → AreThere split disks.now items.now × IsNoPlan (input_of split disks.now items.now) refused.new }
    ensures kept { (result ≡ 3) ⊎ (result ≡ 7) ⊎ (result ≡ 13) → shifts.new ≡ shifts.old }
    ensures statuses { (result ≡ 0) ⊎ (result ≡ 3) ⊎ (result ≡ 7) ⊎ (result ≡ 13) ⊎ (result ≡ TOO_SHORT) }
{
    plan_tight_numbers(alloc, split, disks, items, shifts, count, refused)
}

/// Finds next disks over numbers that empty a disk in the fewest rounds, and what shows that no fewer are enough.
#[unsafe(no_mangle)]
pub extern "C" fn migrate_drain_numbers(
    alloc: Global,
    split: bool,
    disks: &[DiskNumbers],
    items: &[ItemNumbers],
    disk: u32,
    next: &mut [u32],
    drained: &mut DrainNumbers,
    refused: &mut Refused,
) -> u32
    // No item's next disk is this one, there is room for all, each plan for them has so many rounds, and no other next disks need fewer.
    ensures done { result ≡ 0 → HandsDrain split disks.now items.now disk next.old next.new drained.new }
    ensures short { (result ≡ TOO_SHORT) ↔ (length next.old < length items.now) }
    ensures refused { result ≡ 3 → RefusesUnfit split disks.now items.now refused.new }
    ensures undrained { result ≡ 14 → AreThere split disks.now items.now × CantDrain (input_of split disks.now items.now) disk refused.new }
    ensures kept { result ≢ 0 → next.new ≡ next.old }
    ensures statuses { (result ≡ 0) ⊎ (result ≡ 3) ⊎ (result ≡ 7) ⊎ (result ≡ 14) ⊎ (result ≡ TOO_SHORT) }
{
    drain_numbers(alloc, split, disks, items, disk, next, drained, refused)
}
