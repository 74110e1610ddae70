//! Schedules: a round for each pair of disks.
ghost use Rattle.std.specs.Prelude.{◌≡◌, ◌≢◌, ◌↔◌, ◌⊎◌, ◌≤◌, ◌<◌, All, IfErr, IfOk, ℕ, if◌then◌else◌, length, map, slice_index_or};
ghost use Rattle.std.specs.List.{list_any};
ghost use Rattle.mig_base.specs.Running.{is_of};
ghost use Rattle.mig_numbers.specs.Refusals.{IsNumbersRefusal, Refuses};
ghost use Rattle.mig_numbers.specs.Rounds.{HandsRounds, IsOfPairs, disk_for, disks_for, items_for, round_in};

use crate::numbers::{
    DiskNumbers, Found, ItemNumbers, LimitNumbers, NumbersRefusal, PairNumbers, Refused,
};
use crate::planning::plan_input;
use crate::reading::read_numbers;
use crate::writing::{found_in, refused_in, write_set};
use mig_base::{MAX_DISKS, MAX_ITEMS, MAX_ROUNDS, MAX_SLOTS, Plan, Shift};
use std::alloc::{AllocError, Global};

/// A disk with room for all.
fn disk_for(limits: LimitNumbers) -> DiskNumbers
    ensures { result ≡ disk_for limits }
{
    DiskNumbers {
        out_limit: limits.out_limit,
        in_limit: limits.in_limit,
        slots: MAX_SLOTS,
    }
}

/// The disks.
fn make_rooms(alloc: Global, limits: &[LimitNumbers]) -> Result<Vec<DiskNumbers>, AllocError>
    ensures { IfOk result (λ v. v.items ≡ disks_for limits.now) }
{
    limits.iter().map(|l| disk_for(*l)).collect(alloc)
}

/// An item for each pair, in the slot of its number.
fn make_movers(alloc: Global, pairs: &[PairNumbers]) -> Result<Vec<ItemNumbers>, AllocError>
    requires { length pairs.now ≤ MAX_ITEMS }
    ensures { IfOk result (λ v. v.items ≡ items_for pairs.now) }
{
    let mut items = Vec::with_capacity(alloc, pairs.len())?;
    for (k, pair) in pairs.iter().enumerate() {
        items.push(ItemNumbers {
            disk: pair.from,
            slot: k as u32,
            next_disk: pair.to,
        })?;
    }
    Ok(items)
}

/// Gives the items of these shifts the round.
fn mark_round(rounds: &mut [u32], round: u32, shifts: &[Shift])
    requires { All (λ s. s.item.0 < length rounds.old) shifts.now }
    ensures { (i : ℕ) → i < length rounds.old → slice_index_or rounds.new i 0 ≡ (if list_any (is_of i) shifts.now then round else slice_index_or rounds.old i 0) }
{
    for shift in shifts {
        rounds[shift.item.0 as usize] = round;
    }
}

/// Gives each item its round in a plan, or 0.
fn mark_plan(rounds: &mut [u32], plan: &Plan)
    requires few { length plan.now ≤ MAX_ROUNDS }
    requires within { All (λ round. All (λ s. s.item.0 < length rounds.old) round) plan.now }
    requires zeros { (i : ℕ) → i < length rounds.old → slice_index_or rounds.old i 0 ≡ 0 }
    ensures { (i : ℕ) → i < length rounds.old → slice_index_or rounds.new i 0 ≡ round_in plan.now (length plan.now) i }
{
    for (k, round) in plan.rounds().iter().enumerate() {
        mark_round(rounds, k as u32 + 1, round.shifts());
    }
}

/// Zeros.
fn clear(rounds: &mut [u32])
    ensures { (i : ℕ) → i < length rounds.old → slice_index_or rounds.new i 0 ≡ 0 }
{
    for round in rounds.iter_mut() {
        *round = 0;
    }
}

/// How many disks a bound's set has, and what was found.
#[derive(Clone, Copy)]
struct Scheduled {
    set_disks: usize,
    found: Found,
}

/// Schedules, where there is room for all rounds.
fn schedule_into(
    alloc: Global,
    split: bool,
    limits: &[LimitNumbers],
    pairs: &[PairNumbers],
    rounds: &mut [u32],
    set: &mut [u32],
) -> Result<Scheduled, NumbersRefusal>
    requires { length pairs.now ≤ length rounds.old }
    ensures scheduled { IfOk result (λ done. HandsRounds split limits.now pairs.now rounds.new set.old set.new done.set_disks done.found) }
    ensures refused { IfErr result (IsNumbersRefusal split (disks_for limits.now) (items_for pairs.now)) }
    ensures kept { IfErr result (λ _. (rounds.new ≡ rounds.old) × (set.new ≡ set.old)) }
{
    if limits.len() > MAX_DISKS {
        return Err(NumbersRefusal::TooManyDisks);
    }
    if pairs.len() > MAX_ITEMS {
        return Err(NumbersRefusal::TooManyItems);
    }
    let Ok(disks) = make_rooms(alloc, limits) else {
        return Err(NumbersRefusal::Memory);
    };
    let Ok(items) = make_movers(alloc, pairs) else {
        return Err(NumbersRefusal::Memory);
    };
    let input = read_numbers(alloc, split, &disks, &items)?;
    let Ok(made) = plan_input(alloc, &input) else {
        return Err(NumbersRefusal::Memory);
    };
    clear(rounds);
    mark_plan(rounds, &made.plan);
    Ok(Scheduled {
        set_disks: write_set(set, &made.cert.bound),
        found: found_in(&made.cert),
    })
}

/// Schedules transfers without slots: a round for each pair of disks, counted from 1, or 0 where both are one disk; the disks of a
/// bound that is a set, as many as fit; and what was found, or why there is no schedule, where items stand for pairs.
///
/// Statuses: 0, 3, 7, and 100 where there is room for fewer rounds than pairs.
pub fn schedule(
    alloc: Global,
    split: bool,
    limits: &[LimitNumbers],
    pairs: &[PairNumbers],
    rounds: &mut [u32],
    set: &mut [u32],
    set_count: &mut usize,
    found: &mut Found,
    refused: &mut Refused,
) -> u32
    ensures done { result ≡ 0 → HandsRounds split limits.now pairs.now rounds.new set.old set.new set_count.new found.new }
    ensures short { (result ≡ 100) ↔ (length rounds.old < length pairs.now) }
    ensures refused { result ≡ 3 → Refuses split (disks_for limits.now) (items_for pairs.now) refused.new }

    // Neither slots nor room are a cause.
    ensures slotless { result ≡ 3 → IsOfPairs refused.new.cause }
    ensures kept { result ≢ 0 → (rounds.new ≡ rounds.old) × (set.new ≡ set.old) }
    ensures statuses { (result ≡ 0) ⊎ (result ≡ 3) ⊎ (result ≡ 7) ⊎ (result ≡ 100) }
{
    if rounds.len() < pairs.len() {
        return 100;
    }
    match schedule_into(alloc, split, limits, pairs, rounds, set) {
        Ok(done) => {
            *set_count = done.set_disks;
            *found = done.found;
            0
        }
        Err(NumbersRefusal::Memory) => 7,
        Err(why) => {
            *refused = refused_in(why);
            3
        }
    }
}
