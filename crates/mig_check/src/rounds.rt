//! The rounds of a plan, one after another.
ghost use Rattle.std.specs.Prelude.{◌≡◌, ◌≢◌, ℕ, ◌+◌, ◌<◌, ◌≤◌, suc, All, AllPairs, IfErr, IfOk, OnOk, Some, length};
ghost use Rattle.mig_base.specs.Checks.{RoundBlame};
ghost use Rattle.mig_base.specs.InputLists.{InputLists};
ghost use Rattle.mig_base.specs.Judging.{IsRunBlame};
ghost use Rattle.mig_base.specs.Layouts.{At, IsLayout, IsListOf, round_at};
ghost use Rattle.mig_base.specs.Running.{IsLegal, PlanFits, ShiftFits};
ghost use Rattle.mig_check.specs.SpotSets.{has_spot};
ghost use Rattle.mig_check.specs.Start.{IsStart};
ghost use Rattle.mig_check.specs.Tables.{IsTakenSet, HaveRoom, after_round, layout_of};

use crate::ends::check_limits;
use crate::shifts::{check_room, find_elsewhere, find_repeat, free_sources, move_items};
use crate::taken::{Taken, take_all};
use mig_base::{Blame, Input, MAX_SHIFTS, Round, Shift, Spot};
use std::alloc::{AllocError, Global};

/// What a check keeps from round to round, besides the layout: the spots that are taken, for each
/// item the number of its last round, and for each disk the ends that are counted.
#[derive(Drop)]
pub struct Tables {
    taken: Taken,
    seen: Vec<u32>,
    counts: Vec<u32>,
}

impl Tables {
    /// The tables before the first round.
    pub fn new(alloc: Global, input: &Input) -> Result<Tables, AllocError>
        ensures { IfOk result (IsStart input.now) }
    {
        Ok(Tables {
            taken: take_all(alloc, input.now())?,
            seen: vec![in alloc; 0; input.items().len()]?,
            counts: vec![in alloc; 0; input.disks().len()]?,
        })
    }
}

/// Checks the items of a round, which has this number, against where they are: there is a shift, each
/// leaves its item's spot, and no two have one item. Items that the round shifts get its number.
fn check_items(spots: &[Spot], seen: &mut [u32], number: u32, round: &[Shift]) -> Result<(), Blame>
    requires items { All (λ s. s.item.0 < length spots.now) round.now }
    requires len { length seen.old ≡ length spots.now }
    requires earlier { All (λ n. n < number) seen.old }
    ensures some { OnOk result (0 < length round.now) }
    ensures leaves { OnOk result (All (λ s. layout_of spots.now s.item.0 ≡ Some s.from) round.now) }
    ensures once { OnOk result (AllPairs (λ s t. s.item ≢ t.item) round.now) }
    ensures blame { (input : InputLists) → IfErr result (RoundBlame input (layout_of spots.now) round.now number) }
    ensures later { All (λ n. n ≤ number) seen.new }
{
    if round.is_empty() {
        return Err(Blame::EmptyRound { round: number });
    }
    if let Some(item) = find_elsewhere(spots, round) {
        return Err(Blame::NotHere {
            round: number,
            item,
        });
    }
    if let Some(item) = find_repeat(seen, number, round) {
        return Err(Blame::TwiceInRound {
            round: number,
            item,
        });
    }
    Ok(())
}

/// Checks a round, which has this number, against the layout before it.
fn check_round(
    input: &Input,
    spots: &[Spot],
    tables: &mut Tables,
    number: u32,
    round: &[Shift],
) -> Result<(), Blame>
    requires fits { All (ShiftFits input.now) round.now }
    requires few { length round.now ≤ MAX_SHIFTS }
    requires spots { length spots.now ≡ length input.now.items }
    requires taken { IsTakenSet (has_spot tables.old.taken) (layout_of spots.now) }
    requires seen_len { length tables.old.seen.items ≡ length input.now.items }
    requires seen { All (λ n. n < number) tables.old.seen.items }
    requires counts_len { length tables.old.counts.items ≡ length input.now.disks }
    requires counts { All (λ n. n ≡ 0) tables.old.counts.items }
    ensures ok { OnOk result (IsLegal input.now (layout_of spots.now) round.now) }
    ensures room { OnOk result (HaveRoom input.now.disks (has_spot tables.old.taken) round.now (length round.now) (has_spot tables.new.taken)) }
    ensures blame { IfErr result (RoundBlame input.now (layout_of spots.now) round.now number) }
    ensures seen_after { OnOk result (All (λ n. n ≤ number) tables.new.seen.items) }
    ensures counts_after { OnOk result (All (λ n. n ≡ 0) tables.new.counts.items) }
    ensures lens { (length tables.new.seen.items ≡ length input.now.items)
        × (length tables.new.counts.items ≡ length input.now.disks) }
{
    check_items(spots, &mut tables.seen, number, round)?;
    match check_room(input, spots, &mut tables.taken, round) {
        Err(_) => return Err(Blame::Memory),
        Ok(Some(item)) => {
            return Err(Blame::SlotNotFree {
                round: number,
                item,
            });
        }
        Ok(None) => {}
    }
    if let Some((disk, count)) = check_limits(input, &mut tables.counts, round) {
        return Err(Blame::OverLimit {
            round: number,
            disk,
            count,
        });
    }
    Ok(())
}

/// Checks a round and goes on to the layout after it.
fn step(
    input: &Input,
    spots: &mut [Spot],
    tables: &mut Tables,
    number: u32,
    round: &[Shift],
) -> Result<(), Blame>
    requires fits { All (ShiftFits input.now) round.now }
    requires few { length round.now ≤ MAX_SHIFTS }
    requires spots { length spots.old ≡ length input.now.items }
    requires layout { IsLayout input.now (layout_of spots.old) }
    requires taken { IsTakenSet (has_spot tables.old.taken) (layout_of spots.old) }
    requires seen_len { length tables.old.seen.items ≡ length input.now.items }
    requires seen { All (λ n. n < number) tables.old.seen.items }
    requires counts_len { length tables.old.counts.items ≡ length input.now.disks }
    requires counts { All (λ n. n ≡ 0) tables.old.counts.items }
    ensures ok { OnOk result (IsLegal input.now (layout_of spots.old) round.now) }
    ensures after { OnOk result (spots.new ≡ after_round spots.old round.now) }
    ensures layout_after { OnOk result (IsLayout input.now (layout_of spots.new)) }
    ensures taken_after { OnOk result (IsTakenSet (has_spot tables.new.taken) (layout_of spots.new)) }
    ensures blame { IfErr result (RoundBlame input.now (layout_of spots.old) round.now number) }
    ensures seen_after { OnOk result (All (λ n. n ≤ number) tables.new.seen.items) }
    ensures counts_after { OnOk result (All (λ n. n ≡ 0) tables.new.counts.items) }
    ensures lens { (length tables.new.seen.items ≡ length input.now.items)
        × (length tables.new.counts.items ≡ length input.now.disks) }
{
    check_round(input, spots, tables, number, round)?;
    move_items(spots, round);
    free_sources(&mut tables.taken, round);
    Ok(())
}

/// Checks the rounds one after another, and gives the layout after the last.
pub fn check_rounds(
    input: &Input,
    spots: &mut [Spot],
    tables: &mut Tables,
    rounds: &[Round],
) -> Result<(), Blame>
    requires fits { PlanFits input.now rounds.now }
    requires spots { spots.old ≡ input.now.spots }
    requires tables { IsStart input.now tables.old }
    ensures ok { OnOk result ((r : ℕ) → r < length rounds.now
        → IsLegal input.now (At input.now rounds.now r) (round_at rounds.now (suc r))) }
    ensures layout { OnOk result (IsListOf (At input.now rounds.now (length rounds.now)) spots.new) }
    ensures len { OnOk result (length spots.new ≡ length input.now.items) }
    ensures blame { IfErr result (IsRunBlame input.now rounds.now) }
{
    input.keeps_rules();
    for (k, round) in rounds.iter().enumerate() {
        if let Err(blame) = step(input, spots, tables, k as u32 + 1, round.shifts()) {
            return Err(blame);
        }
    }
    Ok(())
}
