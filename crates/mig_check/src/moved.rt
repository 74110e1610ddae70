//! How often each item is moved.
ghost use Rattle.std.specs.Prelude.{◌≡◌, ◌≢◌, ℕ, ◌+◌, ◌<◌, ◌≤◌, All, AllPairs, IfErr, IfNone, IfSome, OnOk, count_by, length, slice_index};
ghost use Rattle.mig_base.specs.Judging.{IsLeast};
ghost use Rattle.mig_base.specs.Running.{Once, PlanFits, Runs, is_of, shift_count};
ghost use Rattle.mig_check.specs.Faults.{IsOnceBlame};
ghost use Rattle.mig_check.specs.Counts.{IsTooOften};

use mig_base::{Blame, Input, ItemId, MAX_ROUNDS, MAX_SHIFTS, Plan, Round, Shift};
use std::alloc::Global;

/// Whether a plan that runs moves each relocated item once and no other item.
pub fn check_once(alloc: Global, input: &Input, plan: &Plan) -> Result<(), Blame>
    requires fits { PlanFits input.now plan.now }
    requires runs { Runs input.now plan.now }
    ensures once { OnOk result (Once input.now plan.now) }
    ensures blame { IfErr result (IsOnceBlame input.now plan.now) }
{
    let Ok(mut counts) = vec![in alloc; 0; input.items().len()] else {
        return Err(Blame::Memory);
    };
    check_counts(input, &mut counts, plan.rounds())
}

/// Counts the shifts of each item, and looks for one that is moved too often.
fn check_counts(input: &Input, counts: &mut [u32], rounds: &[Round]) -> Result<(), Blame>
    requires fits { PlanFits input.now rounds.now }
    requires runs { Runs input.now rounds.now }
    requires len { length counts.old ≡ length input.now.items }
    requires zero { All (λ n. n ≡ 0) counts.old }
    ensures once { OnOk result (Once input.now rounds.now) }
    ensures blame { IfErr result (IsOnceBlame input.now rounds.now) }
{
    input.keeps_rules();
    count_rounds(input, counts, rounds);
    match find_moved(input, counts) {
        Some((item, count)) => Err(Blame::MovedTooOften { item, count }),
        None => Ok(()),
    }
}

/// Counts the shifts of each item, where nothing is counted yet.
fn count_rounds(input: &Input, counts: &mut [u32], rounds: &[Round])
    requires fits { PlanFits input.now rounds.now }
    requires runs { Runs input.now rounds.now }
    requires len { length counts.old ≡ length input.now.items }
    requires zero { All (λ n. n ≡ 0) counts.old }
    ensures { (item : ℕ) → item < length counts.new → slice_index counts.new item ≡ shift_count rounds.now item }
{
    for round in rounds {
        count_round(counts, round.shifts());
    }
}

/// Counts the shifts of each item in a round.
fn count_round(counts: &mut [u32], round: &[Shift])
    requires items { All (λ s. s.item.0 < length counts.old) round.now }
    requires few { length round.now ≤ MAX_SHIFTS }
    requires most { All (λ n. n ≤ MAX_ROUNDS) counts.old }
    ensures { (item : ℕ) → item < length counts.new
        → slice_index counts.new item ≡ slice_index counts.old item + count_by (is_of item) round.now }
{
    for s in round {
        counts[s.item.0 as usize] += 1;
    }
}

/// The least item that is moved too often, and its number of shifts.
fn find_moved(input: &Input, counts: &[u32]) -> Option<(ItemId, u32)>
    requires { length counts.now ≡ length input.now.items }
    ensures none { IfNone result ((item : ℕ) → ¬ IsTooOften input.now counts.now item) }
    ensures some { IfSome result (λ r. IsLeast (IsTooOften input.now counts.now) r.0.0) }
    ensures count { IfSome result (λ r. r.1 ≡ slice_index counts.now r.0.0) }
{
    input.keeps_rules();
    for (i, count) in counts.iter().enumerate() {
        let item = ItemId(i as u32);
        if *count > 1 || *count > 0 && !input.relocated(item) {
            return Some((item, *count));
        }
    }
    None
}
