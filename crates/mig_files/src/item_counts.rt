//! A number for each item.
#![tactic(auto, using(crate::proofs::ItemCounts::counted_up, crate::proofs::ItemCounts::raised))]

ghost use Rattle.std.specs.Prelude.{◌≡◌, ◌≤◌, ◌<◌, ◌+◌, ◌^◌, ℕ, List, Some, IsTrue, OnOk, OnErr};
ghost use Rattle.mig_files.specs.Counting.{item_number, is_item, item_count, one_if};

use indexmap::{IndexMap, IndexSet};
use mig_base::Name;
use std::alloc::{AllocError, Global};
use std::marker::Model;

/// A number for each item. The few that were just copied are found among few.
#[derive(Drop)]
pub struct ItemCounts {
    counts: IndexMap<Name, usize>,
    // Each of these counts once more.
    copies: IndexSet<Name>,
}

impl Model for ItemCounts {
    ghost use Rattle.std.specs.Prelude.{ℕ, List};
    ghost use Rattle.mig_files.specs.Counting.{CountMore};

    ghost Value = { List (List ℕ × ℕ) × List (List ℕ) };

    ghost view = { λ s. (s.counts.entries, s.copies.keys) };

    ghost invariant = { λ s. CountMore (s.counts.entries, s.copies.keys) };
}

// The number that a table has for an item.
fn count_in(counts: &IndexMap<Name, usize>, item: &Name) -> usize
    ensures { result ≡ item_count counts.now.entries item.now }
{
    counts.get(item).copied().unwrap_or(0)
}

// Counts an item once more. Only one that is new takes memory.
fn raise(counts: &mut IndexMap<Name, usize>, item: &Name) -> Result<(), AllocError>
    requires { item_count counts.old.entries item.now < 2 ^ 63 }
    ensures raised { OnOk result ((other : List ℕ) →
        item_count counts.new.entries other ≡ item_count counts.old.entries other + one_if (is_item other (Some item.now))) }
    ensures failed { OnErr result (counts.new.entries ≡ counts.old.entries) }
{
    match counts.entry(*item) {
        Ok(entry) => {
            *entry.or_insert(0) += 1;
            Ok(())
        }
        Err(_) => Err(AllocError),
    }
}

// Counts an item once less.
fn lower(counts: &mut IndexMap<Name, usize>, item: &Name)
    requires { 1 ≤ item_count counts.old.entries item.now }
    ensures { (other : List ℕ) → item_count counts.new.entries other + one_if (is_item other (Some item.now)) ≡ item_count counts.old.entries other }
{
    if let Some(count) = counts.get_mut(item) {
        *count -= 1;
    }
}

impl ItemCounts {
    /// Each is 0.
    pub fn new(alloc: Global) -> ItemCounts
        ensures { (item : List ℕ) → item_number result item ≡ 0 }
    {
        ItemCounts {
            counts: IndexMap::new(alloc),
            copies: IndexSet::new(alloc),
        }
    }

    /// The number of an item, or 2 where it may be more.
    pub fn up_to_two(&self, item: &Name) -> usize
        ensures few { result < 2 → item_number self.now item.now ≡ result }
        ensures many { 2 ≤ result → 2 ≤ item_number self.now item.now }
    {
        if self.copies.contains(item) {
            return 2;
        }
        count_in(&self.counts, item)
    }

    /// Counts an item once more, which counts already where it was copied. An error is want of memory.
    pub fn raise(&mut self, item: &Name, copied: bool) -> Result<(), AllocError>
        requires small { item_number self.old item.now < 2 ^ 63 }
        requires counted { IsTrue copied → 1 ≤ item_number self.old item.now }
        ensures raised { OnOk result ((other : List ℕ) → item_number self.new other ≡ item_number self.old other + one_if (is_item other (Some item.now))) }
        ensures failed { OnErr result ((other : List ℕ) → item_number self.new other ≡ item_number self.old other) }
    {
        if copied && let Ok(true) = self.copies.insert(*item) {
            return Ok(());
        }
        raise(&mut self.counts, item)
    }

    /// Counts an item, if it is one, once less.
    pub fn lower(&mut self, item: Option<Name>)
        requires { (other : List ℕ) → one_if (is_item other item) ≤ item_number self.old other }
        ensures { (other : List ℕ) → item_number self.new other + one_if (is_item other item) ≡ item_number self.old other }
    {
        let Some(item) = item else {
            return;
        };
        if self.copies.swap_remove(&item) {
            return;
        }
        lower(&mut self.counts, &item);
    }
}
