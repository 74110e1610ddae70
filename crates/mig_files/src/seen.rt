//! Where this process has seen items.
#![tactic(auto, using(crate::proofs::SeenItems::seen_by, crate::proofs::SeenItems::noted_put, crate::proofs::SeenItems::noted_taken))]

ghost use Rattle.std.specs.Prelude.{◌≡◌, ◌≢◌, Some, None, [], MatchBool, IfOk, IfSome, OnOk, OnErr};
ghost use Rattle.mig_files.specs.Counting.{IsNotedAt};
ghost use Rattle.mig_files.specs.Seeing.{seen_at, seen_in, KeepsSeen};
ghost use Rattle.mig_store.specs.Grounds.{IsElsewhere};

use crate::item_counts::ItemCounts;
use indexmap::IndexMap;
use mig_base::{Cell, Name};
use std::alloc::{AllocError, Global};
use std::marker::Model;

/// At each slot the item that this process has seen there since it last wrote to it.
#[derive(Drop)]
pub struct SeenItems {
    slots: IndexMap<Cell, Name>,
    // At how many slots each item was seen.
    counts: ItemCounts,
}

impl Model for SeenItems {
    ghost use Rattle.std.specs.Prelude.{ℕ, List, Option};
    ghost use Rattle.mig_base.specs.declared.cells.Cell.{Cell};
    ghost use Rattle.mig_files.specs.Counting.{AreCounted};

    ghost Value = { List (Cell × List ℕ) };

    ghost view = { λ s. s.slots.entries };

    ghost invariant = { λ s. AreCounted s.slots.entries s.counts };
}

// Puts an item to a slot, and answers which was seen there before. Only a slot that is new takes memory.
fn put_at(
    slots: &mut IndexMap<Cell, Name>,
    slot: &Cell,
    item: &Name,
) -> Result<Option<Name>, AllocError>
    ensures before { IfOk result (λ before. before ≡ seen_at slots.old.entries slot.now) }
    ensures put { OnOk result (IsNotedAt slot.now (Some item.now) slots.old.entries slots.new.entries) }
    ensures failed { OnErr result (slots.new.entries ≡ slots.old.entries) }
    ensures absent { OnErr result (seen_at slots.old.entries slot.now ≡ None) }
{
    match slots.insert(*slot, *item) {
        Ok(before) => Ok(before),
        Err(_) => Err(AllocError),
    }
}

// Takes the item that was seen at a slot.
fn take_at(slots: &mut IndexMap<Cell, Name>, slot: &Cell) -> Option<Name>
    ensures before { result ≡ seen_at slots.old.entries slot.now }
    ensures taken { IsNotedAt slot.now None slots.old.entries slots.new.entries }
{
    slots.swap_remove(slot)
}

impl SeenItems {
    /// No item was seen yet.
    pub fn new(alloc: Global) -> SeenItems
        ensures { result ≡ [] }
    {
        SeenItems {
            slots: IndexMap::new(alloc),
            counts: ItemCounts::new(alloc),
        }
    }

    /// The item that was seen at a slot.
    pub fn at(&self, slot: &Cell) -> Option<Name>
        ensures { result ≡ seen_at self.now slot.now }
    {
        self.slots.get(slot).copied()
    }

    /// Notes that a slot holds an item, and from where it was copied to it, if it was. An error is want of memory.
    pub fn note(&mut self, item: &Name, slot: &Cell, from: Option<Cell>) -> Result<(), AllocError>
        requires { IfSome from (λ other. (other ≢ slot.now) × (seen_at self.old other ≡ Some item.now)) }
        ensures noted { OnOk result (seen_at self.new slot.now ≡ Some item.now) }
        ensures failed { OnErr result (seen_at self.new slot.now ≡ None) }
        ensures others { KeepsSeen self.old self.new slot.now }
    {
        let before = put_at(&mut self.slots, slot, item)?;
        if before == Some(*item) {
            return Ok(());
        }
        // The item counts at no more slots than there are, so one more fits.
        let _len = self.slots.len();
        self.counts.lower(before);
        match self.counts.raise(item, from.is_some()) {
            Ok(()) => Ok(()),
            Err(failed) => {
                let _ = take_at(&mut self.slots, slot);
                Err(failed)
            }
        }
    }

    /// Forgets what a slot holds, which is about to be written.
    pub fn forget(&mut self, slot: &Cell)
        ensures forgotten { seen_at self.new slot.now ≡ None }
        ensures others { KeepsSeen self.old self.new slot.now }
    {
        let before = take_at(&mut self.slots, slot);
        self.counts.lower(before);
    }

    /// Whether an item was seen at another slot than this one.
    pub fn is_elsewhere(&self, item: &Name, slot: &Cell) -> bool
        ensures { MatchBool result (IsElsewhere (seen_in self.now) item.now slot.now) (¬ (IsElsewhere (seen_in self.now) item.now slot.now)) }
    {
        match self.counts.up_to_two(item) {
            0 => false,
            1 => self.slots.get(slot).copied() != Some(*item),
            _ => true,
        }
    }
}
