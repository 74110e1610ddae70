//! Disks and items by name.
ghost use Rattle.std.specs.Prelude.{◌≡◌, ◌≢◌, ◌<◌, ℕ, ◌∷◌, ◌++◌, [], Some, All, Contains, length, slice_get, IfOk, MatchOption, OnOk};
ghost use Rattle.mig_base.specs.InputLists.{AreDifferent, IsInput};
ghost use Rattle.mig_base.specs.Naming.{IsName};
ghost use Rattle.mig_base.specs.Texts.{disk_name, item_name};
ghost use Rattle.mig_text.specs.Finding.{listed_names};

use mig_base::{Disk, DiskId, Input, ItemId, Name};
use mig_keys::KeyTable;
use std::alloc::{AllocError, Global};
use std::marker::Model;

/// Finds the disks and items of an input by name.
pub struct Finder<'a> {
    input: &'a Input,
    disks: KeyTable<Name>,
    items: KeyTable<Name>,
}

impl Drop for Finder<'_> {
    fn drop(self) {
        let Finder {
            input: _,
            disks: _disks,
            items: _items,
        } = self;
    }
}

impl<'a> Model for Finder<'a> {
    ghost use Rattle.mig_base.specs.InputLists.{InputLists};
    ghost use Rattle.mig_text.specs.Finding.{IsFinderOf};

    ghost Value = { InputLists };

    ghost view = { λ a. a.input.now };

    ghost invariant = { λ a. IsFinderOf a.input.now a.disks a.items };
}

impl<'a> Finder<'a> {
    /// The finder of an input. An error is want of memory.
    pub fn of(alloc: Global, input: &'a Input) -> Result<Finder<'a>, AllocError>
        ensures value { IfOk result (λ f. f ≡ input.now) }
        ensures valid { OnOk result (IsInput input.now) }
    {
        Ok(Finder {
            input,
            disks: disk_names(alloc, input.disks())?,
            items: KeyTable::of(alloc, input.items())?,
        })
    }

    /// The input.
    pub fn input(&self) -> &Input
        ensures value { result.now ≡ self.now }
        ensures valid { IsInput self.now }
    {
        self.input
    }

    /// The input keeps the rules of every input. The call does nothing; it is made where a proof needs them.
    pub fn keeps_rules(&self)
        ensures { IsInput self.now }
    {
        self.input.keeps_rules();
    }

    /// The disk with this name.
    pub fn disk(&self, word: &[u8]) -> Option<DiskId>
        ensures found { MatchOption result ((d : ℕ) → d < length self.now.disks → word.now ≢ disk_name self.now d)
            (λ d. (d.0 < length self.now.disks) × (word.now ≡ disk_name self.now d.0)) }
        ensures valid { IsInput self.now }
    {
        let k = place(&self.disks, word)?;
        Some(DiskId(k as u32))
    }

    /// The item with this name.
    pub fn item(&self, word: &[u8]) -> Option<ItemId>
        ensures found { MatchOption result ((i : ℕ) → i < length self.now.items → word.now ≢ item_name self.now i)
            (λ i. (i.0 < length self.now.items) × (word.now ≡ item_name self.now i.0)) }
        ensures valid { IsInput self.now }
    {
        let k = place(&self.items, word)?;
        Some(ItemId(k as u32))
    }
}

/// The place of the name with these bytes.
fn place(table: &KeyTable<Name>, word: &[u8]) -> Option<usize>
    requires { All IsName table.now }
    ensures { MatchOption result (¬ (Contains table.now word.now)) (λ k. slice_get table.now k ≡ Some word.now) }
{
    let name = Name::read(word)?;
    table.find(&name)
}

/// The names of disks.
fn disk_names(alloc: Global, disks: &[Disk]) -> Result<KeyTable<Name>, AllocError>
    requires { AreDifferent (listed_names disks.now) }
    ensures { IfOk result (λ t. t ≡ listed_names disks.now) }
{
    let mut table = KeyTable::with_capacity(alloc, disks.len())?;
    for disk in disks {
        table.push(disk.name)?;
    }
    Ok(table)
}
