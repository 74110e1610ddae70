//! The input of a migration.
ghost use Rattle.std.specs.Prelude.{◌≡◌, ◌<◌, length};
ghost use Rattle.mig_base.specs.InputLists.{IsInRange, is_split, most_ends};

use crate::ids::{DiskId, ItemId, Spot};
use crate::names::Name;
use std::marker::Model;

/// How many transfers of one round a disk may have.
#[derive(Clone, Copy, PartialEq, Eq)]
pub enum Limits {
    /// At most so many have the disk as an end; one inside the disk counts once.
    Joint { limit: u32 },
    /// At most so many leave the disk, and at most so many reach it.
    Split { outgoing: u32, incoming: u32 },
}

impl Limits {
    /// Whether the limits are split.
    pub fn is_split(self) -> bool
        ensures { result ≡ is_split self }
    {
        matches!(self, Limits::Split { .. })
    }

    /// How many transfers of a round may have the disk as an end: its joint limit, or its two limits together.
    pub fn most_ends(self) -> u32
        requires { IsInRange self }
        ensures { result ≡ most_ends self }
    {
        match self {
            Limits::Joint { limit } => limit,
            Limits::Split { outgoing, incoming } => outgoing + incoming,
        }
    }
}

/// A disk: its limits in a round, and it has so many slots.
#[derive(Clone, Copy, PartialEq, Eq)]
pub struct Disk {
    pub name: Name,
    pub limits: Limits,
    pub slots: u32,
}

/// Disks, items by name, where each item is and to which disk it is to go.
pub struct Input {
    disks: Vec<Disk>,
    items: Vec<Name>,
    spots: Vec<Spot>,
    next: Vec<DiskId>,
}

impl Drop for Input {
    fn drop(self) {
        let Input {
            disks: _disks,
            items: _items,
            spots: _spots,
            next: _next,
        } = self;
    }
}

impl Model for Input {
    ghost use Rattle.mig_base.specs.InputLists.{InputLists};

    ghost Value = { InputLists };

    ghost use Rattle.mig_base.specs.InputFields.{lists_of, KeepsInput};

    ghost view = { lists_of };

    ghost invariant = { KeepsInput };
}

impl Input {
    ghost use Rattle.mig_base.specs.InputLists.{IsInput, is_duplex};
    ghost use Rattle.mig_base.specs.Transfers.{is_relocated};

    /// The input of these lists.
    pub fn new(disks: Vec<Disk>, items: Vec<Name>, now: Vec<Spot>, next: Vec<DiskId>) -> Input
        requires { IsInput (record { disks = disks.items; items = items.items; spots = now.items; next = next.items }) }
        ensures { result ≡ record { disks = disks.items; items = items.items; spots = now.items; next = next.items } }
    {
        Input {
            disks,
            items,
            spots: now,
            next,
        }
    }

    /// The input keeps the rules of every input. The call does nothing; it is made where a proof needs them.
    pub fn keeps_rules(&self)
        ensures { IsInput self.now }
    {
        let _disks = self.disks();
    }

    /// The disks.
    pub fn disks(&self) -> &[Disk]
        ensures value { result.now ≡ self.now.disks }
        ensures valid { IsInput self.now }
    {
        self.disks.as_slice()
    }

    /// The items' names.
    pub fn items(&self) -> &[Name]
        ensures value { result.now ≡ self.now.items }
        ensures valid { IsInput self.now }
    {
        self.items.as_slice()
    }

    /// Each item's spot.
    pub fn now(&self) -> &[Spot]
        ensures value { result.now ≡ self.now.spots }
        ensures valid { IsInput self.now }
    {
        self.spots.as_slice()
    }

    /// The disk that each item is to go to.
    pub fn next(&self) -> &[DiskId]
        ensures value { result.now ≡ self.now.next }
        ensures valid { IsInput self.now }
    {
        self.next.as_slice()
    }

    /// Whether there is a disk and its limits are split. All disks have limits of one kind.
    pub fn duplex(&self) -> bool
        ensures { result ≡ is_duplex self.now.disks }
    {
        match self.disks.first() {
            Some(disk) => disk.limits.is_split(),
            None => false,
        }
    }

    /// Whether the item is to go to another disk.
    pub fn relocated(&self, item: ItemId) -> bool
        requires { item.0 < length self.now.items }
        ensures { result ≡ is_relocated self.now item.0 }
    {
        self.spots[item.0 as usize].disk != self.next[item.0 as usize]
    }
}
