//! Disks that are found without a search.
ghost use Rattle.std.specs.Prelude.{◌≡◌, ◌<◌, ◌≤◌, ◌+◌, ℕ, List, [], Contains, IfSome, IfNone, MatchBool, OnOk, length};

use indexmap::IndexSet;
use mig_base::Name;
use std::alloc::{AllocError, Global};
use std::marker::Model;

/// Disks, each once.
#[derive(Drop)]
pub struct NamedDisks {
    names: IndexSet<Name>,
}

impl Model for NamedDisks {
    ghost use Rattle.std.specs.Prelude.{ℕ, List};

    ghost Value = { List (List ℕ) };

    ghost view = { λ s. s.names.keys };
}

impl NamedDisks {
    /// No disks.
    pub fn new(alloc: Global) -> NamedDisks
        ensures { result ≡ [] }
    {
        NamedDisks {
            names: IndexSet::new(alloc),
        }
    }

    /// How many there are.
    pub fn len(&self) -> usize
        ensures { result ≡ length self.now }
    {
        self.names.len()
    }

    /// One of them, where there are some.
    pub fn last(&self) -> Option<Name>
        ensures one { IfSome result (λ name. Contains self.now name) }
        ensures none { IfNone result (self.now ≡ []) }
    {
        self.names.last().copied()
    }

    /// Whether the disk is one of these.
    pub fn holds(&self, name: &Name) -> bool
        ensures { MatchBool result (Contains self.now name.now) (¬ (Contains self.now name.now)) }
    {
        self.names.contains(name)
    }

    /// Adds a disk, unless it is there. An error is want of memory.
    pub fn insert(&mut self, name: &Name) -> Result<(), AllocError>
        ensures noted { OnOk result (Contains self.new name.now) }
        ensures kept { (p : List ℕ) → Contains self.old p → Contains self.new p }
    {
        match self.names.insert(*name) {
            Ok(_) => Ok(()),
            Err(_) => Err(AllocError),
        }
    }

    /// Takes a disk out.
    pub fn remove(&mut self, name: &Name)
        ensures kept { (p : List ℕ) → ¬ (p ≡ name.now) → Contains self.old p → Contains self.new p }
        ensures shorter { Contains self.old name.now → length self.new + 1 ≤ length self.old }
    {
        let _ = self.names.swap_remove(name);
    }
}
