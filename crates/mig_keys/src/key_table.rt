//! Tables of keys.
ghost use Rattle.std.specs.Prelude.{◌≡◌, ◌∷◌, ◌++◌, ◌↔◌, [], Some, Contains, IfOk, IsOk, IsTrue, MatchOption, OnErr, OnOk, length, slice_get};
ghost use Rattle.mig_base.specs.InputLists.{AreDifferent};

use crate::exact::Exact;
use indexmap::IndexSet;
use std::alloc::{AllocError, Global};
use std::marker::Model;

/// Different keys in the order in which they came.
///
/// A key is found without a search through the keys.
pub struct KeyTable<K: Exact> {
    keys: IndexSet<K>,
}

impl<K: Exact> Drop for KeyTable<K> {
    fn drop(self) {
        let KeyTable { keys: _keys } = self;
    }
}

impl<K: Exact> Model for KeyTable<K> {
    ghost use Rattle.std.specs.Prelude.{List};
    ghost use Rattle.std.specs.Coded.{coded_list};
    ghost use Rattle.mig_base.specs.InputLists.{AreDifferent};

    ghost Value = { List K };

    ghost coded = { coded_list K.code };

    ghost view = { λ t. t.keys.keys };

    ghost invariant = { λ t. AreDifferent t.keys.keys };
}

impl<K: Exact> KeyTable<K> {
    /// A table with no key.
    pub fn new(alloc: Global) -> KeyTable<K>
        ensures { result ≡ [] }
    {
        KeyTable {
            keys: IndexSet::new(alloc),
        }
    }

    /// A table with no key, and room for so many. An error is want of memory.
    pub fn with_capacity(alloc: Global, keys: usize) -> Result<KeyTable<K>, AllocError>
        ensures empty { IfOk result (λ table. table ≡ []) }
        ensures none { keys ≡ 0 → IsOk result }
    {
        Ok(KeyTable {
            keys: IndexSet::with_capacity(alloc, keys)?,
        })
    }

    /// How many keys there are.
    pub fn len(&self) -> usize
        ensures { result ≡ length self.now }
    {
        self.keys.len()
    }

    /// Whether the table has a key.
    pub fn contains(&self, key: &K) -> bool
        ensures { IsTrue result ↔ Contains self.now key.now }
    {
        self.keys.contains(key)
    }

    /// The place of a key, counted from 0, where the table has it.
    pub fn find(&self, key: &K) -> Option<usize>
        ensures found { MatchOption result (¬ (Contains self.now key.now)) (λ k. slice_get self.now k ≡ Some key.now) }
        ensures different { AreDifferent self.now }
    {
        self.keys.get_index_of(key)
    }

    /// As `find`, and sooner where the key is at the place of the hint.
    pub fn find_with_hint(&self, key: &K, hint: usize) -> Option<usize>
        ensures found { MatchOption result (¬ (Contains self.now key.now)) (λ k. slice_get self.now k ≡ Some key.now) }
        ensures different { AreDifferent self.now }
    {
        match self.keys.get_index(hint) {
            Some(there) if there == key => Some(hint),
            _ => self.find(key),
        }
    }

    /// Adds a new key at the end. An error is want of memory.
    pub fn push(&mut self, key: K) -> Result<(), AllocError>
        requires { ¬ (Contains self.old key) }
        ensures ok { OnOk result (self.new ≡ self.old ++ key ∷ []) }
        ensures err { OnErr result (self.new ≡ self.old) }
    {
        match self.keys.insert(key) {
            Ok(_) => Ok(()),
            Err(_) => Err(AllocError),
        }
    }
}

impl<K: Exact + Copy> KeyTable<K> {
    /// The table of these keys. An error is want of memory.
    pub fn of(alloc: Global, keys: &[K]) -> Result<KeyTable<K>, AllocError>
        requires { AreDifferent keys.now }
        ensures { IfOk result (λ table. table ≡ keys.now) }
    {
        let mut table = KeyTable::with_capacity(alloc, keys.len())?;
        for key in keys {
            table.push(*key)?;
        }
        Ok(table)
    }
}
