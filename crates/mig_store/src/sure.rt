//! A store in memory that never fails. It tells its cells, no images and no events.
ghost use Rattle.std.specs.Prelude.{◌≡◌, ◌≢◌, ⊤, [], IfSome, IfNone, IfOk, IsSome, Ok, Some, None, map};
ghost use Rattle.mig_base.specs.InputLists.{AreDifferent};
ghost use Rattle.mig_base.specs.Stores.{State, flights, Ends, named, HasCause};
ghost use Rattle.mig_store.specs.HeldCells.{held_at, zero_held};
ghost use Rattle.mig_store.specs.Sure.{sure_state, sure_is_state};

use crate::block::Block;
use crate::held::{Held, get, put, zero_cells};
use crate::{Store, StoreFailed};
use mig_base::{Cell, Name};
use mig_keys::KeyTable;
use std::alloc::{AllocError, Global};
use std::marker::Model;

/// A store in memory that never fails. It copies as soon as a copy is begun.
#[derive(Drop)]
pub struct SureStore {
    table: KeyTable<Cell>,
    held: Vec<Held<Block>>,
}

impl Model for SureStore {
    ghost use Rattle.std.specs.Prelude.{◌≡◌, ℕ, List, map};
    ghost use Rattle.mig_store.specs.declared.held.Held.{Held};
    ghost use Rattle.mig_store.specs.HeldCells.{HasLengths, cell_of};

    ghost Value = { List (Held (List ℕ)) };

    ghost view = { λ s. s.held.items };

    ghost invariant = { λ s. (s.table ≡ map cell_of s.held.items) × HasLengths s.held.items };
}

impl SureStore {
    /// A store of these different cells, all zeros. An error is want of memory.
    pub fn new(alloc: Global, cells: &[Cell]) -> Result<SureStore, AllocError>
        requires { AreDifferent cells.now }
        ensures { IfOk result (λ store. store ≡ map zero_held cells.now) }
    {
        Ok(SureStore {
            table: KeyTable::of(alloc, cells)?,
            held: zero_cells(alloc, cells)?,
        })
    }

    /// What a read of the cell would give; None where the cell isn't told.
    pub fn cell(&self, cell: &Cell) -> Option<&[u8]>
        ensures told { IfSome result (λ told. held_at self.now cell.now ≡ Some told.now) }
        ensures none { IfNone result (held_at self.now cell.now ≡ None) }
    {
        match get(&self.table, &self.held, cell) {
            Some(block) => Some(block.bytes()),
            None => None,
        }
    }
}

impl Store for SureStore {
    ghost state = { sure_state };

    ghost asked = { λ slot. ⊤ };

    ghost compared = { λ from to. ⊤ };

    ghost refuses = { ⊥ };

    ghost seen = { λ store slot item. ⊤ };

    ghost is_state = { sure_is_state };

    ghost holds_seen = { λ store slot item none. absurd none };

    fn read(&mut self, cell: &Cell, into: &mut [u8]) -> Result<(), StoreFailed> {
        if let Some(block) = get(&self.table, &self.held, cell) {
            into.copy_from_slice(block.bytes());
        }
        Ok(())
    }

    fn expects(&mut self, slot: &Cell, name: &Name) -> Result<(), StoreFailed> {
        Ok(())
    }

    fn expects_free(&mut self, slot: &Cell) -> Result<(), StoreFailed> {
        Ok(())
    }

    fn expects_copy(&mut self, from: &Cell, to: &Cell) -> Result<(), StoreFailed> {
        Ok(())
    }

    fn write(&mut self, cell: &Cell, bytes: &[u8]) -> Result<(), StoreFailed> {
        put(&self.table, &mut self.held, cell, Block::of(bytes));
        Ok(())
    }

    fn begin(&mut self, from: &Cell, to: &Cell) -> Result<(), StoreFailed> {
        if let Some(block) = get(&self.table, &self.held, from) {
            let bytes = block.copied();
            put(&self.table, &mut self.held, to, bytes);
        }
        Ok(())
    }

    /// Names none.
    fn ended(&mut self) -> Result<Option<(Cell, Cell)>, StoreFailed>
        ensures answer { result ≡ Ok None }
        ensures ends { Ends (named (sure_state self.old) result) (sure_state self.old) (sure_state self.new) }
        ensures none { IfOk result (λ answer. IfNone answer (flights (sure_state self.old) ≡ [])) }
        ensures some { IsSome (sure_state self.old).events → IfOk result (λ answer. IfSome answer (λ _. flights (sure_state self.old) ≢ [])) }
        ensures cause { HasCause (sure_state self.old) (sure_state self.new) result }
    {
        Ok(None)
    }

    fn sync(&mut self) -> Result<(), StoreFailed> {
        Ok(())
    }
}
