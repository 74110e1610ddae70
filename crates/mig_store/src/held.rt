//! Cells in a list, each with what is held of it.
ghost use Rattle.std.specs.Prelude.{◌≡◌, None, Some, IfSome, IfNone, IfOk, map};
ghost use Rattle.mig_store.specs.HeldCells.{cell_of, held_at, put_at, zero_bytes, zero_held};

use crate::block::Block;
use mig_base::Cell;
use mig_keys::KeyTable;
use std::alloc::{AllocError, Global};

#[derive(Drop)]
pub struct Held<T> {
    pub cell: Cell,
    pub value: T,
}

/// What is held of the cell.
pub fn get<'a, T>(table: &KeyTable<Cell>, held: &'a [Held<T>], cell: &Cell) -> Option<&'a T>
    requires { table.now ≡ map cell_of held.now }
    ensures some { IfSome result (λ value. held_at held.now cell.now ≡ Some value.now) }
    ensures none { IfNone result (held_at held.now cell.now ≡ None) }
{
    match table.find(cell) {
        Some(i) => Some(&held[i].value),
        None => None,
    }
}

/// Holds another value of the cell, if it is held.
pub fn put<T: Drop>(table: &KeyTable<Cell>, held: &mut Vec<Held<T>>, cell: &Cell, value: T)
    requires { table.now ≡ map cell_of held.old.items }
    ensures cells { map cell_of held.new.items ≡ map cell_of held.old.items }
    ensures held { held_at held.new.items ≡ put_at cell.now value (held_at held.old.items) }
{
    match table.find(cell) {
        Some(i) => held[i].value = value,
        None => {}
    }
}

/// A cell of zeros.
pub fn zero_block(cell: &Cell) -> Block
    ensures { result ≡ zero_bytes cell.now }
{
    Block::of(&[0; 4096][..cell.len()])
}

/// The cells, all zeros.
pub fn zero_cells(alloc: Global, cells: &[Cell]) -> Result<Vec<Held<Block>>, AllocError>
    ensures { IfOk result (λ held. held.items ≡ map zero_held cells.now) }
{
    let mut held = Vec::with_capacity(alloc, cells.len())?;
    for cell in cells {
        held.push(Held {
            cell: *cell,
            value: zero_block(cell),
        })?;
    }
    Ok(held)
}
