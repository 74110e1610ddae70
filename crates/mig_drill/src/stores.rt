//! A store in memory that is filled for a plan, again and again.
ghost use Rattle.std.specs.Prelude.{◌≡◌, ◌<◌, ◌≤◌, ◌+◌, ◌*◌, [], ℕ, All, IfOk, OnOk, length, map};
ghost use Rattle.mig_base.specs.Layouts.{round_at};
ghost use Rattle.mig_base.specs.Readiness.{shifts_of, IsShifted};
ghost use Rattle.mig_base.specs.RoundEvents.{flights_of};
ghost use Rattle.mig_base.specs.Slots.{IsListedCell};
ghost use Rattle.mig_base.specs.Stores.{flights, ChangesOnly, IsSettled};
ghost use Rattle.mig_store.specs.HeldCells.{zero_held};
ghost use Rattle.mig_store.specs.Memories.{state_of};
ghost use Rattle.mig_drill.specs.Stores.{AddsCells, AreJobCells, HoldsMade, IsEndOf, IsPrepared, IsZeroed, StaysTold, TellsJob};

use crate::limits::MAX_DRILL_SHIFTS;
use indexmap::IndexSet;
use mig_base::{Cell, Input, Shift};
use mig_jobs::Job;
use mig_mover::put_item;
use mig_store::{MemStore, Pick, Store, StoreFailed};
use std::alloc::{AllocError, Global};

// Adds the slots that a round's shifts leave and go to. An error is want of memory.
fn add_round(cells: &mut IndexSet<Cell>, job: &Job, round: u32) -> Result<(), AllocError>
    requires from { 1 ≤ round }
    requires to { round ≤ length job.now.plan }
    ensures { OnOk result (AddsCells (IsEndOf (flights_of job.now.input (round_at job.now.plan round))) cells.old.keys cells.new.keys) }
{
    for place in 0..job.round_len(round) {
        let (from, to) = job.copy(round, place);
        cells.insert(from)?;
        cells.insert(to)?;
    }
    Ok(())
}

/// The cells by which a job's plan is carried out: those of the journal, and each slot that the plan names. An error is want
/// of memory.
pub fn job_cells(alloc: Global, job: &Job) -> Result<IndexSet<Cell>, AllocError>
    ensures { IfOk result (λ cells. AreJobCells job.now cells.keys) }
{
    let mut cells = IndexSet::new(alloc);
    cells.insert(Cell::Head)?;
    cells.insert(Cell::Gate)?;
    for n in 0..job.rounds() {
        cells.insert(Cell::Mark { n: n + 1 })?;
        add_round(&mut cells, job, n + 1)?;
    }
    Ok(cells)
}

// How many calls the record of a store needs room for. Where it is filled, three for each shift, one for each round and three
// besides. Where the plan is then carried out, three for each shift, four for each round and five besides.
fn room_for(job: &Job) -> u32
    requires { length (shifts_of job.now.plan) ≤ MAX_DRILL_SHIFTS }
    ensures { result ≡ 6 * length (shifts_of job.now.plan) + 5 * length job.now.plan + 8 }
{
    6 * job.shifts() + 5 * job.rounds() + 8
}

/// A store of these cells, all zeros, with room to fill it for a plan and to carry the plan out. An error is want of memory.
pub fn store_of(alloc: Global, job: &Job, cells: &IndexSet<Cell>) -> Result<MemStore, AllocError>
    requires few { length (shifts_of job.now.plan) ≤ MAX_DRILL_SHIFTS }
    requires cells { AreJobCells job.now cells.now.keys }
    ensures told { IfOk result (λ store. TellsJob job.now (state_of store)) }
    ensures log { IfOk result (λ store. store.log ≡ record { first = map zero_held cells.now.keys; calls = []; room = 6 * length (shifts_of job.now.plan) + 5 * length job.now.plan + 8 }) }
{
    MemStore::new(alloc, cells.as_slice(), room_for(job), Vec::new(alloc))
}

// Writes zeros to a cell.
fn clear(store: &mut MemStore, cell: &Cell) -> Result<(), StoreFailed>
    requires { flights (state_of store.old) ≡ [] }
    ensures clear { OnOk result (IsZeroed (state_of store.new).reads cell.now) }
    ensures change { ChangesOnly (λ c. c ≡ cell.now) (state_of store.old) (state_of store.new) }
{
    store.write(cell, &[0; 4096][..cell.len()])
}

// Writes zeros to each of these cells.
fn clear_all(store: &mut MemStore, cells: &[Cell]) -> Result<(), StoreFailed>
    requires { flights (state_of store.old) ≡ [] }
    ensures clear { OnOk result (All (IsZeroed (state_of store.new).reads) cells.now) }
    ensures none { flights (state_of store.new) ≡ [] }
    ensures told { StaysTold (state_of store.old).reads (state_of store.new).reads }
{
    for cell in cells {
        clear(store, cell)?;
    }
    Ok(())
}

// Puts the items of a round's shifts where they are now.
fn put_round(input: &Input, store: &mut MemStore, shifts: &[Shift]) -> Result<(), StoreFailed>
    requires items { All (λ s. s.item.0 < length input.now.items) shifts.now }
    requires none { flights (state_of store.old) ≡ [] }
    ensures made { OnOk result (All (λ s. HoldsMade input.now (state_of store.new).reads s.item.0) shifts.now) }
    ensures kept { OnOk result ((item : ℕ) → item < length input.now.items → HoldsMade input.now (state_of store.old).reads item → HoldsMade input.now (state_of store.new).reads item) }
    ensures change { ChangesOnly (IsListedCell input.now) (state_of store.old) (state_of store.new) }
{
    input.keeps_rules();
    for shift in shifts {
        put_item(input, store, shift.item.0 as usize)?;
    }
    Ok(())
}

// Puts the items that a plan shifts where they are now.
fn put_items(job: &Job, store: &mut MemStore) -> Result<(), StoreFailed>
    requires { flights (state_of store.old) ≡ [] }
    ensures made { OnOk result ((item : ℕ) → IsShifted job.now.plan item → HoldsMade job.now.input (state_of store.new).reads item) }
    ensures change { ChangesOnly (IsListedCell job.now.input) (state_of store.old) (state_of store.new) }
{
    for round in job.plan().rounds() {
        put_round(job.input(), store, round.shifts())?;
    }
    Ok(())
}

// Writes zeros to these cells, puts the items that a plan shifts where they are now, and syncs.
fn fill(job: &Job, store: &mut MemStore, cells: &[Cell]) -> Result<(), StoreFailed>
    requires none { flights (state_of store.old) ≡ [] }
    requires cells { AreJobCells job.now cells.now }
    ensures filled { OnOk result (IsPrepared job.now (state_of store.new).reads) }
    ensures settled { OnOk result (IsSettled (state_of store.new)) }
    ensures landed { OnOk result (flights (state_of store.new) ≡ []) }
    ensures told { StaysTold (state_of store.old).reads (state_of store.new).reads }
{
    clear_all(store, cells)?;
    put_items(job, store)?;
    store.sync()
}

/// The store of these cells with no fuse, filled for a stop: each item that the plan shifts is where it is now, and the other
/// cells are zeros.
///
/// # Errors
///
/// `StoreFailed` comes where the record of the store had no room.
pub fn filled(job: &Job, store: MemStore, cells: &IndexSet<Cell>) -> Result<MemStore, StoreFailed>
    requires cells { AreJobCells job.now cells.now.keys }
    requires told { TellsJob job.now (state_of store) }
    ensures told { IfOk result (λ store. TellsJob job.now (state_of store)) }
    ensures filled { IfOk result (λ store. IsPrepared job.now (state_of store).reads) }
    ensures settled { IfOk result (λ store. IsSettled (state_of store)) }
    ensures landed { IfOk result (λ store. flights (state_of store) ≡ []) }
{
    let mut store = store.crash(Pick::Old);
    fill(job, &mut store, cells.as_slice())?;
    Ok(store)
}
