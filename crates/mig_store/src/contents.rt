//! What a store in memory keeps of a cell.
ghost use Rattle.std.specs.Prelude.{◌≡◌, ◌<◌, ◌≤◌, ◌+◌, ◌++◌, ◌∷◌, [], ◌/◌, ℕ, List, IfOk, IfSome, length, map, slice_get, take};
ghost use Rattle.mig_store.specs.Calls.{Copies, StoreCall, call_with};
ghost use Rattle.mig_store.specs.Bytes.{overwritten};
ghost use Rattle.mig_store.specs.Asking.{ask, asked_by, land, bytes_at, bytes_of, seen};
ghost use Rattle.mig_store.specs.HeldCells.{cell_of, held_at, change_at, held_map};
ghost use Rattle.mig_store.specs.Entries.{firsts, seen_all, crash_entry, IsWithinPeriod, AreWithin, zero_entry};

use crate::block::Block;
use crate::calls::{Act, CallRecord};
use crate::held::{Held, get, zero_block};
use mig_base::{Cell, Flight};
use mig_keys::KeyTable;
use std::alloc::{AllocError, Global};

/// What each cell that isn't settled holds after a crash.
#[derive(Clone, Copy, PartialEq, Eq)]
pub enum Pick {
    /// Its bytes at the last sync.
    Old,
    /// The bytes last asked to be written to it.
    New,
    /// The first half of those of `New`, and then the rest of those of `Old`.
    Half,
    /// Bytes that are all 1.
    Ones,
}

/// The bytes of a cell: those before the first call, and of those that calls asked to be written since then the places of
/// these calls in the record. No place stands for the first bytes. What was asked in an earlier period than this one is settled.
#[derive(Drop)]
pub struct Entry {
    /// Before the first call.
    pub first: Block,
    /// At the last sync before it was last asked to be written.
    pub kept: Option<usize>,
    /// What a read gives.
    pub shown: Option<usize>,
    /// The bytes last asked to be written.
    pub asked: Option<usize>,
    /// The period in which that was; periods count from 1.
    pub period: u64,
}

// The bytes that are picked.
fn pick_bytes(pick: Pick, kept: &[u8], asked: &[u8]) -> Block
    requires kept { length kept.now ≤ 4096 }
    requires asked { length asked.now ≤ 4096 }
    ensures { result ≡ bytes_of pick kept.now asked.now }
{
    match pick {
        Pick::Old => Block::of(kept),
        Pick::New => Block::of(asked),
        Pick::Half => halves(kept, asked),
        Pick::Ones => Block::of(&[1; 4096][..kept.len()]),
    }
}

// The first half of the second, and the rest of the first.
fn halves(kept: &[u8], asked: &[u8]) -> Block
    requires kept { length kept.now ≤ 4096 }
    ensures { result ≡ overwritten (take (length kept.now / 2) asked.now) kept.now }
{
    let half = kept.len() / 2;
    let mut block = Block::of(kept);
    block.overwrite(&asked[..half.min(asked.len())]);
    block
}

impl Entry {
    // The bytes that the call at this place asks for, or the first ones.
    fn bytes<'a>(&'a self, calls: &'a CallRecord, place: Option<usize>) -> &'a [u8]
        ensures value { result.now ≡ bytes_at calls.now.calls self.now.first place }
        ensures short { length result.now ≤ 4096 }
    {
        match place {
            Some(place) => calls.asked(place),
            None => self.first.bytes(),
        }
    }

    /// What a read gives, after these calls.
    pub fn shown<'a>(&'a self, calls: &'a CallRecord) -> &'a [u8]
        ensures { result.now ≡ bytes_at calls.now.calls self.now.first self.now.shown }
    {
        self.bytes(calls, self.shown)
    }

    // Records a call that asks what a read gives to be written.
    fn note_shown(&self, calls: &mut CallRecord, act: &Act)
        requires { length calls.old.calls < calls.old.room }
        ensures calls { calls.new.calls ≡ calls.old.calls ++ call_with act.now (bytes_at calls.old.calls self.now.first self.now.shown) ∷ [] }
        ensures room { calls.new.room ≡ calls.old.room }
    {
        match self.shown {
            Some(place) => calls.note_again(act, place),
            None => calls.note(act, self.first.bytes()),
        }
    }

    // Takes what the call at this place asks for.
    fn ask(&mut self, period: u64, place: usize, done: bool)
        ensures seen { (calls : List StoreCall)
            → seen calls period self.new ≡ ask (asked_by (slice_get calls place)) done (seen calls period self.old) }
        ensures first { self.new.first ≡ self.old.first }
        ensures within { IsWithinPeriod place period self.old → IsWithinPeriod (place + 1) period self.new }
    {
        if self.period != period {
            self.kept = self.shown;
            self.period = period;
        }
        if done {
            self.shown = Some(place);
        }
        self.asked = Some(place);
    }

    fn land(&mut self, period: u64)
        ensures seen { (calls : List StoreCall) → seen calls period self.new ≡ land (seen calls period self.old) }
        ensures first { self.new.first ≡ self.old.first }
        ensures within { (count : ℕ) → IsWithinPeriod count period self.old → IsWithinPeriod count period self.new }
    {
        if self.period == period {
            self.shown = self.asked;
        }
    }

    // Keeps what is picked, after these calls, as the first bytes.
    fn crash(&mut self, calls: &CallRecord, period: u64, pick: Pick)
        ensures { self.new ≡ crash_entry calls.now.calls period pick self.old }
    {
        if self.period == period {
            self.first = pick_bytes(
                pick,
                self.bytes(calls, self.kept),
                self.bytes(calls, self.asked),
            );
        } else if let Some(place) = self.shown {
            self.first.set(calls.asked(place));
        }
        self.kept = None;
        self.shown = None;
        self.asked = None;
        self.period = 0;
    }
}

/// Records that a copy of what a read of its source gives was asked to begin, if the source is held.
pub fn note_copy(
    table: &KeyTable<Cell>,
    held: &[Held<Entry>],
    calls: &mut CallRecord,
    flight: &Flight,
    done: bool,
)
    requires cells { table.now ≡ map cell_of held.now }
    requires room { length calls.old.calls < calls.old.room }
    ensures calls { IfSome (held_at held.now flight.now.from) (λ e. calls.new.calls ≡ calls.old.calls ++ Copies flight.now.from flight.now.to (bytes_at calls.old.calls e.first e.shown) done ∷ []) }
    ensures room { calls.new.room ≡ calls.old.room }
{
    if let Some(entry) = get(table, held, &flight.from) {
        let act = Act::Copy {
            from: flight.from,
            to: flight.to,
            done,
        };
        entry.note_shown(calls, &act);
    }
}

/// Takes what the call at this place asks to be written to the cell, if it is held.
pub fn ask_at(
    table: &KeyTable<Cell>,
    held: &mut Vec<Held<Entry>>,
    period: u64,
    cell: &Cell,
    place: usize,
    done: bool,
)
    requires cells { table.now ≡ map cell_of held.old.items }
    ensures seen { (calls : List StoreCall) → held_at (seen_all calls period held.new.items) ≡ change_at (ask (asked_by (slice_get calls place)) done) cell.now (held_at (seen_all calls period held.old.items)) }
    ensures first { firsts held.new.items ≡ firsts held.old.items }
    ensures within { AreWithin place period held.old.items → AreWithin (place + 1) period held.new.items }
{
    match table.find(cell) {
        Some(i) => held[i].value.ask(period, place, done),
        None => {}
    }
}

/// Shows the bytes that were asked to be written to the cell, if it is held and unsettled.
pub fn land_at(table: &KeyTable<Cell>, held: &mut Vec<Held<Entry>>, period: u64, cell: &Cell)
    requires cells { table.now ≡ map cell_of held.old.items }
    ensures seen { (calls : List StoreCall) → held_at (seen_all calls period held.new.items) ≡ change_at land cell.now (held_at (seen_all calls period held.old.items)) }
    ensures first { firsts held.new.items ≡ firsts held.old.items }
    ensures within { (count : ℕ) → AreWithin count period held.old.items → AreWithin count period held.new.items }
{
    match table.find(cell) {
        Some(i) => held[i].value.land(period),
        None => {}
    }
}

/// Leaves in each cell what is picked, after these calls.
pub fn crash_all(held: &mut Vec<Held<Entry>>, calls: &CallRecord, period: u64, pick: Pick)
    ensures { held.new.items ≡ map (held_map (crash_entry calls.now.calls period pick)) held.old.items }
{
    for h in held.iter_mut() {
        h.value.crash(calls, period, pick);
    }
}

/// The cells, all zeros.
pub fn zero_entries(alloc: Global, cells: &[Cell]) -> Result<Vec<Held<Entry>>, AllocError>
    ensures { IfOk result (λ held. held.items ≡ map zero_entry cells.now) }
{
    let mut held = Vec::with_capacity(alloc, cells.len())?;
    for cell in cells {
        held.push(Held {
            cell: *cell,
            value: Entry {
                first: zero_block(cell),
                kept: None,
                shown: None,
                asked: None,
                period: 0,
            },
        })?;
    }
    Ok(held)
}
