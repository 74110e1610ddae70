//! A record of calls on cells that are held in memory.
ghost use Rattle.std.specs.Prelude.{◌≡◌, ◌↔◌, ◌≤◌, ◌<◌, ◌+◌, ◌++◌, Bool, true, [], ◌∷◌, ℕ, List, IsTrue, IsSome, IfSome, IfNone, IfOk, None, Some};
ghost use Rattle.std.specs.Prelude.{if◌then◌else◌, map, length, count_by, slice_index_or, vec_len, vec_capacity};
ghost use Rattle.std.specs.Option.{IsSomeAnd, option_map};
ghost use Rattle.mig_base.specs.declared.cells.Event.TheVariants.{Began};
ghost use Rattle.mig_base.specs.Cells.{cell_len, is_slot};
ghost use Rattle.mig_base.specs.InputLists.{AreDifferent};
ghost use Rattle.mig_base.specs.Flights.{IsTargetOf, IsSourceOf, AreFlights};
ghost use Rattle.mig_store.specs.Calls.{Wrote, Copies, Lands, Synced};
ghost use Rattle.mig_store.specs.HeldCells.{held_at, held_map, zero_held};
ghost use Rattle.mig_store.specs.Asking.{picked};
ghost use Rattle.mig_store.specs.Ledgers.{Log, is_sync, IsMoment, moment_of, reads, flying};

use crate::calls::{Act, CallRecord};
use crate::contents::{Entry, Pick, ask_at, crash_all, land_at, note_copy, zero_entries};
use crate::growing::append;
use crate::held::{Held, get};
use mig_base::{Cell, Event, Flight};
use mig_keys::KeyTable;
use std::alloc::{AllocError, Global};
use std::marker::Model;

/// What was asked of the cells, and what they hold.
#[derive(Drop)]
pub struct Ledger {
    table: KeyTable<Cell>,
    held: Vec<Held<Entry>>,
    /// One more than the number of syncs.
    period: u64,
    calls: CallRecord,
    events: Vec<Event>,
    flying: Vec<Flight>,
    room: u32,
}

impl Model for Ledger {
    ghost use Rattle.std.specs.Prelude.{◌≡◌, ◌≤◌, ◌+◌, length, map, vec_capacity};
    ghost use Rattle.mig_store.specs.Ledgers.{Log, IsLog};
    ghost use Rattle.mig_store.specs.Entries.{firsts, seen_all, AreWithin};
    ghost use Rattle.mig_store.specs.HeldCells.{cell_of};

    ghost Value = { Log };

    ghost view = { λ l. record { first = firsts l.held.items; calls = l.calls.calls; room = l.room } };

    ghost invariant = { λ l. IsLog (record { first = firsts l.held.items; calls = l.calls.calls; room = l.room }) (seen_all l.calls.calls l.period l.held.items) l.events.items l.flying.items
        × (l.table ≡ map cell_of l.held.items) × AreWithin (length l.calls.calls) l.period l.held.items × (1 ≤ l.period) × (l.period ≤ length l.calls.calls + 1)
        × (l.room ≤ l.calls.room) × (l.room ≤ vec_capacity l.events) × (l.room ≤ vec_capacity l.flying) };
}

// Adds a copy, if it began.
fn take_off(events: &mut Vec<Event>, flying: &mut Vec<Flight>, flight: Flight, began: bool)
    requires events { vec_len events.old < vec_capacity events.old }
    requires flying { vec_len flying.old < vec_capacity flying.old }
    ensures events { events.new.items ≡ (if began then events.old.items ++ Began flight.from flight.to ∷ [] else events.old.items) }
    ensures flying { flying.new.items ≡ (if began then flying.old.items ++ flight ∷ [] else flying.old.items) }
    ensures more_events { vec_capacity events.old ≤ vec_capacity events.new }
    ensures more_flying { vec_capacity flying.old ≤ vec_capacity flying.new }
{
    if began {
        append(
            events,
            &[Event::Began {
                from: flight.from,
                to: flight.to,
            }],
        );
        append(flying, &[flight]);
    }
}

impl Ledger {
    /// A record with room for so many calls on these cells, which hold zeros.
    pub fn new(alloc: Global, cells: &[Cell], room: u32) -> Result<Ledger, AllocError>
        requires { AreDifferent cells.now }
        ensures { IfOk result (λ log. log ≡ record { first = map zero_held cells.now; calls = []; room = room }) }
    {
        Ok(Ledger {
            table: KeyTable::of(alloc, cells)?,
            held: zero_entries(alloc, cells)?,
            period: 1,
            calls: CallRecord::new(alloc, room)?,
            events: Vec::with_capacity(alloc, room as usize)?,
            flying: Vec::with_capacity(alloc, room as usize)?,
            room,
        })
    }

    /// The record after a crash: no calls, and what is picked in each cell.
    pub fn crashed(self, pick: Pick) -> Ledger
        ensures first { held_at result.first ≡ (λ cell. option_map (picked pick) ((moment_of self).cells cell)) }
        ensures calls { result.calls ≡ [] }
        ensures room { result.room ≡ self.room }
        ensures moment { IsMoment (moment_of self) }
    {
        let Ledger {
            table,
            mut held,
            period,
            mut calls,
            mut events,
            mut flying,
            room,
        } = self;
        crash_all(&mut held, &calls, period, pick);
        calls.clear();
        events.clear();
        flying.clear();
        Ledger {
            table,
            held,
            period: 1,
            calls,
            events,
            flying,
            room,
        }
    }

    /// Whether so many calls more have room.
    pub fn has_room(&self, places: usize) -> bool
        ensures room { IsTrue result ↔ (length self.now.calls + places ≤ self.now.room) }
        ensures moment { IsMoment (moment_of self.now) }
    {
        self.calls.len() <= self.room as usize && places <= self.room as usize - self.calls.len()
    }

    /// What a read of the cell gives.
    pub fn shown(&self, cell: &Cell) -> Option<&[u8]>
        ensures some { IfSome result (λ bytes. reads (moment_of self.now) cell.now ≡ Some bytes.now) }
        ensures none { IfNone result (reads (moment_of self.now) cell.now ≡ None) }
        ensures length { IfSome result (λ bytes. length bytes.now ≡ cell_len cell.now) }
    {
        match get(&self.table, &self.held, cell) {
            Some(entry) => Some(entry.shown(&self.calls)),
            None => None,
        }
    }

    /// Reads a cell, if it is told.
    pub fn read(&self, cell: &Cell, into: &mut [u8])
        requires { length into.old ≡ cell_len cell.now }
        ensures { IfSome (reads (moment_of self.now) cell.now) (λ bytes. into.new ≡ bytes) }
    {
        if let Some(bytes) = self.shown(cell) {
            into.copy_from_slice(bytes);
        }
    }

    /// Whether both cells are told.
    pub fn tells(&self, from: &Cell, to: &Cell) -> bool
        ensures { IsTrue result ↔ IsSome (reads (moment_of self.now) from.now) × IsSome (reads (moment_of self.now) to.now) }
    {
        self.shown(from).is_some() && self.shown(to).is_some()
    }

    /// The copies in flight.
    pub fn flying(&self) -> &[Flight]
        ensures value { result.now ≡ flying (moment_of self.now) }
        ensures moment { IsMoment (moment_of self.now) }
    {
        self.flying.as_slice()
    }

    /// The events so far.
    pub fn events(&self) -> &[Event]
        ensures { result.now ≡ (moment_of self.now).events }
    {
        self.events.as_slice()
    }

    /// The number of syncs.
    pub fn syncs(&self) -> u32
        ensures { result ≡ count_by is_sync self.now.calls }
    {
        self.calls.syncs()
    }

    /// Records a write.
    pub fn write(&mut self, cell: &Cell, bytes: &[u8], done: bool)
        requires room { length self.old.calls < self.old.room }
        requires length { length bytes.now ≡ cell_len cell.now }
        requires not_target { ¬ IsTargetOf (flying (moment_of self.old)) cell.now }
        requires not_source { ¬ IsSourceOf (flying (moment_of self.old)) cell.now }
        ensures { self.new ≡ record { first = self.old.first; calls = self.old.calls ++ Wrote cell.now bytes.now done ∷ []; room = self.old.room } }
    {
        let place = self.calls.len();
        self.calls.note(&Act::Write { cell: *cell, done }, bytes);
        ask_at(&self.table, &mut self.held, self.period, cell, place, done);
    }

    /// Records that a copy of what a read of its source gives was asked to begin.
    pub fn begin(&mut self, flight: Flight, done: bool)
        requires room { length self.old.calls < self.old.room }
        requires length { cell_len flight.from ≡ cell_len flight.to }
        requires flight { AreFlights (flight ∷ []) }
        requires from_still { ¬ IsTargetOf (flying (moment_of self.old)) flight.from }
        requires not_target { ¬ IsTargetOf (flying (moment_of self.old)) flight.to }
        requires not_source { ¬ IsSourceOf (flying (moment_of self.old)) flight.to }
        requires source { IsSome (reads (moment_of self.old) flight.from) }
        requires target { IsSome (reads (moment_of self.old) flight.to) }
        ensures { IfSome (reads (moment_of self.old) flight.from) (λ bytes. self.new ≡ record { first = self.old.first; calls = self.old.calls ++ Copies flight.from flight.to bytes done ∷ []; room = self.old.room }) }
    {
        let place = self.calls.len();
        note_copy(&self.table, &self.held, &mut self.calls, &flight, done);
        ask_at(
            &self.table,
            &mut self.held,
            self.period,
            &flight.to,
            place,
            false,
        );
        take_off(&mut self.events, &mut self.flying, flight, done);
    }

    /// Ends the copy in flight at this place.
    pub fn land(&mut self, index: usize) -> Flight
        requires room { length self.old.calls < self.old.room }
        requires index { index < length (flying (moment_of self.old)) }
        ensures flight { result ≡ slice_index_or (flying (moment_of self.old)) index result }
        ensures value { self.new ≡ record { first = self.old.first; calls = self.old.calls ++ Lands result.from result.to ∷ []; room = self.old.room } }
    {
        let flight = self.flying.remove(index);
        land_at(&self.table, &mut self.held, self.period, &flight.to);
        self.calls.note(
            &Act::Land {
                from: flight.from,
                to: flight.to,
            },
            &[],
        );
        append(
            &mut self.events,
            &[Event::Ended {
                from: flight.from,
                to: flight.to,
            }],
        );
        flight
    }

    /// Records a sync. Its cost doesn't depend on the number of cells.
    pub fn settle(&mut self)
        requires room { length self.old.calls < self.old.room }
        requires none { flying (moment_of self.old) ≡ [] }
        ensures { self.new ≡ record { first = self.old.first; calls = self.old.calls ++ Synced ∷ []; room = self.old.room } }
    {
        self.calls.note(&Act::Sync, &[]);
        self.period += 1;
    }
}
