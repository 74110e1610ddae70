//! A store in memory, which keeps a record of its calls.
ghost use Rattle.std.specs.Prelude.{◌≡◌, ◌≢◌, ◌↔◌, ◌≤◌, ◌<◌, ◌+◌, ◌++◌, ◌∷◌, [], ℕ, List, ⊤, IsTrue, IfSome, IfNone, IsSome, IfOk, OnOk, OnErr, IsOk, is_ok, None, Some, true, false, map, length, take, count_by};
ghost use Rattle.std.specs.Option.{option_map};
ghost use Rattle.mig_base.specs.declared.cells.Flight.{Flight};
ghost use Rattle.mig_base.specs.Images.{IsCopy};
ghost use Rattle.mig_base.specs.Flights.{began, IsTargetOf, IsSourceOf};
ghost use Rattle.mig_base.specs.Cells.{cell_len, is_slot};
ghost use Rattle.mig_base.specs.Stores.{State, flights, IsMoving, Changes, ChangesOnly, Looks, Ends, named, IsSettled, HasCause};
ghost use Rattle.mig_base.specs.InputLists.{AreDifferent};
ghost use Rattle.mig_store.specs.Calls.{Wrote, Copies, Lands};
ghost use Rattle.mig_store.specs.declared.ends.EndOrder.{EndOrder};
ghost use Rattle.mig_store.specs.declared.trouble.Trouble.{Trouble};
ghost use Rattle.mig_store.specs.Asking.{picked};
ghost use Rattle.mig_store.specs.Grounds.{HasGround, IsErasure, IsLast, IsUncopiable, Lacks, SlotsDiffer};
ghost use Rattle.mig_store.specs.HeldCells.{zero_held};
ghost use Rattle.mig_store.specs.Ledgers.{Log, is_sync, IsMoment, moment_of, flying, state_at};
ghost use Rattle.mig_store.specs.Orders.{after_end};
ghost use Rattle.mig_store.specs.Troubles.{fails, fails_write, next_number, next_write};
ghost use Rattle.mig_store.specs.Memories.{Memory, HasCallRoom, CanCopy, pushed, faulted, aloft, next_flight, landed, land_many, synced, state_of, mem_is_state};

use crate::contents::Pick;
use crate::ends::{EndOrder, Landing};
use crate::ledger::Ledger;
use crate::trouble::Trouble;
use crate::{Store, StoreFailed};
use mig_base::{Cell, Event, Flight, Name};
use std::alloc::{AllocError, Global};
use std::marker::Model;

/// A store in memory, which fails at the calls that it is told, and tells its cells, its images and its events.
#[derive(Drop)]
pub struct MemStore {
    ledger: Ledger,
    landing: Landing,
    trouble: Trouble,
}

impl Model for MemStore {
    ghost use Rattle.mig_store.specs.Memories.{Memory};

    ghost Value = { Memory };

    ghost view = { λ m. record { log = m.ledger; landing = m.landing; trouble = m.trouble } };
}

// Ends the next copy in flight.
fn land_next(ledger: &mut Ledger, landing: &mut Landing) -> Flight
    requires room { length ledger.old.calls < ledger.old.room }
    requires some { 0 < length (flying (moment_of ledger.old)) }
    ensures value { ledger.new ≡ record { first = ledger.old.first; calls = ledger.old.calls ++ Lands result.from result.to ∷ []; room = ledger.old.room } }
    ensures next { (t : Trouble) → next_flight (record { log = ledger.old; landing = landing.old; trouble = t }) ≡ Some result }
    ensures landing { landing.new ≡ after_end landing.old }
    ensures ends { (a b : ℕ) → Ends (result ∷ []) (state_at ledger.old.first ledger.old.calls a) (state_at ledger.new.first ledger.new.calls b) }
{
    let index = landing.next(ledger.flying().len());
    ledger.land(index)
}

// Ends all copies in flight.
fn land_all(ledger: &mut Ledger, landing: &mut Landing)
    requires { length ledger.old.calls + length (flying (moment_of ledger.old)) ≤ ledger.old.room }
    ensures calls { length ledger.new.calls ≡ length ledger.old.calls + length (flying (moment_of ledger.old)) }
    ensures first { ledger.new.first ≡ ledger.old.first }
    ensures room { ledger.new.room ≡ ledger.old.room }
    ensures none { flying (moment_of ledger.new) ≡ [] }
    ensures moment { IsMoment (moment_of ledger.new) }
    ensures value { (t : Trouble) → record { log = ledger.new; landing = landing.new; trouble = t } ≡ land_many (length (flying (moment_of ledger.old))) (record { log = ledger.old; landing = landing.old; trouble = t }) }
    ensures ends { (these : List Flight) × ((a b : ℕ) → Ends these (state_at ledger.old.first ledger.old.calls a) (state_at ledger.new.first ledger.new.calls b)) }
{
    for _ in 0..ledger.flying().len() {
        let _flight = land_next(ledger, landing);
    }
    let _left = ledger.flying();
}

impl MemStore {
    /// A store of these cells, all zeros, with room for so many writes, syncs, begins and ends. Its calls with these numbers fail.
    pub fn new(
        alloc: Global,
        cells: &[Cell],
        room: u32,
        failing: Vec<u64>,
    ) -> Result<MemStore, AllocError>
        requires { AreDifferent cells.now }
        ensures log { IfOk result (λ store. store.log ≡ record { first = map zero_held cells.now; calls = []; room = room }) }
        ensures landing { IfOk result (λ store. store.landing ≡ record { order = EndOrder.First; oldest = false }) }
        ensures trouble { IfOk result (λ store. store.trouble ≡ record { failing = failing; number = 0; fuse = None; blown = false; faults = 0 }) }
    {
        Ok(MemStore {
            ledger: Ledger::new(alloc, cells, room)?,
            landing: Landing {
                order: EndOrder::First,
                oldest: false,
            },
            trouble: Trouble {
                failing,
                number: 0,
                fuse: None,
                blown: false,
                faults: 0,
            },
        })
    }

    /// Lets that many more writes through; the next write and every later call then fail.
    pub fn fuse(&mut self, writes: u64)
        ensures { self.new ≡ record { log = self.old.log; landing = self.old.landing; trouble = record self.old.trouble { fuse = Some writes } } }
    {
        self.trouble.fuse = Some(writes);
    }

    /// Sets which copy in flight ends next.
    pub fn order(&mut self, order: EndOrder)
        ensures { self.new ≡ record { log = self.old.log; landing = record { order = order; oldest = false }; trouble = self.old.trouble } }
    {
        self.landing = Landing {
            order,
            oldest: false,
        };
    }

    /// The store after a crash: what is picked in each cell, no copy in flight, no events, and no call that fails.
    pub fn crash(self, pick: Pick) -> MemStore
        ensures picked { (state_of result).reads ≡ (λ cell. option_map (picked pick) ((moment_of self.log).cells cell)) }
        ensures left { (state_of self).may_leave (state_of result).reads }
        ensures settled { IsSettled (state_of result) }
        ensures calls { result.log.calls ≡ [] }
        ensures room { result.log.room ≡ self.log.room }
        ensures order { result.landing ≡ record { order = self.landing.order; oldest = false } }
        ensures trouble { result.trouble ≡ record { failing = result.trouble.failing; number = 0; fuse = None; blown = false; faults = self.trouble.faults } }
        ensures failing { result.trouble.failing.items ≡ [] }
    {
        let MemStore {
            ledger,
            landing,
            mut trouble,
        } = self;
        trouble.failing.clear();
        MemStore {
            ledger: ledger.crashed(pick),
            landing: Landing {
                order: landing.order,
                oldest: false,
            },
            trouble: Trouble {
                failing: trouble.failing,
                number: 0,
                fuse: None,
                blown: false,
                faults: trouble.faults,
            },
        }
    }

    /// What a read of the cell would give.
    pub fn cell(&self, cell: &Cell) -> Option<&[u8]>
        ensures told { IfSome result (λ told. (state_of self.now).reads cell.now ≡ Some told.now) }
        ensures none { IfNone result ((state_of self.now).reads cell.now ≡ None) }
    {
        self.ledger.shown(cell)
    }

    /// The events since the store was made or crashed.
    pub fn events(&self) -> &[Event]
        ensures { (state_of self.now).events ≡ Some result.now }
    {
        self.ledger.events()
    }

    /// The number of syncs that succeeded since the store was made or crashed.
    pub fn syncs(&self) -> u32
        ensures { result ≡ count_by is_sync self.now.log.calls }
    {
        self.ledger.syncs()
    }
}

impl Store for MemStore {
    ghost state = { state_of };

    ghost asked = { λ slot. ⊤ };

    ghost compared = { λ from to. ⊤ };

    ghost refuses = { ⊥ };

    ghost seen = { λ store slot item. ⊤ };

    ghost is_state = { mem_is_state };

    ghost holds_seen = { λ store slot item none. absurd none };

    /// Fails exactly at the numbers that were given, and after the fuse.
    fn read(&mut self, cell: &Cell, into: &mut [u8]) -> Result<(), StoreFailed>
        requires { length into.old ≡ cell_len cell.now }
        ensures succeeds { IsOk result ↔ (fails self.old.trouble ≡ false) }
        ensures after { self.new ≡ record self.old { trouble = faulted result (next_number self.old.trouble) } }
        ensures bytes { OnOk result (¬ IsMoving (state_of self.old) cell.now → IfSome ((state_of self.old).reads cell.now) (λ bytes. into.new ≡ bytes)) }
        ensures change { Looks (state_of self.old) (state_of self.new) }
        ensures cause { HasCause (state_of self.old) (state_of self.new) result }
    {
        if self.trouble.next() {
            return Err(self.trouble.fault());
        }
        self.ledger.read(cell, into);
        Ok(())
    }

    /// Never fails, and has no number.
    fn expects(&mut self, slot: &Cell, name: &Name) -> Result<(), StoreFailed>
        requires { IsTrue (is_slot slot.now) }
        ensures succeeds { IsOk result }
        ensures after { self.new ≡ self.old }
        ensures change { Looks (state_of self.old) (state_of self.new) }
        ensures cause { HasGround ⊥ (Lacks (state_of self.old).reads slot.now name.now) (state_of self.old) (state_of self.new) result }
    {
        Ok(())
    }

    /// Never fails, and has no number.
    fn expects_free(&mut self, slot: &Cell) -> Result<(), StoreFailed>
        requires { IsTrue (is_slot slot.now) }
        ensures succeeds { IsOk result }
        ensures after { self.new ≡ self.old }
        ensures change { Looks (state_of self.old) (state_of self.new) }
        ensures cause { HasGround ⊥ (IsLast (state_of self.old).reads (λ slot item. ⊤) slot.now) (state_of self.old) (state_of self.new) result }
    {
        Ok(())
    }

    /// Never fails, and has no number.
    fn expects_copy(&mut self, from: &Cell, to: &Cell) -> Result<(), StoreFailed>
        requires { IsTrue (is_slot from.now) × IsTrue (is_slot to.now) }
        ensures succeeds { IsOk result }
        ensures after { self.new ≡ self.old }
        ensures change { Looks (state_of self.old) (state_of self.new) }
        ensures cause { HasGround ⊥ (SlotsDiffer (state_of self.old).reads from.now to.now) (state_of self.old) (state_of self.new) result }
    {
        Ok(())
    }

    /// Fails exactly at the numbers that were given, from the fuse on, and where the record is full.
    fn write(&mut self, cell: &Cell, bytes: &[u8]) -> Result<(), StoreFailed>
        requires length { length bytes.now ≡ cell_len cell.now }
        requires not_target { ¬ IsTargetOf (flights (state_of self.old)) cell.now }
        requires not_source { ¬ IsSourceOf (flights (state_of self.old)) cell.now }
        ensures succeeds { IsOk result ↔ (fails_write self.old.trouble ≡ false) × HasCallRoom 1 self.old }
        ensures recorded { HasCallRoom 1 self.old → self.new ≡ record { log = pushed self.old.log (Wrote cell.now bytes.now (is_ok result)); landing = self.old.landing; trouble = faulted result (next_write self.old.trouble) } }
        ensures full { ¬ HasCallRoom 1 self.old → self.new ≡ record self.old { trouble = faulted result (next_write self.old.trouble) } }
        ensures written { OnOk result (IfSome ((state_of self.new).reads cell.now) (λ told. told ≡ bytes.now)) }
        ensures change { ChangesOnly (λ c. c ≡ cell.now) (state_of self.old) (state_of self.new) }
        ensures cause { HasGround ⊥ (IsErasure cell.now bytes.now × IsLast (state_of self.old).reads (λ slot item. ⊤) cell.now) (state_of self.old) (state_of self.new) result }
    {
        let fails = self.trouble.next_write();
        if !self.ledger.has_room(1) {
            return Err(self.trouble.fault());
        }
        self.ledger.write(cell, bytes, !fails);
        if fails {
            return Err(self.trouble.fault());
        }
        Ok(())
    }

    /// Fails exactly at the numbers that were given, from the fuse on, where the record is full, and where one of the cells isn't told.
    fn begin(&mut self, from: &Cell, to: &Cell) -> Result<(), StoreFailed>
        requires slots { IsTrue (is_slot from.now) × IsTrue (is_slot to.now) }
        requires apart { from.now ≢ to.now }
        requires from_still { ¬ IsTargetOf (flights (state_of self.old)) from.now }
        requires not_target { ¬ IsTargetOf (flights (state_of self.old)) to.now }
        requires not_source { ¬ IsSourceOf (flights (state_of self.old)) to.now }
        ensures succeeds { IsOk result ↔ (fails_write self.old.trouble ≡ false) × CanCopy from.now to.now self.old }
        ensures recorded { CanCopy from.now to.now self.old → IfSome ((state_of self.old).reads from.now) (λ bytes.
            self.new ≡ record { log = pushed self.old.log (Copies from.now to.now bytes (is_ok result)); landing = self.old.landing; trouble = faulted result (next_write self.old.trouble) }) }
        ensures refused { ¬ CanCopy from.now to.now self.old → self.new ≡ record self.old { trouble = faulted result (next_write self.old.trouble) } }
        ensures begun { OnOk result (Changes (λ c. c ≡ to.now) (λ c. c ≡ to.now) (began (record { from = from.now; to = to.now }) ∷ []) (state_of self.old) (state_of self.new)) }
        ensures copied { OnOk result (¬ IsMoving (state_of self.new) to.now → IsCopy ((state_of self.old).reads from.now) ((state_of self.new).reads to.now)) }
        ensures change { (n : ℕ) × Changes (λ c. c ≡ to.now) (λ c. c ≡ to.now) (take n (began (record { from = from.now; to = to.now }) ∷ [])) (state_of self.old) (state_of self.new) }
        ensures cause { HasGround ⊥ (IsUncopiable (state_of self.old).reads (λ slot item. ⊤) from.now to.now) (state_of self.old) (state_of self.new) result }
    {
        let fails = self.trouble.next_write();
        if !self.ledger.has_room(1) {
            return Err(self.trouble.fault());
        }
        if !self.ledger.tells(from, to) {
            return Err(self.trouble.fault());
        }
        self.ledger.begin(
            Flight {
                from: *from,
                to: *to,
            },
            !fails,
        );
        if fails {
            return Err(self.trouble.fault());
        }
        Ok(())
    }

    /// Fails exactly at the numbers that were given, after the fuse, and where a copy is in flight and the record is full.
    fn ended(&mut self) -> Result<Option<(Cell, Cell)>, StoreFailed>
        ensures succeeds { IsOk result ↔ (fails self.old.trouble ≡ false) × (aloft self.old ≢ [] → HasCallRoom 1 self.old) }
        ensures named { IfOk result (λ answer. IfSome answer (λ c. next_flight self.old ≡ Some (record { from = c.0; to = c.1 }))) }
        ensures landed { IfOk result (λ answer. self.new ≡ record (landed self.old (option_map (λ c. record { from = c.0; to = c.1 }) answer)) { trouble = next_number self.old.trouble }) }
        ensures failed { OnErr result (self.new ≡ record self.old { trouble = faulted result (next_number self.old.trouble) }) }
        ensures ends { Ends (named (state_of self.old) result) (state_of self.old) (state_of self.new) }
        ensures none { IfOk result (λ answer. IfNone answer (flights (state_of self.old) ≡ [])) }
        ensures some { IsSome (state_of self.old).events → IfOk result (λ answer. IfSome answer (λ _. flights (state_of self.old) ≢ [])) }
        ensures cause { HasCause (state_of self.old) (state_of self.new) result }
    {
        if self.trouble.next() {
            return Err(self.trouble.fault());
        }
        if self.ledger.flying().is_empty() {
            return Ok(None);
        }
        if !self.ledger.has_room(1) {
            return Err(self.trouble.fault());
        }
        let flight = land_next(&mut self.ledger, &mut self.landing);
        Ok(Some((flight.from, flight.to)))
    }

    /// Fails exactly at the numbers that were given, after the fuse, and where the record has no room for the sync and an end of each copy in flight.
    fn sync(&mut self) -> Result<(), StoreFailed>
        ensures succeeds { IsOk result ↔ (fails self.old.trouble ≡ false) × HasCallRoom (length (aloft self.old) + 1) self.old }
        ensures synced { OnOk result (self.new ≡ record (synced self.old) { trouble = next_number self.old.trouble }) }
        ensures failed { OnErr result (self.new ≡ record self.old { trouble = faulted result (next_number self.old.trouble) }) }
        ensures ends { (these : List Flight) × Ends these (state_of self.old) (state_of self.new) }
        ensures settled { OnOk result (IsSettled (state_of self.new)) }
        ensures landed { OnOk result (flights (state_of self.new) ≡ []) }
        ensures cause { HasCause (state_of self.old) (state_of self.new) result }
    {
        let places = self.ledger.flying().len() + 1;
        if self.trouble.next() || !self.ledger.has_room(places) {
            return Err(self.trouble.fault());
        }
        land_all(&mut self.ledger, &mut self.landing);
        self.ledger.settle();
        Ok(())
    }
}
