//! How the store serves: its calls are those of any store.
ghost use Rattle.std.specs.Prelude.{◌≡◌, ◌≢◌, ◌⊎◌, ◌∷◌, [], None, ℕ, List, ⊤, IsTrue, IsFalse, IfOk, IfSome, IfNone, OnOk, OnErr, length, take};
ghost use Rattle.mig_base.specs.declared.cells.Flight.{Flight};
ghost use Rattle.mig_base.specs.Cells.{cell_len, is_slot};
ghost use Rattle.mig_base.specs.Images.{IsCopy, NoCell};
ghost use Rattle.mig_base.specs.Flights.{began, IsTargetOf, IsSourceOf};
ghost use Rattle.mig_base.specs.Stores.{flights, IsMoving, Changes, ChangesOnly, Looks, Ends, named, IsSettled, HasCause};
ghost use Rattle.mig_calls.specs.Refusals.{HoldsItem, WhereTold};
ghost use Rattle.mig_files.specs.Derived.{cell_state, cell_is_state};
ghost use Rattle.mig_files.specs.Grounds.{IsSaid};
ghost use Rattle.mig_files.specs.Seeing.{seen_at, seen_in, HoldsCopy, KeepsSeen, KeepsSeenBut, LosesNone, MayCopy};
ghost use Rattle.mig_files.specs.Serving.{calls_state, seen_of, has_failed};
ghost use Rattle.mig_files.specs.Sights.{holds_seen};
ghost use Rattle.mig_store.specs.Grounds.{HasGround, IsErasure, IsLast, IsSeenAtBoth, IsUncopiable, Lacks, Remembers, SlotsDiffer};

use crate::cells::read_cell;
use crate::copies::expects_copy;
use crate::items::{expects, expects_free, note_read};
use crate::store::FileStore;
use crate::syncs::sync_cells;
use crate::tracked::refuse_with;
use crate::writes::{copy_item, write_item};
use mig_base::{Cell, Name};
use mig_calls::{Calls, Refusal};
use mig_store::{Store, StoreFailed};

impl<C: Calls> Store for FileStore<C> {
    ghost state = { λ s. cell_state (C.Calls.state s.calls) (C.Calls.state s.calls).faults };

    ghost asked = { λ slot. ⊤ };

    ghost compared = { λ from to. ⊤ };

    ghost refuses = { ⊤ };

    ghost seen = { λ s. seen_in s.seen };

    ghost is_state = { λ s. cell_is_state (C.Calls.state s.calls) (C.Calls.state s.calls).faults (C.Calls.is_state s.calls) };

    ghost holds_seen = { λ s slot item told name seen. holds_seen (C.Calls.state s.calls) s.seen s.held slot item name seen };

    /// Reads a cell, zeros where it was never written.
    fn read(&mut self, cell: &Cell, into: &mut [u8]) -> Result<(), StoreFailed>
        requires { length into.old ≡ cell_len cell.now }
        ensures bytes { OnOk result (¬ IsMoving (⟦<FileStore<C> as Store>⟧.state self.old) cell.now → IfSome ((⟦<FileStore<C> as Store>⟧.state self.old).reads cell.now) (λ bytes. into.new ≡ bytes)) }
        ensures kept { KeepsSeen (seen_of self.old) (seen_of self.new) cell.now }
        ensures seen { Remembers NoCell (seen_in (seen_of self.old)) (seen_in (seen_of self.new)) }
        ensures change { Looks (⟦<FileStore<C> as Store>⟧.state self.old) (⟦<FileStore<C> as Store>⟧.state self.new) }
        ensures cause { HasCause (⟦<FileStore<C> as Store>⟧.state self.old) (⟦<FileStore<C> as Store>⟧.state self.new) result }
        ensures alive { OnOk result (IsFalse (has_failed self.old)) }
        ensures failed { IsTrue (has_failed self.old) → IsTrue (has_failed self.new) }
    {
        if self.tracked.notes.lost {
            return Err(refuse_with(&mut self.calls, &self.tracked, &Refusal::AfterSync));
        }
        read_cell(&mut self.calls, &mut self.tracked, cell, into)?;
        if self.fresh {
            note_read(&self.calls, &mut self.seen, cell, into);
        }
        Ok(())
    }

    /// Refuses a slot that doesn't hold the whole of the item. One that was read before anything was written isn't looked at again.
    fn expects(&mut self, slot: &Cell, name: &Name) -> Result<(), StoreFailed>
        requires slot { IsTrue (is_slot slot.now) }
        ensures held { OnOk result (WhereTold (calls_state self.old) slot.now (HoldsItem (calls_state self.old) slot.now name.now)) }
        ensures noted { OnOk result (seen_in (seen_of self.new) slot.now name.now) }
        ensures kept { KeepsSeen (seen_of self.old) (seen_of self.new) slot.now }
        ensures seen { Remembers (λ c. c ≡ slot.now) (seen_in (seen_of self.old)) (seen_in (seen_of self.new)) }
        ensures change { Looks (⟦<FileStore<C> as Store>⟧.state self.old) (⟦<FileStore<C> as Store>⟧.state self.new) }
        ensures cause { HasGround ⊤ (Lacks (⟦<FileStore<C> as Store>⟧.state self.old).reads slot.now name.now) (⟦<FileStore<C> as Store>⟧.state self.old) (⟦<FileStore<C> as Store>⟧.state self.new) result }
        ensures said { OnErr result (IsSaid (calls_state self.old) (calls_state self.new)) }
        ensures alive { OnOk result (IsFalse (has_failed self.old)) }
        ensures failed { IsTrue (has_failed self.old) → IsTrue (has_failed self.new) }
    {
        if self.tracked.notes.lost {
            return Err(refuse_with(&mut self.calls, &self.tracked, &Refusal::AfterSync));
        }
        if self.fresh && self.seen.at(slot) == Some(*name) {
            return Ok(());
        }
        expects(
            &mut self.calls,
            &mut self.tracked,
            &mut self.seen,
            slot,
            name,
        )
    }

    /// Refuses a slot that holds an item which this process has seen nowhere else. Where it doesn't refuse, another slot holds the item.
    fn expects_free(&mut self, slot: &Cell) -> Result<(), StoreFailed>
        requires slot { IsTrue (is_slot slot.now) }
        ensures free { OnOk result (LosesNone (calls_state self.old) slot.now) }
        ensures kept { seen_of self.new ≡ seen_of self.old }
        ensures seen { Remembers NoCell (seen_in (seen_of self.old)) (seen_in (seen_of self.new)) }
        ensures change { Looks (⟦<FileStore<C> as Store>⟧.state self.old) (⟦<FileStore<C> as Store>⟧.state self.new) }
        ensures cause { HasGround ⊤ (IsLast (⟦<FileStore<C> as Store>⟧.state self.old).reads (seen_in (seen_of self.old)) slot.now) (⟦<FileStore<C> as Store>⟧.state self.old) (⟦<FileStore<C> as Store>⟧.state self.new) result }
        ensures said { OnErr result (IsSaid (calls_state self.old) (calls_state self.new)) }
        ensures alive { OnOk result (IsFalse (has_failed self.old)) }
        ensures failed { IsTrue (has_failed self.old) → IsTrue (has_failed self.new) }
    {
        if self.tracked.notes.lost {
            return Err(refuse_with(&mut self.calls, &self.tracked, &Refusal::AfterSync));
        }
        match expects_free(&mut self.calls, &mut self.tracked, &self.seen, slot) {
            Ok(_) => Ok(()),
            Err(failed) => Err(failed),
        }
    }

    /// Refuses where the first slot holds bytes of an item which the second, that holds it too, lacks.
    fn expects_copy(&mut self, from: &Cell, to: &Cell) -> Result<(), StoreFailed>
        requires slots { IsTrue (is_slot from.now) × IsTrue (is_slot to.now) }
        ensures same { OnOk result (HoldsCopy (⟦<FileStore<C> as Store>⟧.state self.old).reads from.now to.now) }
        ensures kept { seen_of self.new ≡ seen_of self.old }
        ensures seen { Remembers NoCell (seen_in (seen_of self.old)) (seen_in (seen_of self.new)) }
        ensures change { Looks (⟦<FileStore<C> as Store>⟧.state self.old) (⟦<FileStore<C> as Store>⟧.state self.new) }
        ensures cause { HasGround ⊤ (SlotsDiffer (⟦<FileStore<C> as Store>⟧.state self.old).reads from.now to.now) (⟦<FileStore<C> as Store>⟧.state self.old) (⟦<FileStore<C> as Store>⟧.state self.new) result }
        ensures said { OnErr result (IsSaid (calls_state self.old) (calls_state self.new)) }
        ensures alive { OnOk result (IsFalse (has_failed self.old)) }
        ensures failed { IsTrue (has_failed self.old) → IsTrue (has_failed self.new) }
    {
        if self.tracked.notes.lost {
            return Err(refuse_with(&mut self.calls, &self.tracked, &Refusal::AfterSync));
        }
        expects_copy(&mut self.calls, &mut self.tracked, from, to)
    }

    /// Writes a cell. A slot is emptied only where no item is lost by it.
    fn write(&mut self, cell: &Cell, bytes: &[u8]) -> Result<(), StoreFailed>
        requires length { length bytes.now ≡ cell_len cell.now }
        requires not_target { ¬ IsTargetOf (flights (⟦<FileStore<C> as Store>⟧.state self.old)) cell.now }
        requires not_source { ¬ IsSourceOf (flights (⟦<FileStore<C> as Store>⟧.state self.old)) cell.now }
        ensures written { OnOk result (IfSome ((⟦<FileStore<C> as Store>⟧.state self.new).reads cell.now) (λ told. told ≡ bytes.now)) }
        ensures free { IsErasure cell.now bytes.now → OnOk result (LosesNone (calls_state self.old) cell.now) }
        ensures forgotten { OnOk result (seen_at (seen_of self.new) cell.now ≡ None) }
        ensures kept { KeepsSeen (seen_of self.old) (seen_of self.new) cell.now }
        ensures seen { Remembers (λ c. c ≡ cell.now) (seen_in (seen_of self.old)) (seen_in (seen_of self.new)) }
        ensures change { ChangesOnly (λ c. c ≡ cell.now) (⟦<FileStore<C> as Store>⟧.state self.old) (⟦<FileStore<C> as Store>⟧.state self.new) }
        ensures cause { HasGround ⊤ (IsErasure cell.now bytes.now × IsLast (⟦<FileStore<C> as Store>⟧.state self.old).reads (seen_in (seen_of self.old)) cell.now) (⟦<FileStore<C> as Store>⟧.state self.old) (⟦<FileStore<C> as Store>⟧.state self.new) result }
        ensures said { OnErr result (IsSaid (calls_state self.old) (calls_state self.new)) }
        ensures alive { OnOk result (IsFalse (has_failed self.old)) }
        ensures failed { IsTrue (has_failed self.old) → IsTrue (has_failed self.new) }
    {
        if self.tracked.notes.lost {
            return Err(refuse_with(&mut self.calls, &self.tracked, &Refusal::AfterSync));
        }
        self.fresh = false;
        write_item(
            &mut self.calls,
            &mut self.tracked,
            &mut self.seen,
            cell,
            bytes,
        )
    }

    /// Copies a slot that holds an item to one that doesn't hold another. It has ended when this returns.
    fn begin(&mut self, from: &Cell, to: &Cell) -> Result<(), StoreFailed>
        requires slots { IsTrue (is_slot from.now) × IsTrue (is_slot to.now) }
        requires apart { from.now ≢ to.now }
        requires from_still { ¬ IsTargetOf (flights (⟦<FileStore<C> as Store>⟧.state self.old)) from.now }
        requires not_target { ¬ IsTargetOf (flights (⟦<FileStore<C> as Store>⟧.state self.old)) to.now }
        requires not_source { ¬ IsSourceOf (flights (⟦<FileStore<C> as Store>⟧.state self.old)) to.now }
        ensures begun { OnOk result (Changes (λ c. c ≡ to.now) (λ c. c ≡ to.now) (began (record { from = from.now; to = to.now }) ∷ []) (⟦<FileStore<C> as Store>⟧.state self.old) (⟦<FileStore<C> as Store>⟧.state self.new)) }
        ensures copied { OnOk result (¬ IsMoving (⟦<FileStore<C> as Store>⟧.state self.new) to.now → IsCopy ((⟦<FileStore<C> as Store>⟧.state self.old).reads from.now) ((⟦<FileStore<C> as Store>⟧.state self.new).reads to.now)) }
        ensures free { OnOk result ((item : List ℕ) × MayCopy (calls_state self.old) from.now to.now item) }
        ensures noted { OnOk result (⊤ → IsSeenAtBoth (seen_in (seen_of self.new)) from.now to.now) }
        ensures kept { KeepsSeenBut (seen_of self.old) (seen_of self.new) from.now to.now }
        ensures seen { Remembers (λ c. (c ≡ from.now) ⊎ (c ≡ to.now)) (seen_in (seen_of self.old)) (seen_in (seen_of self.new)) }
        ensures change { (n : ℕ) × Changes (λ c. c ≡ to.now) (λ c. c ≡ to.now) (take n (began (record { from = from.now; to = to.now }) ∷ [])) (⟦<FileStore<C> as Store>⟧.state self.old) (⟦<FileStore<C> as Store>⟧.state self.new) }
        ensures cause { HasGround ⊤ (IsUncopiable (⟦<FileStore<C> as Store>⟧.state self.old).reads (seen_in (seen_of self.new)) from.now to.now) (⟦<FileStore<C> as Store>⟧.state self.old) (⟦<FileStore<C> as Store>⟧.state self.new) result }
        ensures said { OnErr result (IsSaid (calls_state self.old) (calls_state self.new)) }
        ensures alive { OnOk result (IsFalse (has_failed self.old)) }
        ensures failed { IsTrue (has_failed self.old) → IsTrue (has_failed self.new) }
    {
        if self.tracked.notes.lost {
            return Err(refuse_with(&mut self.calls, &self.tracked, &Refusal::AfterSync));
        }
        self.fresh = false;
        copy_item(&mut self.calls, &mut self.tracked, &mut self.seen, from, to)
    }

    /// No copy is in flight.
    fn ended(&mut self) -> Result<Option<(Cell, Cell)>, StoreFailed>
        ensures ends { Ends (named (⟦<FileStore<C> as Store>⟧.state self.old) result) (⟦<FileStore<C> as Store>⟧.state self.old) (⟦<FileStore<C> as Store>⟧.state self.new) }
        ensures none { IfOk result (λ answer. IfNone answer (flights (⟦<FileStore<C> as Store>⟧.state self.old) ≡ [])) }
        ensures some { IfOk result (λ answer. IfSome answer (λ _. flights (⟦<FileStore<C> as Store>⟧.state self.old) ≢ [])) }
        ensures kept { seen_of self.new ≡ seen_of self.old }
        ensures seen { Remembers NoCell (seen_in (seen_of self.old)) (seen_in (seen_of self.new)) }
        ensures cause { HasCause (⟦<FileStore<C> as Store>⟧.state self.old) (⟦<FileStore<C> as Store>⟧.state self.new) result }
        ensures lost { OnErr result (IsTrue (has_failed self.old)) }
        ensures alive { OnOk result (IsFalse (has_failed self.old)) }
        ensures failed { IsTrue (has_failed self.old) → IsTrue (has_failed self.new) }
    {
        if self.tracked.notes.lost {
            return Err(refuse_with(&mut self.calls, &self.tracked, &Refusal::AfterSync));
        }
        Ok(None)
    }

    /// Brings all that was written to the device. Where it fails each call fails from then on.
    fn sync(&mut self) -> Result<(), StoreFailed>
        ensures ends { (these : List Flight) × Ends these (⟦<FileStore<C> as Store>⟧.state self.old) (⟦<FileStore<C> as Store>⟧.state self.new) }
        ensures settled { OnOk result (IsSettled (⟦<FileStore<C> as Store>⟧.state self.new)) }
        ensures landed { OnOk result (flights (⟦<FileStore<C> as Store>⟧.state self.new) ≡ []) }
        ensures kept { seen_of self.new ≡ seen_of self.old }
        ensures seen { Remembers NoCell (seen_in (seen_of self.old)) (seen_in (seen_of self.new)) }
        ensures cause { HasCause (⟦<FileStore<C> as Store>⟧.state self.old) (⟦<FileStore<C> as Store>⟧.state self.new) result }
        ensures alive { OnOk result (IsFalse (has_failed self.old)) }
        ensures failed { OnErr result (IsTrue (has_failed self.new)) }
    {
        if self.tracked.notes.lost {
            return Err(refuse_with(&mut self.calls, &self.tracked, &Refusal::AfterSync));
        }
        match sync_cells(&mut self.calls, &mut self.tracked) {
            Ok(()) => Ok(()),
            Err(failed) => {
                self.tracked.notes.lost = true;
                Err(failed)
            }
        }
    }
}
