//! A store of cells: what its reads give, which copies are in flight, and what a crash may leave.
ghost use Rattle.std.specs.Prelude.{◌≡◌, ◌≢◌, ◌⊎◌, ◌≤◌, ℕ, List, [], ◌∷◌, IsTrue, IfOk, OnOk, IfSome, IfNone, IsSome, length, take};
ghost use Rattle.mig_base.specs.Cells.{cell_len, is_slot};
ghost use Rattle.mig_base.specs.Images.{NoCell, IsCopy};
ghost use Rattle.mig_base.specs.declared.cells.Cell.{Cell};
ghost use Rattle.mig_base.specs.declared.cells.Flight.{Flight};
ghost use Rattle.mig_base.specs.Flights.{began, IsTargetOf, IsSourceOf};
ghost use Rattle.mig_base.specs.Naming.{IsName};
ghost use Rattle.mig_base.specs.Stores.{State, IsState, flights, IsMoving, Changes, ChangesOnly, Looks, Ends, named, IsSettled, HasCause};
ghost use Rattle.mig_store.specs.Grounds.{HasGround, Holds, IsErasure, IsLast, IsSeenAtBoth, IsUncopiable, Lacks, Remembers, SlotsDiffer};

use mig_base::{Cell, Name};

/// A fault of the store itself.
#[derive(Clone, Copy, Debug, PartialEq, Eq)]
pub struct StoreFailed;

/// The cells of disks and of a journal.
///
/// Each call fails only where the store's count of faults rose in this call, or where a store that refuses does so for what its cells show.
pub trait Store {
    /// What the store tells of itself.
    ghost state: { Self → State };

    /// What Ok of `expects` and `expects_free` says of a slot, which must be known of it before it is written over or emptied.
    /// Who serves any store knows it of no slot that it didn't ask for.
    ghost asked: { Cell → Type 0 };

    /// What Ok of `expects_copy` says of two slots. Who serves any store knows it of no slots that it didn't ask for.
    ghost compared: { Cell → Cell → Type 0 };

    /// Whether the store may refuse a call that doesn't fail, for what it finds.
    ghost refuses: { Type 0 };

    /// At which slots the store has seen which items, and hasn't written since.
    ghost seen: { Self → Cell → List ℕ → Type 0 };

    /// Reads a cell. The target of a copy in flight may give any bytes.
    fn read(&mut self, cell: &Cell, into: &mut [u8]) -> Result<(), StoreFailed>
        requires { length into.old ≡ cell_len cell.now }
        ensures bytes { OnOk result (¬ IsMoving (state self.old) cell.now → IfSome ((state self.old).reads cell.now) (λ bytes. into.new ≡ bytes)) }
        ensures seen { Remembers NoCell (seen self.old) (seen self.new) }
        ensures change { Looks (state self.old) (state self.new) }
        ensures cause { HasCause (state self.old) (state self.new) result };

    /// Asks whether a slot holds the item of this name, before anything is written, or told of it, that rests on it. A store whose slots may be another's fails where this one doesn't; any other store may answer Ok unseen.
    fn expects(&mut self, slot: &Cell, name: &Name) -> Result<(), StoreFailed>
        requires slot { IsTrue (is_slot slot.now) }
        ensures asked { OnOk result (asked slot.now) }
        ensures noted { OnOk result (seen self.new slot.now name.now) }
        ensures seen { Remembers (λ c. c ≡ slot.now) (seen self.old) (seen self.new) }
        ensures change { Looks (state self.old) (state self.new) }
        ensures cause { HasGround refuses (Lacks (state self.old).reads slot.now name.now) (state self.old) (state self.new) result };

    /// Asks whether a slot may be emptied or written over. A store whose slots may be another's fails where this one holds an item that wasn't expected at another slot; any other store may answer Ok unseen.
    fn expects_free(&mut self, slot: &Cell) -> Result<(), StoreFailed>
        requires slot { IsTrue (is_slot slot.now) }
        ensures asked { OnOk result (asked slot.now) }
        ensures seen { Remembers NoCell (seen self.old) (seen self.new) }
        ensures change { Looks (state self.old) (state self.new) }
        ensures cause { HasGround refuses (IsLast (state self.old).reads (seen self.old) slot.now) (state self.old) (state self.new) result };

    /// Asks whether what a slot still holds of an item that was copied to another stands there too, before it is emptied. A store whose slots may be another's fails where it doesn't; any other store may answer Ok unseen.
    fn expects_copy(&mut self, from: &Cell, to: &Cell) -> Result<(), StoreFailed>
        requires slots { IsTrue (is_slot from.now) × IsTrue (is_slot to.now) }
        ensures compared { OnOk result (compared from.now to.now) }
        ensures seen { Remembers NoCell (seen self.old) (seen self.new) }
        ensures change { Looks (state self.old) (state self.new) }
        ensures cause { HasGround refuses (SlotsDiffer (state self.old).reads from.now to.now) (state self.old) (state self.new) result };

    /// Writes a cell. A store that refuses does so where zeros are written to a slot that holds an item which it has seen at no other. Until a sync succeeds a crash may leave any bytes in the cell, also where the write failed.
    fn write(&mut self, cell: &Cell, bytes: &[u8]) -> Result<(), StoreFailed>
        requires length { length bytes.now ≡ cell_len cell.now }
        requires asked { IsTrue (is_slot cell.now) → asked cell.now }
        requires not_target { ¬ IsTargetOf (flights (state self.old)) cell.now }
        requires not_source { ¬ IsSourceOf (flights (state self.old)) cell.now }
        ensures written { OnOk result (IfSome ((state self.new).reads cell.now) (λ told. told ≡ bytes.now)) }
        ensures seen { Remembers (λ c. c ≡ cell.now) (seen self.old) (seen self.new) }
        ensures change { ChangesOnly (λ c. c ≡ cell.now) (state self.old) (state self.new) }
        ensures cause { HasGround refuses (IsErasure cell.now bytes.now × IsLast (state self.old).reads (seen self.old) cell.now) (state self.old) (state self.new) result };

    /// Begins to copy a slot to another, which may hold any bytes until the copy ends.
    /// A store that doesn't tell its events has copied at once. One that refuses does so where the first holds no item, or the second another one that was seen nowhere else.
    fn begin(&mut self, from: &Cell, to: &Cell) -> Result<(), StoreFailed>
        requires slots { IsTrue (is_slot from.now) × IsTrue (is_slot to.now) }
        requires apart { from.now ≢ to.now }
        requires asked { asked to.now }
        requires from_still { ¬ IsTargetOf (flights (state self.old)) from.now }
        requires not_target { ¬ IsTargetOf (flights (state self.old)) to.now }
        requires not_source { ¬ IsSourceOf (flights (state self.old)) to.now }
        ensures begun { OnOk result (Changes (λ c. c ≡ to.now) (λ c. c ≡ to.now) (began (record { from = from.now; to = to.now }) ∷ []) (state self.old) (state self.new)) }
        ensures copied { OnOk result (¬ IsMoving (state self.new) to.now → IsCopy ((state self.old).reads from.now) ((state self.new).reads to.now)) }
        ensures noted { OnOk result (refuses → IsSeenAtBoth (seen self.new) from.now to.now) }
        ensures seen { Remembers (λ c. (c ≡ from.now) ⊎ (c ≡ to.now)) (seen self.old) (seen self.new) }
        ensures change { (n : ℕ) × Changes (λ c. c ≡ to.now) (λ c. c ≡ to.now) (take n (began (record { from = from.now; to = to.now }) ∷ [])) (state self.old) (state self.new) }
        ensures cause { HasGround refuses (IsUncopiable (state self.old).reads (seen self.new) from.now to.now) (state self.old) (state self.new) result };

    /// Ends a copy in flight and names it; None where none is in flight. What a store names that doesn't tell its events says nothing.
    fn ended(&mut self) -> Result<Option<(Cell, Cell)>, StoreFailed>
        ensures ends { Ends (named (state self.old) result) (state self.old) (state self.new) }
        ensures none { IfOk result (λ answer. IfNone answer (flights (state self.old) ≡ [])) }
        ensures some { IsSome (state self.old).events → IfOk result (λ answer. IfSome answer (λ _. flights (state self.old) ≢ [])) }
        ensures seen { Remembers NoCell (seen self.old) (seen self.new) }
        ensures cause { HasCause (state self.old) (state self.new) result };

    /// Ends each copy in flight; after it a crash leaves what reads give. Where it fails it may have ended some copies.
    fn sync(&mut self) -> Result<(), StoreFailed>
        ensures ends { (these : List Flight) × Ends these (state self.old) (state self.new) }
        ensures settled { OnOk result (IsSettled (state self.new)) }
        ensures landed { OnOk result (flights (state self.new) ≡ []) }
        ensures seen { Remembers NoCell (seen self.old) (seen self.new) }
        ensures cause { HasCause (state self.old) (state self.new) result };

    ghost is_state: { (store : Self) → IsState (state store) };

    /// An item is still where a store that refuses has seen it.
    ghost holds_seen: { (store : Self) (slot : Cell) (item : List ℕ) → refuses → IsName item → seen store slot item → Holds (state store).reads slot item };
}
