//! The marks of rounds.
ghost use Rattle.std.specs.Prelude.{◌≡◌, ◌≤◌, [], ◌∷◌, ℕ, IfOk, OnOk, IfSome, IsFalse, length};
ghost use Rattle.std.specs.List.{prefix_len, range_with_len};
ghost use Rattle.mig_base.specs.declared.cells.Cell.{Cell};
ghost use Rattle.mig_base.specs.declared.cells.Cell.TheVariants.{Mark};
ghost use Rattle.mig_base.specs.Cells.{cell_len, is_slot};
ghost use Rattle.mig_base.specs.Images.{NoCell};
ghost use Rattle.mig_base.specs.Journals.{is_marked};
ghost use Rattle.mig_base.specs.JobCells.{IsMark, Tells};
ghost use Rattle.mig_base.specs.Stores.{State, flights, ChangesOnly, Looks, IsSettled, HasCause};
ghost use Rattle.mig_store.specs.Grounds.{IsNoSlot, Remembers};

use mig_base::Cell;
use mig_store::{Store, StoreFailed};

// Whether a mark reads 1.
fn is_set<S: Store>(store: &mut S, round: u32) -> Result<bool, StoreFailed>
    ensures set { IfOk result (λ yes. IfSome ((S.state store.old).reads (Mark round)) (λ bytes. yes ≡ is_marked (S.state store.old).reads round)) }
    ensures change { Looks (S.state store.old) (S.state store.new) }
    ensures seen { Remembers NoCell (S.seen store.old) (S.seen store.new) }
    ensures cause { HasCause (S.state store.old) (S.state store.new) result }
{
    let mut byte = [0u8; 1];
    store.read(&Cell::Mark { n: round }, &mut byte)?;
    Ok(byte[0] == 1)
}

/// How many of the marks 1 to `rounds` read 1, from the first on. It writes nothing, and copies may be in flight.
pub fn marked<S: Store>(store: &mut S, rounds: u32) -> Result<u32, StoreFailed>
    ensures most { IfOk result (λ count. count ≤ rounds) }
    ensures count { IfOk result (λ count. Tells (IsMark rounds) (S.state store.old).reads → count ≡ prefix_len (is_marked (S.state store.old).reads) (range_with_len 1 rounds)) }
    ensures change { Looks (S.state store.old) (S.state store.new) }
    ensures seen { Remembers NoCell (S.seen store.old) (S.seen store.new) }
    ensures cause { HasCause (S.state store.old) (S.state store.new) result }
{
    for n in 0..rounds {
        if !is_set(store, n + 1)? {
            return Ok(n);
        }
    }
    Ok(rounds)
}

// Writes a cell of the journal and syncs.
pub(crate) fn settle<S: Store>(store: &mut S, cell: &Cell, bytes: &[u8]) -> Result<(), StoreFailed>
    requires journal { IsFalse (is_slot cell.now) }
    requires length { length bytes.now ≡ cell_len cell.now }
    requires none { flights (S.state store.old) ≡ [] }
    ensures written { OnOk result (IfSome ((S.state store.new).reads cell.now) (λ told. told ≡ bytes.now)) }
    ensures settled { OnOk result (IsSettled (S.state store.new)) }
    ensures change { ChangesOnly (λ c. c ≡ cell.now) (S.state store.old) (S.state store.new) }
    ensures seen { Remembers IsNoSlot (S.seen store.old) (S.seen store.new) }
    ensures cause { HasCause (S.state store.old) (S.state store.new) result }
{
    store.write(cell, bytes)?;
    store.sync()
}

/// Sets the mark of a round that is carried out, and syncs. Rounds count from 1.
pub fn mark<S: Store>(store: &mut S, round: u32) -> Result<(), StoreFailed>
    requires none { flights (S.state store.old) ≡ [] }
    ensures marked { OnOk result (IfSome ((S.state store.new).reads (Mark round)) (λ bytes. bytes ≡ 1 ∷ [])) }
    ensures settled { OnOk result (IsSettled (S.state store.new)) }
    ensures change { ChangesOnly (λ c. c ≡ Mark round) (S.state store.old) (S.state store.new) }
    ensures seen { Remembers IsNoSlot (S.seen store.old) (S.seen store.new) }
    ensures cause { HasCause (S.state store.old) (S.state store.new) result }
{
    settle(store, &Cell::Mark { n: round }, &[1])
}
