//! How a journal is armed, and closed again.
ghost use Rattle.std.specs.Prelude.{◌≡◌, [], ◌∷◌, false, OnOk, IfSome};
ghost use Rattle.mig_base.specs.declared.cells.Cell.TheVariants.{Gate};
ghost use Rattle.mig_base.specs.Images.{Image};
ghost use Rattle.mig_base.specs.Journals.{is_armed};
ghost use Rattle.mig_base.specs.JobCells.{IsMark, IsJournal};
ghost use Rattle.mig_base.specs.Stores.{State, flights, ChangesOnly, LeavesOnly, IsSettled, HasCause};
ghost use Rattle.mig_journal.specs.FreshJournals.{AreUnmarked, IsFresh, IsArming};
ghost use Rattle.mig_store.specs.Grounds.{IsNoSlot, Remembers};

use crate::marks::settle;
use mig_base::Cell;
use mig_store::{Store, StoreFailed};

// Writes 0 to the marks 1 to `rounds`.
fn clear_marks<S: Store>(store: &mut S, rounds: u32) -> Result<(), StoreFailed>
    requires none { flights (S.state store.old) ≡ [] }
    ensures cleared { OnOk result (AreUnmarked rounds (S.state store.new).reads) }
    ensures change { ChangesOnly (IsMark rounds) (S.state store.old) (S.state store.new) }
    ensures seen { Remembers IsNoSlot (S.seen store.old) (S.seen store.new) }
    ensures cause { HasCause (S.state store.old) (S.state store.new) result }
{
    for n in 0..rounds {
        store.write(&Cell::Mark { n: n + 1 }, &[0])?;
    }
    Ok(())
}

/// Names the plan with this digest in the journal, with none of its rounds carried out: writes 0 to the marks and
/// the digest to the head, syncs, writes 1 to the gate, and syncs. The gate must not be 1 before.
pub fn arm<S: Store>(store: &mut S, digest: &[u8; 32], rounds: u32) -> Result<(), StoreFailed>
    requires idle { (image : Image) → (S.state store.old).may_leave image → is_armed image ≡ false }
    requires none { flights (S.state store.old) ≡ [] }
    ensures armed { OnOk result (IfSome ((S.state store.new).reads Gate) (λ bytes. bytes ≡ 1 ∷ [])) }
    ensures fresh { OnOk result (IsFresh rounds digest.now (S.state store.new).reads) }
    ensures settled { OnOk result (IsSettled (S.state store.new)) }
    ensures change { ChangesOnly (IsJournal rounds) (S.state store.old) (S.state store.new) }
    // At each moment the gate isn't 1, or the head is the digest and the marks are 0.
    ensures any_moment { LeavesOnly (IsArming rounds digest.now (S.state store.old)) (S.state store.old) (S.state store.new) }
    ensures seen { Remembers IsNoSlot (S.seen store.old) (S.seen store.new) }
    ensures cause { HasCause (S.state store.old) (S.state store.new) result }
{
    clear_marks(store, rounds)?;
    settle(store, &Cell::Head, digest)?;
    settle(store, &Cell::Gate, &[1])
}

/// Closes the journal: writes 0 to the gate, and syncs.
pub fn disarm<S: Store>(store: &mut S) -> Result<(), StoreFailed>
    requires none { flights (S.state store.old) ≡ [] }
    ensures closed { OnOk result (IfSome ((S.state store.new).reads Gate) (λ bytes. bytes ≡ 0 ∷ [])) }
    ensures settled { OnOk result (IsSettled (S.state store.new)) }
    ensures change { ChangesOnly (λ c. c ≡ Gate) (S.state store.old) (S.state store.new) }
    ensures seen { Remembers IsNoSlot (S.seen store.old) (S.seen store.new) }
    ensures cause { HasCause (S.state store.old) (S.state store.new) result }
{
    settle(store, &Cell::Gate, &[0])
}
