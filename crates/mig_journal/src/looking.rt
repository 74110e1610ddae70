//! What a journal shows.
ghost use Rattle.std.specs.Prelude.{◌≡◌, IfOk, IsSome};
ghost use Rattle.mig_base.specs.declared.cells.Cell.TheVariants.{Gate, Head};
ghost use Rattle.mig_base.specs.Images.{NoCell};
ghost use Rattle.mig_base.specs.Journals.{is_armed};
ghost use Rattle.mig_base.specs.Stores.{State, Looks, HasCause};
ghost use Rattle.mig_journal.specs.SeenJournals.{is_running, HasHead};
ghost use Rattle.mig_store.specs.Grounds.{Remembers};

use mig_base::Cell;
use mig_store::{Store, StoreFailed};

/// What a journal shows.
#[derive(Clone, Copy, Debug, PartialEq, Eq)]
pub enum Seen {
    /// The gate isn't 1.
    Idle,
    /// The gate is 1: the plan with this digest is being carried out, or was.
    Running { digest: [u8; 32] },
}

/// Whether a plan is being carried out or was, and which. It writes nothing.
pub fn look<S: Store>(store: &mut S) -> Result<Seen, StoreFailed>
    ensures gate { IfOk result (λ seen. IsSome ((S.state store.old).reads Gate) → is_running seen ≡ is_armed (S.state store.old).reads) }
    ensures head { IfOk result (λ seen. HasHead seen ((S.state store.old).reads Head)) }
    ensures change { Looks (S.state store.old) (S.state store.new) }
    ensures seen { Remembers NoCell (S.seen store.old) (S.seen store.new) }
    ensures cause { HasCause (S.state store.old) (S.state store.new) result }
{
    let mut gate = [0u8; 1];
    store.read(&Cell::Gate, &mut gate)?;
    if gate[0] != 1 {
        return Ok(Seen::Idle);
    }
    let mut digest = [0u8; 32];
    store.read(&Cell::Head, &mut digest)?;
    Ok(Seen::Running { digest })
}
