//! Why a plan isn't carried out.
ghost use Rattle.std.specs.Prelude.{◌≡◌};

use mig_base::{DiskId, ItemId};
use mig_store::StoreFailed;
use thiserror::Error;

/// Why a plan isn't carried out.
#[derive(Clone, Copy, Debug, PartialEq, Eq, Error)]
pub enum MoveFault {
    /// The store failed.
    #[error("the store failed")]
    Store,
    /// The journal says that this plan is being carried out, or was; where a store is to be filled, any plan.
    #[error("the plan was started before")]
    Started,
    /// The journal says that another plan is being carried out, or was: `kept` is its digest, `ours` that of this plan.
    #[error("another plan was started")]
    OtherPlan { kept: [u8; 32], ours: [u8; 32] },
    /// The journal says that no plan is being carried out.
    #[error("no plan was started")]
    NotStarted,
    /// The slot where the item is listed doesn't name it.
    #[error("an item isn't at its spot")]
    NotThere { item: ItemId },
    /// A target that is listed as free is used; where a store is to be filled, a slot where an item is listed.
    #[error("a target is used")]
    Occupied { disk: DiskId, slot: u32 },
}

impl From<StoreFailed> for MoveFault {
    ghost use Rattle.mig_mover.specs.declared.faults.MoveFault.{MoveFault};

    ghost from_gives = { λ _ e. e ≡ MoveFault.Store };

    fn from(_: StoreFailed) -> Self {
        MoveFault::Store
    }
}
