//! Why there is no plan.
use mig_base::DiskId;
use std::alloc::AllocError;
use thiserror::Error;

/// Why there is no plan for tight space.
#[derive(Clone, Copy, Debug, PartialEq, Eq, Error)]
pub enum TightError {
    /// The disk is the next disk of `needs` items and has fewer slots, and it is the first such disk.
    #[error("a disk is the next disk of more items than it has slots")]
    TooMany {
        disk: DiskId,
        needs: u32,
        slots: u32,
    },
    /// Some item is relocated, and each disk has an item in each of its slots.
    #[error("no slot is free")]
    NoFree,
    /// Want of memory.
    #[error("out of memory")]
    Memory,
}

impl From<AllocError> for TightError {
    ghost use Rattle.std.specs.Prelude.{◌≡◌};
    ghost use Rattle.mig_tight.specs.declared.errors.TightError.TheVariants as tight_error;

    ghost from_gives = { λ _ e. e ≡ tight_error.Memory };

    fn from(_error: AllocError) -> Self {
        TightError::Memory
    }
}
