//! Why a disk isn't emptied.
use std::alloc::AllocError;
use thiserror::Error;

/// Why a disk isn't emptied.
#[derive(Clone, Copy, Debug, PartialEq, Eq, Error)]
pub enum DrainError {
    /// The disk has `items` items, and the other disks have only `free` free slots together.
    #[error("the other disks have too few free slots for the items")]
    NoRoom { items: u32, free: u32 },
    /// Want of memory.
    #[error("out of memory")]
    Memory,
}

impl From<AllocError> for DrainError {
    ghost use Rattle.std.specs.Prelude.{◌≡◌};
    ghost use Rattle.mig_drain.specs.declared.errors.DrainError.TheVariants as drain_error;

    ghost from_gives = { λ _ e. e ≡ drain_error.Memory };

    fn from(_error: AllocError) -> Self {
        DrainError::Memory
    }
}
