//! Why a drill ends without its answer.
ghost use Rattle.std.specs.Prelude.{◌≡◌};

use mig_io::SinkFailed;
use std::alloc::AllocError;
use thiserror::Error;

/// Why a drill ends without its answer.
#[derive(Clone, Copy, Debug, PartialEq, Eq, Error)]
pub enum DrillFault {
    /// The sink failed.
    #[error("the sink failed")]
    Sink,
    /// Memory was refused.
    #[error("memory was refused")]
    Memory,
}

impl From<SinkFailed> for DrillFault {
    ghost use Rattle.mig_drill.specs.declared.faults.DrillFault.{DrillFault};

    ghost from_gives = { λ _ e. e ≡ DrillFault.Sink };

    fn from(_: SinkFailed) -> Self {
        DrillFault::Sink
    }
}

impl From<AllocError> for DrillFault {
    ghost use Rattle.mig_drill.specs.declared.faults.DrillFault.{DrillFault};

    ghost from_gives = { λ _ e. e ≡ DrillFault.Memory };

    fn from(_: AllocError) -> Self {
        DrillFault::Memory
    }
}
