//! Why no input is read.
ghost use Rattle.std.specs.Prelude.{◌≡◌};

use mig_base::{FileKind, Why};
use thiserror::Error;

/// Why no input was read.
#[derive(Debug, Drop, Error)]
pub enum InputError {
    /// The first fault of the files: at this row of this file, with this cause.
    ///
    /// The header is row 0 and the record after it is row 1.
    #[error("a file of the input is refused")]
    Refused { file: FileKind, row: u32, why: Why },
    /// Want of memory.
    #[error("out of memory")]
    Memory,
}

/// The refusal of a file at this row, with this cause.
pub(crate) fn refused(file: FileKind, row: u32, why: Why) -> InputError
    ensures { result ≡ InputError.Refused file row why }
{
    InputError::Refused { file, row, why }
}
