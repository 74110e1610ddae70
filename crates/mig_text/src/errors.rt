//! Why a text is not read.

use std::alloc::AllocError;
use thiserror::Error;

/// Why a text was not read.
#[derive(Clone, Copy, Debug, PartialEq, Eq, Error)]
pub enum TextError {
    /// The text isn't a spelling. The number is that of the first line that doesn't fit its place,
    /// counted from 1, and 0 where the text is too long.
    #[error("a line of the text doesn't fit its place")]
    Line { number: u32 },
    /// Memory was refused.
    #[error("there was no memory to read the text")]
    Memory,
}

impl From<AllocError> for TextError {
    ghost use Rattle.std.specs.Prelude.{◌≡◌};
    ghost use Rattle.mig_text.specs.declared.errors.TextError.TheVariants as text_error;

    ghost from_gives = { λ _ e. e ≡ text_error.Memory };

    fn from(_error: AllocError) -> Self {
        TextError::Memory
    }
}
