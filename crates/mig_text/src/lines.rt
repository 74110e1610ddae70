//! The lines of a text, one after another.
ghost use Rattle.std.specs.Prelude.{◌≡◌, ◌+◌, ◌≤◌, ◌∷◌, [], length, codes, IfOk, IfErr, OnOk};
ghost use Rattle.std.specs.Fmt.{decimal};
ghost use Rattle.mig_base.specs.Misfits.{pieces};
ghost use Rattle.mig_base.specs.Texts.{words};
ghost use Rattle.mig_text.specs.Reads.{EndsWrong, HasNoBlank, IsCountUpTo, IsMiss, Left, Misses, Took};
ghost use Rattle.mig_text.specs.declared.errors.TextError.TheVariants as text_error;

use crate::words::read_count;
use crate::{Parts, TextError};
use mig_base::MAX_FILE_BYTES;
use std::marker::Model;

/// The pieces of a text that are left, and how many were taken. A piece is what stands between two
/// ends of a line.
#[derive(Drop)]
pub struct Lines<'a> {
    parts: Parts<'a>,
    taken: u32,
}

impl<'a> Model for Lines<'a> {
    ghost use Rattle.std.specs.Prelude.{◌+◌, ◌-◌, ◌<◌, ◌^◌, length};
    ghost use Rattle.mig_text.specs.Reads.{Left};

    ghost Value = { Left };

    ghost view = { λ a. record { taken = a.taken; pieces = a.parts } };

    ghost invariant = { λ a. a.taken + length a.parts < 2 ^ 32 - 1 };
}

impl<'a> Lines<'a> {
    /// The lines of a text.
    pub fn of(text: &'a [u8]) -> Lines<'a>
        requires { length text.now ≤ MAX_FILE_BYTES }
        ensures { result ≡ record { taken = 0; pieces = pieces text.now } }
    {
        Lines {
            parts: Parts::of(text, b'\n'),
            taken: 0,
        }
    }

    /// Takes the next line. The error has the number that this line would have.
    pub fn take_line(&mut self) -> Result<&'a [u8], TextError>
        ensures ok { IfOk result (λ line. Took self.old line.now self.new) }
        ensures err { IfErr result (λ e. (self.old.pieces ≡ []) × (e ≡ text_error.Line (self.old.taken + 1))) }
    {
        match self.parts.take_part() {
            Some(line) => {
                self.taken += 1;
                Ok(line)
            }
            None => Err(self.next_misfit()),
        }
    }

    /// What is said where the line just taken doesn't fit.
    pub fn misfit(&self) -> TextError
        ensures { result ≡ text_error.Line self.now.taken }
    {
        TextError::Line { number: self.taken }
    }

    /// Takes this very line. The error has the number of the next line.
    pub fn take_fixed(&mut self, line: &[u8]) -> Result<(), TextError>
        ensures ok { OnOk result (Took self.old line.now self.new) }
        ensures err { IfErr result (IsMiss (λ piece. piece ≡ line.now) self.old) }
    {
        if self.take_line()? == line {
            Ok(())
        } else {
            Err(self.misfit())
        }
    }

    /// Takes a line of this word and a number of at most `most`. The error has the number of the
    /// next line.
    pub fn take_count(&mut self, word: &[u8], most: u32) -> Result<u32, TextError>
        requires { HasNoBlank word.now }
        ensures ok { IfOk result (λ n. (n ≤ most) × Took self.old (words (word.now ∷ decimal n ∷ [])) self.new) }
        ensures err { IfErr result (IsMiss (IsCountUpTo word.now most) self.old) }
    {
        match read_count(self.take_line()?, word, most) {
            Some(number) => Ok(number),
            None => Err(self.misfit()),
        }
    }

    /// Takes the line `end` and the end of the text after it. The error has the number of the first
    /// line that is in the way.
    pub fn take_closing(mut self) -> Result<(), TextError>
        ensures ok { OnOk result (self.entry.pieces ≡ codes "end" ∷ [] ∷ []) }
        ensures err { IfErr result (EndsWrong self.entry) }
    {
        self.take_fixed(b"end")?;
        self.take_fixed(b"")?;
        self.take_end()
    }

    /// What is said where the next line doesn't fit, or isn't there.
    fn next_misfit(&self) -> TextError
        ensures { result ≡ text_error.Line (self.now.taken + 1) }
    {
        TextError::Line {
            number: self.taken + 1,
        }
    }

    /// Takes the end of the text, after its last line.
    fn take_end(mut self) -> Result<(), TextError>
        ensures ok { OnOk result (self.entry.pieces ≡ []) }
        ensures err { IfErr result (λ e. (e ≡ text_error.Line (self.entry.taken + 1)) × ((self.entry.pieces ≡ []) → ⊥)) }
    {
        match self.parts.take_part() {
            Some(_) => Err(self.next_misfit()),
            None => Ok(()),
        }
    }
}
