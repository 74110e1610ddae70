//! Words that are numbers.
ghost use Rattle.std.specs.Prelude.{◌≡◌, ◌≢◌, ◌≤◌, ◌<◌, ◌∷◌, ◌↔◌, ◌==◌, ℕ, [], length, codes, IsTrue, MatchOption};
ghost use Rattle.std.specs.Fmt.{decimal};
ghost use Rattle.mig_base.specs.Texts.{words};
ghost use Rattle.mig_text.specs.Reads.{HasNoBlank};

use crate::{Parts, read_number};

/// The number at most `most` of a line that has this word and a number.
pub(crate) fn read_count(line: &[u8], word: &[u8], most: u32) -> Option<u32>
    requires { HasNoBlank word.now }
    ensures { MatchOption result ((n : ℕ) → n ≤ most → line.now ≢ words (word.now ∷ decimal n ∷ []))
        (λ n. (n ≤ most) × (line.now ≡ words (word.now ∷ decimal n ∷ []))) }
{
    count_of(Parts::of(line, b' '), word, most)
}

/// The same of the line's words.
fn count_of(mut parts: Parts<'_>, word: &[u8], most: u32) -> Option<u32>
    ensures { MatchOption result ((n : ℕ) → n ≤ most → parts.entry ≢ word.now ∷ decimal n ∷ [])
        (λ n. (n ≤ most) × (parts.entry ≡ word.now ∷ decimal n ∷ [])) }
{
    if parts.take_part()? != word {
        return None;
    }
    last_number(parts, most)
}

/// The number at most `most` that the last word spells, where just one word is left.
pub fn last_number(mut parts: Parts<'_>, most: u32) -> Option<u32>
    ensures { MatchOption result ((n : ℕ) → n ≤ most → parts.entry ≢ decimal n ∷ [])
        (λ n. (n ≤ most) × (parts.entry ≡ decimal n ∷ [])) }
{
    let number = read_number(parts.take_part()?, most)?;
    if parts.is_done() { Some(number) } else { None }
}

/// Whether the word spells this number.
pub fn is_number(word: &[u8], number: u32) -> bool
    ensures { IsTrue result ↔ (word.now ≡ decimal number) }
{
    match read_number(word, number) {
        Some(value) => value == number,
        None => false,
    }
}
