//! The words of numbers.
ghost use Rattle.std.specs.Prelude.{◌≡◌, ◌≢◌, ◌≤◌, ◌↔◌, ℕ, MatchOption, IsTrue};
ghost use Rattle.std.specs.Fmt.{decimal};
ghost use Rattle.mig_text.specs.Digits.{HasLeadingZero};

use mig_base::read_digits;

/// The number at most `most` that the word spells. A word with a leading zero spells none but 0.
pub fn read_number(word: &[u8], most: u32) -> Option<u32>
    ensures { MatchOption result ((n : ℕ) → n ≤ most → word.now ≢ decimal n) (λ n. (n ≤ most) × (word.now ≡ decimal n)) }
{
    if has_leading_zero(word) {
        return None;
    }
    let value = read_digits(word)?;
    if value <= u64::from(most) {
        Some(value as u32)
    } else {
        None
    }
}

/// Whether the first of several digits is a 0.
fn has_leading_zero(word: &[u8]) -> bool
    ensures { IsTrue result ↔ HasLeadingZero word.now }
{
    word.len() > 1 && word[0] == b'0'
}
