//! Sets of numbers, as words of 64 bits.
ghost use Rattle.std.specs.Prelude.{◌≡◌, ℕ, ◌+◌, ◌-◌, ◌*◌, ◌/◌, ◌%◌, ◌^◌, ◌<◌, ◌≤◌, ◌↔◌, length, IfOk, MatchOption, replicate};
ghost use Rattle.std.specs.Int.{bit_at};
ghost use Rattle.mig_board.specs.Words.{words_for, AreFullSets, HasNoBitFrom, IsFirstBit, HasNoCommonBit, IsFirstCommonBit, TurnsBit};

use std::alloc::{AllocError, Global};

/// How many words have a bit for each of so many colours.
pub fn words_for(colours: u32) -> usize
    ensures { result ≡ words_for colours }
{
    colours.div_ceil(64) as usize
}

/// Takes the numbers from `colours` on out of sets that have all.
fn keep_colours(words: &mut [u64], sets: u32, colours: u32)
    requires { words.old ≡ replicate (sets * words_for colours) (2 ^ 64 - 1) }
    ensures { AreFullSets sets colours words.new }
{
    let each = words_for(colours);
    let rest = colours % 64;
    if rest == 0 {
        return;
    }
    for set in 0..sets {
        words[set as usize * each + colours as usize / 64] = (1 << rest) - 1;
    }
}

/// One after the other so many sets, each of all colours. Refuses only for want of memory.
pub fn full_sets(alloc: Global, sets: u32, colours: u32) -> Result<Vec<u64>, AllocError>
    ensures { IfOk result (λ words. AreFullSets sets colours words.items) }
{
    let mut words = vec![in alloc; u64::MAX; sets as usize * words_for(colours)]?;
    keep_colours(&mut words, sets, colours);
    Ok(words)
}

/// The word at a place, without its bits for numbers below `from`.
fn bits_from(word: u64, at: u32, from: u32) -> u64
    requires { from / 64 ≤ at }
    ensures { (i : ℕ) → i < 64 → (bit_at result i ≡ 1) ↔ ((from ≤ at * 64 + i) × (bit_at word i ≡ 1)) }
{
    if at == from / 64 {
        word & (u64::MAX << (from % 64))
    } else {
        word
    }
}

/// The least number from a given one on that is in the set. None comes exactly where there is none.
pub fn first_bit(words: &[u64], from: u32) -> Option<u32>
    requires { length words.now ≤ 2 ^ 26 }
    ensures { MatchOption result (HasNoBitFrom words.now from) (IsFirstBit words.now from) }
{
    for at in from / 64..words.len() as u32 {
        let rest = bits_from(words[at as usize], at, from);
        if rest != 0 {
            return Some(at * 64 + rest.trailing_zeros());
        }
    }
    None
}

/// The least number that is in both sets. None comes exactly where there is none.
pub fn first_common_bit(one: &[u64], two: &[u64]) -> Option<u32>
    requires same { length one.now ≡ length two.now }
    requires short { length one.now ≤ 2 ^ 26 }
    ensures { MatchOption result (HasNoCommonBit one.now two.now) (IsFirstCommonBit one.now two.now) }
{
    for at in 0..one.len() as u32 {
        let both = one[at as usize] & two[at as usize];
        if both != 0 {
            return Some(at * 64 + both.trailing_zeros());
        }
    }
    None
}

/// Takes a number that is in the set out of it, and puts one that is not in it there.
pub fn turn_bit(words: &mut [u64], number: usize)
    requires { number / 64 < length words.old }
    ensures { TurnsBit words.old words.new number }
{
    words[number / 64] ^= 1 << (number % 64);
}
