//! The words of a rehearsal.
ghost use Rattle.std.specs.Prelude.{◌≡◌, ◌<◌, ◌^◌, ◌↔◌, ◌∷◌, [], IsTrue, MatchOption};
ghost use Rattle.mig_base.specs.Digits.{IsNumber, number_of};
ghost use Rattle.mig_words.specs.Commands.{form_of};
ghost use Rattle.mig_words.specs.Words.{AreCaseWords, Form, IsListed};

use crate::words::{CaseWords, Command};
use mig_base::read_digits;
use mig_gen::is_case_size;

/// Whether the words are numbers of which a case can be made.
fn are_case_words(disks: &str, per_pair: &str, limit: &str) -> bool
    ensures { IsTrue result ↔ AreCaseWords disks.now per_pair.now limit.now }
{
    let Some(disks) = read_digits(disks.as_bytes()) else {
        return false;
    };
    let Some(per_pair) = read_digits(per_pair.as_bytes()) else {
        return false;
    };
    let Some(limit) = read_digits(limit.as_bytes()) else {
        return false;
    };
    is_case_size(disks, per_pair, limit)
}

/// The command over three numbers that four words are, if they are one in its listed form.
pub fn over_three_numbers<'a>(command: &str, case: CaseWords<'a>) -> Option<Command<'a>>
    ensures { MatchOption result
        ((form : Form) → IsListed (command.now ∷ case.entry.disks.now ∷ case.entry.per_pair.now ∷ case.entry.limit.now ∷ []) form → ⊥)
        (λ read. IsListed (command.now ∷ case.entry.disks.now ∷ case.entry.per_pair.now ∷ case.entry.limit.now ∷ []) (form_of read)) }
{
    if !are_case_words(case.disks, case.per_pair, case.limit) {
        return None;
    }
    match command {
        "rehearse" => Some(Command::Rehearse { case }),
        _ => None,
    }
}

/// The number that a word is.
pub fn number_in(word: &str) -> u32
    requires number { IsNumber word.now }
    requires small { number_of word.now < 2 ^ 32 }
    ensures { result ≡ number_of word.now }
{
    match read_digits(word.as_bytes()) {
        Some(number) => number as u32,
        None => unreachable!(),
    }
}
