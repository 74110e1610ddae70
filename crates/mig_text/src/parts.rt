//! Cutting a text at a byte.
ghost use Rattle.std.specs.Prelude.{◌≡◌, ◌∷◌, ◌==◌, [], length, MatchOption, Option, position};
ghost use Rattle.std.specs.Option.{option_map_or};
ghost use Rattle.std.specs.List.{slice_split};

use std::marker::Model;

/// The parts of a text that is cut at each byte of one value, of which the first may have been taken.
#[derive(Drop)]
pub struct Parts<'a> {
    rest: Option<&'a [u8]>,
    at: u8,
}

impl<'a> Model for Parts<'a> {
    ghost use Rattle.std.specs.Prelude.{List, ℕ, [], ◌==◌};
    ghost use Rattle.std.specs.Option.{option_map_or};
    ghost use Rattle.std.specs.List.{slice_split};

    ghost Value = { List (List ℕ) };

    ghost view = { λ a. option_map_or (λ r. slice_split (λ b. b == a.at) r.now) a.rest [] };
}

impl<'a> Parts<'a> {
    /// All parts of a text: what stands between the bytes of this value.
    pub fn of(text: &'a [u8], at: u8) -> Parts<'a>
        ensures { result ≡ slice_split (λ b. b == at) text.now }
    {
        Parts {
            rest: Some(text),
            at,
        }
    }

    /// Takes the next part, if there is one.
    pub fn take_part(&mut self) -> Option<&'a [u8]>
        ensures { MatchOption result ((self.old ≡ []) × (self.new ≡ [])) (λ part. self.old ≡ part.now ∷ self.new) }
    {
        let Some(text) = self.rest else {
            return None;
        };
        let (part, rest) = cut(text, self.at);
        self.rest = rest;
        Some(part)
    }

    /// Whether no part is left.
    pub fn is_done(&self) -> bool
        ensures { result ≡ (length self.now == 0) }
    {
        self.rest.is_none()
    }
}

/// The place of the first such byte.
fn find(text: &[u8], at: u8) -> Option<usize>
    ensures { result ≡ position (λ b. b == at) text.now }
{
    text.iter().position(|b| *b == at)
}

/// What stands before the first such byte, and what stands after it if there is one.
fn cut(text: &[u8], at: u8) -> (&[u8], Option<&[u8]>)
    ensures { slice_split (λ b. b == at) text.now ≡ result.0.now ∷ option_map_or (λ rest. slice_split (λ b. b == at) rest.now) result.1 [] }
{
    match find(text, at) {
        Some(i) => (&text[..i], Some(&text[i + 1..])),
        None => (text, None),
    }
}
