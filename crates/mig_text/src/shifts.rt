//! The lines of a round.
ghost use Rattle.std.specs.Prelude.{◌≡◌, ◌≢◌, ◌≤◌, ◌<◌, ◌∷◌, ℕ, List, [], length, codes, IfErr, IfOk, MatchOption};
ghost use Rattle.std.specs.Fmt.{decimal};
ghost use Rattle.mig_base.specs.declared.ids.Shift.{Shift};
ghost use Rattle.mig_base.specs.Running.{ShiftFits};
ghost use Rattle.mig_base.specs.Texts.{disk_name, shift_line};
ghost use Rattle.mig_text.specs.PlanParts.{head_line, IsHeadLine, IsShiftLine, shift_words};
ghost use Rattle.mig_text.specs.Reads.{IsMiss, Took};

use crate::words::{is_number, last_number};
use crate::{Finder, Lines, Parts, TextError, read_number};
use mig_base::{MAX_SHIFTS, MAX_SLOTS, Shift, Spot};

/// Takes the line of a shift.
pub(crate) fn take_shift(lines: &mut Lines<'_>, finder: &Finder<'_>) -> Result<Shift, TextError>
    ensures ok { IfOk result (λ s. ShiftFits finder.now s × Took lines.old (shift_line finder.now s) lines.new) }
    ensures err { IfErr result (IsMiss (IsShiftLine finder.now) lines.old) }
{
    match read_shift(finder, lines.take_line()?) {
        Some(shift) => Ok(shift),
        None => Err(lines.misfit()),
    }
}

/// Takes the head of the round with this number, and gives the number of its shifts.
pub(crate) fn take_head(lines: &mut Lines<'_>, round: u32) -> Result<u32, TextError>
    ensures ok { IfOk result (λ n. (n ≤ MAX_SHIFTS) × Took lines.old (head_line round n) lines.new) }
    ensures err { IfErr result (IsMiss (IsHeadLine round) lines.old) }
{
    match read_head(lines.take_line()?, round) {
        Some(number) => Ok(number),
        None => Err(lines.misfit()),
    }
}

/// The shift that a line spells.
fn read_shift(finder: &Finder<'_>, line: &[u8]) -> Option<Shift>
    ensures { MatchOption result ((s : Shift) → ShiftFits finder.now s → line.now ≢ shift_line finder.now s)
        (λ s. ShiftFits finder.now s × (line.now ≡ shift_line finder.now s)) }
{
    finder.keeps_rules();
    shift_of(finder, Parts::of(line, b' '))
}

/// The same of the line's words.
fn shift_of(finder: &Finder<'_>, mut parts: Parts<'_>) -> Option<Shift>
    ensures { MatchOption result ((s : Shift) → ShiftFits finder.now s → parts.entry ≢ shift_words finder.now s)
        (λ s. ShiftFits finder.now s × (parts.entry ≡ shift_words finder.now s)) }
{
    let item = finder.item(parts.take_part()?)?;
    let from = spot_of(finder, &mut parts)?;
    let to = spot_of(finder, &mut parts)?;
    if parts.is_done() {
        Some(Shift { item, from, to })
    } else {
        None
    }
}

/// The spot of the next two words.
fn spot_of(finder: &Finder<'_>, parts: &mut Parts<'_>) -> Option<Spot>
    ensures { MatchOption result ((d : ℕ) (slot : ℕ) (rest : List (List ℕ)) → d < length finder.now.disks → slot < MAX_SLOTS → parts.old ≢ disk_name finder.now d ∷ decimal slot ∷ rest)
        (λ s. (s.disk.0 < length finder.now.disks) × (s.slot < MAX_SLOTS) × (parts.old ≡ disk_name finder.now s.disk.0 ∷ decimal s.slot ∷ parts.new)) }
{
    let disk = finder.disk(parts.take_part()?)?;
    let slot = read_number(parts.take_part()?, MAX_SLOTS - 1)?;
    Some(Spot { disk, slot })
}

/// The number of shifts in the line `round r C`.
fn read_head(line: &[u8], round: u32) -> Option<u32>
    ensures { MatchOption result ((n : ℕ) → n ≤ MAX_SHIFTS → line.now ≢ head_line round n)
        (λ n. (n ≤ MAX_SHIFTS) × (line.now ≡ head_line round n)) }
{
    head_of(Parts::of(line, b' '), round)
}

/// The same of the line's words.
fn head_of(mut parts: Parts<'_>, round: u32) -> Option<u32>
    ensures { MatchOption result ((n : ℕ) → n ≤ MAX_SHIFTS → parts.entry ≢ codes "round" ∷ decimal round ∷ decimal n ∷ [])
        (λ n. (n ≤ MAX_SHIFTS) × (parts.entry ≡ codes "round" ∷ decimal round ∷ decimal n ∷ [])) }
{
    if parts.take_part()? != b"round".as_slice() || !is_number(parts.take_part()?, round) {
        return None;
    }
    last_number(parts, MAX_SHIFTS as u32)
}
