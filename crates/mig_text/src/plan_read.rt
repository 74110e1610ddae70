//! Reading the text of a plan.
ghost use Rattle.std.specs.Prelude.{◌≡◌, ◌++◌, ◌∷◌, ◌≤◌, ◌<◌, ℕ, List, [], length, IfErr, IfOk};
ghost use Rattle.mig_base.specs.InputLists.{InputLists};
ghost use Rattle.mig_base.specs.Misfits.{pieces};
ghost use Rattle.mig_base.specs.PlanLines.{before_rounds, Head, Over, PlanLine, PlanNext, Title};
ghost use Rattle.mig_base.specs.Readiness.{shifts_of};
ghost use Rattle.mig_base.specs.Running.{PlanFits};
ghost use Rattle.mig_base.specs.Texts.{PlanText, plan_lines};
ghost use Rattle.mig_text.specs.PlanParts.{AreRoundsRead, IsPlanOpened, IsRoundRead};
ghost use Rattle.mig_text.specs.Reads.{IfLine, IsStop, Left};

use crate::shifts::{take_head, take_shift};
use crate::{Finder, Lines, TextError};
use mig_base::{Input, MAX_FILE_BYTES, MAX_ROUNDS, Plan, Round};
use std::alloc::Global;

/// The plan whose spelling the bytes are. It fits the input.
///
/// `Line` comes exactly where the bytes are no spelling or are more than 16,777,216, and has the
/// number of the first line that doesn't fit, or 0 where they are too many.
pub fn read_plan(alloc: Global, input: &Input, bytes: &[u8]) -> Result<Plan, TextError>
    ensures plan { IfOk result (λ plan. PlanText input.now plan bytes.now) }
    ensures short { IfOk result (λ _. length bytes.now ≤ MAX_FILE_BYTES) }
    // Each shift has a line of its own.
    ensures shifts { IfOk result (λ plan. length (shifts_of plan) ≤ length bytes.now) }
    ensures line { IfErr result (IfLine (PlanLine input.now bytes.now)) }
{
    if bytes.len() > MAX_FILE_BYTES {
        return Err(TextError::Line { number: 0 });
    }
    let finder = Finder::of(alloc, input)?;
    read_lines(alloc, &finder, Lines::of(bytes))
}

/// The plan whose lines these are.
fn read_lines(alloc: Global, finder: &Finder<'_>, mut lines: Lines<'_>) -> Result<Plan, TextError>
    ensures fits { IfOk result (PlanFits finder.now) }
    ensures lines { IfOk result (λ plan. lines.entry.pieces ≡ plan_lines finder.now plan ++ [] ∷ []) }
    ensures line { IfErr result (IsStop (PlanNext finder.now) Title Over lines.entry) }
{
    let total = take_opening(&mut lines)?;
    let rounds = take_rounds(alloc, &mut lines, finder, total)?;
    lines.take_closing()?;
    Ok(Plan::of(rounds))
}

/// The number of rounds, from the first two lines.
fn take_opening(lines: &mut Lines<'_>) -> Result<u32, TextError>
    ensures ok { IfOk result (λ total. IsPlanOpened total lines.old lines.new) }
    ensures line { IfErr result (λ e. (input : InputLists) → IsStop (PlanNext input) Title Over lines.old e) }
{
    lines.take_fixed(b"migration-plan 1")?;
    lines.take_count(b"rounds", MAX_ROUNDS as u32)
}

/// The rounds of the next lines.
fn take_rounds(
    alloc: Global,
    lines: &mut Lines<'_>,
    finder: &Finder<'_>,
    total: u32,
) -> Result<Vec<Round>, TextError>
    requires { total ≤ MAX_ROUNDS }
    ensures ok { IfOk result (λ rounds. AreRoundsRead finder.now total rounds.items lines.old lines.new) }
    ensures line { IfErr result (IsStop (PlanNext finder.now) (before_rounds 1 total) Over lines.old) }
{
    let mut rounds = Vec::new(alloc);
    for k in 0..total {
        let round = take_round(alloc, lines, finder, k + 1)?;
        if rounds.push(round).is_err() {
            return Err(TextError::Memory);
        }
    }
    Ok(rounds)
}

/// The round of this number, of the next lines.
fn take_round(
    alloc: Global,
    lines: &mut Lines<'_>,
    finder: &Finder<'_>,
    number: u32,
) -> Result<Round, TextError>
    ensures ok { IfOk result (λ round. IsRoundRead finder.now number round lines.old lines.new) }
    ensures line { IfErr result (λ e. (left : ℕ) → IsStop (PlanNext finder.now) (Head number left) Over lines.old e) }
{
    let count = take_head(lines, number)?;
    let mut shifts = Vec::new(alloc);
    'shifts: for _ in 0..count {
        let shift = take_shift(lines, finder)?;
        if shifts.push(shift).is_err() {
            return Err(TextError::Memory);
        }
    }
    Ok(Round::of(shifts))
}
