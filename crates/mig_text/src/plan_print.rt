//! The text of a plan.
ghost use Rattle.std.specs.Prelude.{◌≡◌, ◌<◌, ◌≤◌, ◌++◌, ◌∷◌, [], All, length, map, OnOk, IfOk};
ghost use Rattle.mig_base.specs.Running.{PlanFits, ShiftFits};
ghost use Rattle.mig_base.specs.Texts.{PlanText, round_lines, shift_line, text_of_lines};
ghost use Rattle.mig_text.specs.PlanParts.{head_line};

use crate::printing::{push_count, push_number, push_spot};
use mig_base::{Input, MAX_ROUNDS, MAX_SHIFTS, Plan, Round, Shift};
use std::alloc::{AllocError, Global};

/// The spelling of a plan that fits the input. An error is want of memory.
pub fn print_plan(alloc: Global, input: &Input, plan: &Plan) -> Result<Vec<u8>, AllocError>
    requires { PlanFits input.now plan.now }
    ensures { IfOk result (λ text. PlanText input.now plan.now text.items) }
{
    let rounds = plan.rounds();
    let mut out = Vec::new(alloc);
    out.extend_from_slice(b"migration-plan 1\n")?;
    push_count(&mut out, b"rounds", rounds.len() as u32)?;
    push_rounds(&mut out, input, rounds)?;
    out.extend_from_slice(b"end\n")?;
    Ok(out)
}

/// Adds the lines of rounds.
fn push_rounds(out: &mut Vec<u8>, input: &Input, rounds: &[Round]) -> Result<(), AllocError>
    requires few { length rounds.now ≤ MAX_ROUNDS }
    requires few_shifts { All (λ round. length round ≤ MAX_SHIFTS) rounds.now }
    requires fitting { All (All (ShiftFits input.now)) rounds.now }
    ensures { OnOk result (out.new.items ≡ out.old.items ++ text_of_lines (round_lines input.now 1 rounds.now)) }
{
    let mut number = 1;
    for round in rounds {
        push_round(out, input, number, round)?;
        number += 1;
    }
    Ok(())
}

/// Adds the lines of a round.
fn push_round(
    out: &mut Vec<u8>,
    input: &Input,
    number: u32,
    round: &Round,
) -> Result<(), AllocError>
    requires few { length round.now ≤ MAX_SHIFTS }
    requires fitting { All (ShiftFits input.now) round.now }
    ensures { OnOk result (out.new.items ≡ out.old.items ++ text_of_lines (head_line number (length round.now) ∷ map (shift_line input.now) round.now)) }
{
    let shifts = round.shifts();
    out.extend_from_slice(b"round ")?;
    push_number(out, number)?;
    out.push(b' ')?;
    push_number(out, shifts.len() as u32)?;
    out.push(b'\n')?;
    push_shifts(out, input, shifts)
}

/// Adds the lines of shifts.
fn push_shifts(out: &mut Vec<u8>, input: &Input, shifts: &[Shift]) -> Result<(), AllocError>
    requires { All (ShiftFits input.now) shifts.now }
    ensures { OnOk result (out.new.items ≡ out.old.items ++ text_of_lines (map (shift_line input.now) shifts.now)) }
{
    for shift in shifts {
        push_shift(out, input, shift)?;
    }
    Ok(())
}

/// Adds the line of a shift.
fn push_shift(out: &mut Vec<u8>, input: &Input, shift: &Shift) -> Result<(), AllocError>
    requires { ShiftFits input.now shift.now }
    ensures { OnOk result (out.new.items ≡ out.old.items ++ (shift_line input.now shift.now ++ 10 ∷ [])) }
{
    out.extend_from_slice(input.items()[shift.item.0 as usize].bytes())?;
    push_spot(out, input, b' ', shift.from)?;
    push_spot(out, input, b' ', shift.to)?;
    out.push(b'\n')?;
    Ok(())
}
