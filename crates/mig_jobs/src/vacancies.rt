//! When the slots that a plan uses are free.
ghost use Rattle.std.specs.Prelude.{◌≡◌, ◌≤◌, ◌++◌, [], ◌∷◌, IfOk, OnOk, length, map};
ghost use Rattle.mig_base.specs.declared.ids.Spot.{Spot};
ghost use Rattle.mig_base.specs.declared.limits.TheConstants.{MAX_ROUNDS};
ghost use Rattle.mig_jobs.specs.Vacancies.{table_round, left_in, ended_by, ended_in, open_of, open_in, vacancies_in};

use crate::left_rounds::LeftRounds;
use mig_base::{Plan, Round, Shift, Spot};
use std::alloc::{AllocError, Global};

/// A spot that is free after so many rounds: from the first number on, and before the second.
#[derive(Clone, Copy, PartialEq, Eq)]
pub struct Vacancy {
    pub spot: Spot,
    pub from: u32,
    pub until: u32,
}

// Adds the vacancies that a round's shifts end.
fn add_ended(
    left: &LeftRounds,
    shifts: &[Shift],
    round: u32,
    vacancies: &mut Vec<Vacancy>,
) -> Result<(), AllocError>
    ensures { OnOk result (vacancies.new.items ≡ vacancies.old.items ++ map (ended_by (table_round left.now) round) shifts.now) }
{
    for s in shifts {
        vacancies.push(Vacancy {
            spot: s.to,
            from: left.round(&s.to),
            until: round,
        })?;
    }
    Ok(())
}

// Adds the vacancy that a round's shift begins, if no shift ends it.
fn add_open(
    left: &LeftRounds,
    s: &Shift,
    round: u32,
    until: u32,
    vacancies: &mut Vec<Vacancy>,
) -> Result<(), AllocError>
    ensures { OnOk result (vacancies.new.items ≡ vacancies.old.items ++ open_of (table_round left.now) until round (s.now ∷ [])) }
{
    if left.round(&s.from) == round {
        vacancies.push(Vacancy {
            spot: s.from,
            from: round,
            until,
        })?;
    }
    Ok(())
}

// The same for each of a round's shifts.
fn add_all_open(
    left: &LeftRounds,
    shifts: &[Shift],
    round: u32,
    until: u32,
    vacancies: &mut Vec<Vacancy>,
) -> Result<(), AllocError>
    ensures { OnOk result (vacancies.new.items ≡ vacancies.old.items ++ open_of (table_round left.now) until round shifts.now) }
{
    for s in shifts {
        add_open(left, s, round, until, vacancies)?;
    }
    Ok(())
}

// Adds the vacancies that the rounds' shifts end, and carries the rounds out.
fn end_rounds(
    left: &mut LeftRounds,
    rounds: &[Round],
    vacancies: &mut Vec<Vacancy>,
) -> Result<(), AllocError>
    requires few { length rounds.now ≤ MAX_ROUNDS }
    requires none { left.old ≡ [] }
    ensures left { OnOk result ((spot : Spot) → table_round left.new spot ≡ left_in rounds.now (length rounds.now) spot) }
    ensures ended { OnOk result (vacancies.new.items ≡ vacancies.old.items ++ ended_in rounds.now (length rounds.now)) }
{
    for k in 0..rounds.len() {
        let shifts = rounds[k].shifts();
        let round = k as u32 + 1;
        add_ended(left, shifts, round, vacancies)?;
        left.shift(shifts, round)?;
    }
    Ok(())
}

// Adds the vacancies that the rounds' shifts begin and no shift ends.
fn open_rounds(
    left: &LeftRounds,
    rounds: &[Round],
    vacancies: &mut Vec<Vacancy>,
) -> Result<(), AllocError>
    requires few { length rounds.now ≤ MAX_ROUNDS }
    requires left { (spot : Spot) → table_round left.now spot ≡ left_in rounds.now (length rounds.now) spot }
    ensures open { OnOk result (vacancies.new.items ≡ vacancies.old.items ++ open_in rounds.now (length rounds.now)) }
{
    let until = rounds.len() as u32 + 1;
    for k in 0..rounds.len() {
        add_all_open(left, rounds[k].shifts(), k as u32 + 1, until, vacancies)?;
    }
    Ok(())
}

/// The vacancies of the spots that the plan's shifts leave or go to.
pub(crate) fn vacancies_of(alloc: Global, plan: &Plan) -> Result<Vec<Vacancy>, AllocError>
    requires { length plan.now ≤ MAX_ROUNDS }
    ensures { IfOk result (λ vacancies. vacancies.items ≡ vacancies_in plan.now) }
{
    let mut left = LeftRounds::new(alloc);
    let mut vacancies = Vec::new(alloc);
    end_rounds(&mut left, plan.rounds(), &mut vacancies)?;
    open_rounds(&left, plan.rounds(), &mut vacancies)?;
    Ok(vacancies)
}
