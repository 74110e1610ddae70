//! In which rounds spots were last left.
ghost use Rattle.std.specs.Prelude.{◌≡◌, [], OnOk, if◌then◌else◌};
ghost use Rattle.std.specs.List.{list_any};
ghost use Rattle.mig_base.specs.declared.ids.Spot.{Spot};
ghost use Rattle.mig_jobs.specs.JobTables.{same_spot};
ghost use Rattle.mig_jobs.specs.Vacancies.{table_round, left_after};

use indexmap::IndexMap;
use mig_base::{Shift, Spot};
use std::alloc::{AllocError, Global};
use std::marker::Model;

/// For each spot the round in which it was last left, where no shift has gone to it since; otherwise 0.
///
/// A spot is found without a search through the spots.
pub struct LeftRounds {
    rounds: IndexMap<Spot, u32>,
}

impl Drop for LeftRounds {
    fn drop(self) {
        let LeftRounds { rounds: _rounds } = self;
    }
}

impl Model for LeftRounds {
    ghost use Rattle.std.specs.Prelude.{ℕ, List};
    ghost use Rattle.mig_base.specs.declared.ids.Spot.{Spot};

    ghost Value = { List (Spot × ℕ) };

    ghost view = { λ t. t.rounds.entries };
}

impl LeftRounds {
    /// No spot was left.
    pub fn new(alloc: Global) -> LeftRounds
        ensures { result ≡ [] }
    {
        LeftRounds {
            rounds: IndexMap::new(alloc),
        }
    }

    /// The round in which the spot was last left.
    pub fn round(&self, spot: &Spot) -> u32
        ensures { result ≡ table_round self.now spot.now }
    {
        match self.rounds.get(spot) {
            Some(round) => *round,
            None => 0,
        }
    }

    // Sets the round of a spot.
    fn set(&mut self, spot: Spot, round: u32) -> Result<(), AllocError>
        ensures { OnOk result ((other : Spot) → table_round self.new other ≡ (if same_spot spot other then round else table_round self.old other)) }
    {
        match self.rounds.insert(spot, round) {
            Ok(_) => Ok(()),
            Err(_) => Err(AllocError),
        }
    }

    // Sets the round of a spot to 0. One that was never left needs no place in the table.
    fn forget(&mut self, spot: Spot) -> Result<(), AllocError>
        ensures { OnOk result ((other : Spot) → table_round self.new other ≡ (if same_spot spot other then 0 else table_round self.old other)) }
    {
        if self.round(&spot) == 0 {
            return Ok(());
        }
        self.set(spot, 0)
    }

    // Shifts go to spots.
    fn fill(&mut self, shifts: &[Shift]) -> Result<(), AllocError>
        ensures { OnOk result ((spot : Spot) → table_round self.new spot ≡ (if list_any (λ s. same_spot s.to spot) shifts.now then 0 else table_round self.old spot)) }
    {
        for s in shifts {
            self.forget(s.to)?;
        }
        Ok(())
    }

    // Shifts leave spots in a round.
    fn leave(&mut self, shifts: &[Shift], round: u32) -> Result<(), AllocError>
        ensures { OnOk result ((spot : Spot) → table_round self.new spot ≡ (if list_any (λ s. same_spot s.from spot) shifts.now then round else table_round self.old spot)) }
    {
        for s in shifts {
            self.set(s.from, round)?;
        }
        Ok(())
    }

    /// Carries out the shifts of a round. An error is want of memory.
    pub fn shift(&mut self, shifts: &[Shift], round: u32) -> Result<(), AllocError>
        ensures { OnOk result ((spot : Spot) → table_round self.new spot ≡ left_after (table_round self.old) round shifts.now spot) }
    {
        self.fill(shifts)?;
        self.leave(shifts, round)
    }
}
