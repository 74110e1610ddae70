//! Plans that can be carried out.
ghost use Rattle.std.specs.Prelude.{◌≡◌, ◌+◌, ◌*◌, ◌<◌, ◌≤◌, IfOk, Some, length, slice_get};
ghost use Rattle.std.specs.List.{list_any};
ghost use Rattle.std.specs.Option.{option_map};
ghost use Rattle.mig_base.specs.declared.cells.Flight.{Flight};
ghost use Rattle.mig_base.specs.InputLists.{IsInput};
ghost use Rattle.mig_base.specs.Layouts.{At, round_at};
ghost use Rattle.mig_base.specs.Readiness.{shifts_of};
ghost use Rattle.mig_base.specs.RoundEvents.{flights_of};
ghost use Rattle.mig_base.specs.Running.{Runs, is_of};
ghost use Rattle.mig_base.specs.Slots.{slot_of};
ghost use Rattle.mig_jobs.specs.JobTables.{free_targets};
ghost use Rattle.mig_base.specs.Tasks.{Task, IsTask};
ghost use Rattle.mig_jobs.specs.Stops.{waypoints_in};
ghost use Rattle.mig_jobs.specs.Vacancies.{AreVacancies};
ghost use Rattle.sha2.specs.Sha256.{sha256};

use crate::stops::{Waypoint, spot_until, stops_of};
use crate::tables::targets_of;
use crate::vacancies::{Vacancy, vacancies_of};
use mig_base::{Cell, Input, ItemId, MAX_FILE_BYTES, MAX_ROUNDS, Plan, Round, Shift, Spot};
use sha2::{Digest, Sha256};
use std::alloc::{AllocError, Global};
use std::marker::Model;

/// An input, a plan that runs on it, and the digest of the plan's text.
pub struct Job {
    input: Input,
    plan: Plan,
    digest: [u8; 32],
    // How many shifts the plan has.
    shifts: u32,
    // The targets that are free now, in the plan's order.
    targets: Vec<Spot>,
    // When the spots of now and of the plan are free.
    vacancies: Vec<Vacancy>,
    // For each item where the plan's shifts take it, in the order of their rounds.
    stops: Vec<Vec<Waypoint>>,
}

impl Drop for Job {
    fn drop(self) {
        let Job {
            input: _input,
            plan: _plan,
            digest: _,
            shifts: _,
            targets: _targets,
            vacancies: _vacancies,
            stops: _stops,
        } = self;
    }
}

impl Model for Job {
    ghost use Rattle.std.specs.Prelude.{◌≡◌, length};
    ghost use Rattle.mig_base.specs.Readiness.{shifts_of};
    ghost use Rattle.mig_jobs.specs.JobTables.{free_targets};
    ghost use Rattle.mig_jobs.specs.Stops.{AreWaypoints};
    ghost use Rattle.mig_base.specs.Tasks.{Task, IsTask};
    ghost use Rattle.mig_jobs.specs.Vacancies.{vacancies_in};

    ghost Value = { Task };

    ghost view = { λ j. record { input = j.input; plan = j.plan; digest = j.digest } };

    ghost invariant = { λ j. IsTask (record { input = j.input; plan = j.plan; digest = j.digest }) × (j.shifts ≡ length (shifts_of j.plan))
        × (j.targets.items ≡ free_targets j.input.spots (shifts_of j.plan)) × (j.vacancies.items ≡ vacancies_in j.plan)
        × AreWaypoints j.input j.plan (length j.plan) j.stops.items };
}

// The same input in memory of its own.
fn copy_input(alloc: Global, input: &Input) -> Result<Input, AllocError>
    ensures { IfOk result (λ copy. copy ≡ input.now) }
{
    Ok(Input::new(
        input.disks().to_vec(alloc)?,
        input.items().to_vec(alloc)?,
        input.now().to_vec(alloc)?,
        input.next().to_vec(alloc)?,
    ))
}

// The same plan in memory of its own.
fn copy_plan(alloc: Global, plan: &Plan) -> Result<Plan, AllocError>
    ensures { IfOk result (λ copy. copy ≡ plan.now) }
{
    let mut rounds = Vec::new(alloc);
    for round in plan.rounds() {
        rounds.push(Round::of(round.shifts().to_vec(alloc)?))?;
    }
    Ok(Plan::of(rounds))
}

/// How many shifts a plan has. Only plans with no more of them than a file has bytes are counted.
pub fn count_shifts(plan: &Plan) -> u32
    requires { length (shifts_of plan.now) ≤ MAX_FILE_BYTES }
    ensures { result ≡ length (shifts_of plan.now) }
{
    let mut count = 0;
    for round in plan.rounds() {
        count += round.shifts().len() as u32;
    }
    count
}

/// Takes all memory that carrying out the plan needs. The plan runs on the input and has no more shifts than a file has
/// bytes; the bytes are the plan's text, of which the job keeps the digest.
///
/// # Errors
///
/// `AllocError` is want of memory.
pub fn prepare(
    alloc: Global,
    input: &Input,
    plan: &Plan,
    plan_bytes: &[u8],
) -> Result<Job, AllocError>
    requires runs { Runs input.now plan.now }
    requires few_rounds { length plan.now ≤ MAX_ROUNDS }
    requires few_shifts { length (shifts_of plan.now) ≤ MAX_FILE_BYTES }
    ensures { IfOk result (λ job. job ≡ record { input = input.now; plan = plan.now; digest = sha256 plan_bytes.now }) }
{
    input.keeps_rules();
    Ok(Job {
        input: copy_input(alloc, input)?,
        plan: copy_plan(alloc, plan)?,
        digest: Sha256::digest(plan_bytes),
        shifts: count_shifts(plan),
        targets: targets_of(alloc, input, plan)?,
        vacancies: vacancies_of(alloc, plan)?,
        stops: stops_of(alloc, input, plan)?,
    })
}

/// The cell of a spot.
pub fn spot_cell(input: &Input, spot: Spot) -> Cell
    requires { spot.disk.0 < length input.now.disks }
    ensures { result ≡ slot_of input.now spot }
{
    Cell::Slot {
        disk: input.disks()[spot.disk.0 as usize].name,
        slot: spot.slot,
    }
}

impl Job {
    /// The job keeps the rules of every job. The call does nothing; it is made where a proof needs them.
    pub fn keeps_rules(&self)
        ensures { IsTask self.now }
    {
        let _rounds = self.rounds();
    }

    /// The input.
    pub fn input(&self) -> &Input
        ensures value { result.now ≡ self.now.input }
        ensures valid { IsTask self.now }
    {
        &self.input
    }

    /// The plan.
    pub fn plan(&self) -> &Plan
        ensures value { result.now ≡ self.now.plan }
        ensures valid { IsTask self.now }
    {
        &self.plan
    }

    /// The digest of the plan's text.
    pub fn digest(&self) -> &[u8; 32]
        ensures { result.now ≡ self.now.digest }
    {
        &self.digest
    }

    /// How many rounds the plan has.
    pub fn rounds(&self) -> u32
        ensures count { result ≡ length self.now.plan }
        ensures valid { IsTask self.now }
    {
        self.plan.rounds().len() as u32
    }

    /// How many shifts the plan has.
    pub fn shifts(&self) -> u32
        ensures { result ≡ length (shifts_of self.now.plan) }
    {
        self.shifts
    }

    /// How often an undisturbed start writes to the store.
    pub fn writes(&self) -> u32
        ensures { result ≡ 2 * length self.now.plan + 2 + 2 * length (shifts_of self.now.plan) }
    {
        2 * self.rounds() + 2 + 2 * self.shifts
    }

    /// Whether the plan shifts an item.
    pub fn is_shifted(&self, item: usize) -> bool
        requires { item < length self.now.input.items }
        ensures { result ≡ list_any (is_of item) (shifts_of self.now.plan) }
    {
        !self.item_stops(item).is_empty()
    }

    /// The targets that are free now, in the plan's order.
    pub fn targets(&self) -> &[Spot]
        ensures targets { result.now ≡ free_targets self.now.input.spots (shifts_of self.now.plan) }
        ensures valid { IsTask self.now }
    {
        self.targets.as_slice()
    }

    /// When the spots of now and of the plan are free.
    pub fn vacancies(&self) -> &[Vacancy]
        ensures vacancies { AreVacancies self.now.input self.now.plan result.now }
        ensures valid { IsTask self.now }
    {
        self.vacancies.as_slice()
    }

    // The shifts of a round.
    fn round(&self, round: u32) -> &[Shift]
        requires from { 1 ≤ round }
        requires to { round ≤ length self.now.plan }
        ensures shifts { result.now ≡ round_at self.now.plan round }
        ensures valid { IsTask self.now }
    {
        self.plan.rounds()[round as usize - 1].shifts()
    }

    /// How many shifts a round has. Rounds count from 1.
    pub fn round_len(&self, round: u32) -> u32
        requires from { 1 ≤ round }
        requires to { round ≤ length self.now.plan }
        ensures count { result ≡ length (round_at self.now.plan round) }
        ensures valid { IsTask self.now }
    {
        self.round(round).len() as u32
    }

    /// The two slots of a round's shift. Rounds count from 1, places from 0.
    pub fn copy(&self, round: u32, place: u32) -> (Cell, Cell)
        requires from { 1 ≤ round }
        requires to { round ≤ length self.now.plan }
        requires place { place < length (round_at self.now.plan round) }
        ensures { slice_get (flights_of self.now.input (round_at self.now.plan round)) place ≡ Some (record { from = result.0; to = result.1 }) }
    {
        let shift = self.round(round)[place as usize];
        let input = self.input();
        (spot_cell(input, shift.from), spot_cell(input, shift.to))
    }

    // Where the plan's shifts take an item.
    fn item_stops(&self, item: usize) -> &[Waypoint]
        requires { item < length self.now.input.items }
        ensures { result.now ≡ waypoints_in self.now.plan (length self.now.plan) item }
    {
        self.stops[item].as_slice()
    }

    // The spot of an item once so many rounds are carried out.
    fn spot_after(&self, item: ItemId, rounds: u32) -> Spot
        requires item { item.0 < length self.now.input.items }
        requires rounds { rounds ≤ length self.now.plan }
        ensures { At self.now.input self.now.plan rounds item.0 ≡ Some result }
    {
        self.input.keeps_rules();
        let place = item.0 as usize;
        match spot_until(self.item_stops(place), rounds) {
            Some(spot) => spot,
            None => self.input.now()[place],
        }
    }

    /// The slot of an item once so many rounds are marked. It is found without a search through the plan.
    pub fn cell_of(&self, item: ItemId, marked: u32) -> Cell
        requires item { item.0 < length self.now.input.items }
        requires marked { marked ≤ length self.now.plan }
        ensures { option_map (slot_of self.now.input) (At self.now.input self.now.plan marked item.0) ≡ Some result }
    {
        self.keeps_rules();
        spot_cell(self.input(), self.spot_after(item, marked))
    }
}
