//! A plan of single shifts in the making.
ghost use Rattle.std.specs.Prelude.{◌≡◌, ◌==◌, ◌+◌, ◌<◌, ◌≤◌, ◌≢◌, ◌++◌, ◌∷◌, [], not, true, length, IfOk, OnOk};
ghost use Rattle.mig_base.specs.Transfers.{is_relocated};
ghost use Rattle.mig_tight.specs.PlanStates.{IsUnawaited, HasSpares, IsOnNext, ArePlaced, IsSoundState, queue_at, spot_at};
ghost use Rattle.mig_tight.specs.Progress.{AreUnawaited, AreClearedBelow, IsCleared, Preserves, AreUnawaitedBelow, shifted, waiting_count};

use crate::queues::{Queue, queues_of};
use mig_base::{DiskId, Input, ItemId, Plan, Round, Shift, Spot};
use std::alloc::{AllocError, Global};
use std::marker::Model;

/// Where each item is, the spares, the items that wait for each disk, and the rounds so far.
///
/// Spares are free slots that items may be shifted to. An item that is shifted to one leaves another behind, so there are
/// always as many.
#[derive(Debug, Drop)]
pub struct Planner {
    spots: Vec<Spot>,
    spares: Vec<Spot>,
    waiting: Vec<Queue>,
    rounds: Vec<Round>,
}

impl Model for Planner {
    ghost use Rattle.mig_tight.specs.PlanStates.{PlanState};

    ghost Value = { PlanState };

    ghost view = { λ w. record { spots = w.spots.items; spares = w.spares.items; waiting = w.waiting.items; rounds = w.rounds.items } };
}

/// A round of one shift.
fn single(alloc: Global, shift: Shift) -> Result<Round, AllocError>
    ensures { IfOk result (λ r. r ≡ shift ∷ []) }
{
    let mut shifts = Vec::with_capacity(alloc, 1)?;
    shifts.push(shift)?;
    Ok(Round::of(shifts))
}

impl Planner {
    /// Nothing is shifted yet.
    pub fn new(alloc: Global, input: &Input, spares: Vec<Spot>) -> Result<Planner, AllocError>
        requires placed { ArePlaced input.now input.now.spots spares.items }
        requires enough { HasSpares input.now input.now.spots spares.items }
        ensures sound { IfOk result (IsSoundState input.now) }
        ensures spares { IfOk result (λ w. w.spares ≡ spares.items) }
        ensures spots { IfOk result (λ w. w.spots ≡ input.now.spots) }
    {
        let spots = Vec::from_slice(alloc, input.now())?;
        let waiting = queues_of(alloc, input)?;
        let rounds = Vec::new(alloc);
        Ok(Planner {
            spots,
            spares,
            waiting,
            rounds,
        })
    }

    /// The plan.
    pub fn into_plan(self) -> Plan
        ensures { result ≡ self.rounds }
    {
        Plan::of(self.rounds)
    }

    /// Whether an item waits for the disk.
    fn is_awaited(&self, disk: DiskId) -> bool
        requires { disk.0 < length self.now.waiting }
        ensures { result ≡ not (length (queue_at self.now.waiting disk.0) == 0) }
    {
        !self.waiting[disk.0 as usize].is_empty()
    }

    /// Shifts an item to a spare, and leaves a spare where it was.
    fn shift(&mut self, alloc: Global, item: ItemId, spare: usize) -> Result<(), AllocError>
        requires item { item.0 < length self.old.spots }
        requires spare { spare < length self.old.spares }
        ensures { OnOk result (self.new ≡ shifted self.old item.0 spare) }
    {
        let from = self.spots[item.0 as usize];
        let to = self.spares[spare];
        let round = single(alloc, Shift { item, from, to })?;
        self.rounds.push(round)?;
        self.spots[item.0 as usize] = to;
        self.spares[spare] = from;
        Ok(())
    }

    /// Shifts an item that waits for the spare's disk to the spare.
    fn fill(&mut self, alloc: Global, input: &Input, spare: usize) -> Result<(), AllocError>
        requires sound { IsSoundState input.now self.old }
        requires spare { spare < length self.old.spares }
        requires awaited { 0 < length (queue_at self.old.waiting (spot_at self.old.spares spare).disk.0) }
        ensures sound { OnOk result (IsSoundState input.now self.new) }
        ensures preserves { OnOk result (Preserves input.now spare self.old self.new) }
        ensures fewer { OnOk result (waiting_count self.new + 1 ≡ waiting_count self.old) }
    {
        input.keeps_rules();
        let disk = self.spares[spare].disk;
        let Some(item) = self.waiting[disk.0 as usize].pop() else {
            unreachable!()
        };
        self.shift(alloc, item, spare)
    }

    /// Shifts an item that waits for the spare's disk to it, and then one that waits for the disk of the spare that this leaves,
    /// and so on, until nobody waits there.
    pub fn settle(&mut self, alloc: Global, input: &Input, spare: usize) -> Result<(), AllocError>
        requires sound { IsSoundState input.now self.old }
        requires spare { spare < length self.old.spares }
        ensures sound { OnOk result (IsSoundState input.now self.new) }
        ensures preserves { OnOk result (Preserves input.now spare self.old self.new) }
        ensures unawaited { OnOk result (IsUnawaited self.new.waiting (spot_at self.new.spares spare)) }
    {
        input.keeps_rules();
        while self.is_awaited(self.spares[spare].disk) {
            self.fill(alloc, input, spare)?;
        }
        Ok(())
    }

    /// Settles each spare.
    pub fn settle_all(&mut self, alloc: Global, input: &Input) -> Result<(), AllocError>
        requires { IsSoundState input.now self.old }
        ensures sound { OnOk result (IsSoundState input.now self.new) }
        ensures unawaited { OnOk result (AreUnawaited self.new) }
        ensures spares { OnOk result (length self.new.spares ≡ length self.old.spares) }
    {
        for spare in 0..self.spares.len() {
            self.settle(alloc, input, spare)?;
        }
        Ok(())
    }

    /// Parks an item of a disk for which others wait at the first spare, and settles the spare that it leaves.
    fn park(&mut self, alloc: Global, input: &Input, item: ItemId) -> Result<(), AllocError>
        requires sound { IsSoundState input.now self.old }
        requires unawaited { AreUnawaited self.old }
        requires spare { 0 < length self.old.spares }
        requires there { item.0 < length input.now.items }
        requires relocated { is_relocated input.now item.0 ≡ true }
        requires unmoved { spot_at self.old.spots item.0 ≡ spot_at input.now.spots item.0 }
        requires awaited { 0 < length (queue_at self.old.waiting (spot_at input.now.spots item.0).disk.0) }
        ensures sound { OnOk result (IsSoundState input.now self.new) }
        ensures unawaited { OnOk result (AreUnawaited self.new) }
        ensures preserves { OnOk result (Preserves input.now 0 self.old self.new) }
        ensures moved { OnOk result (spot_at self.new.spots item.0 ≢ spot_at input.now.spots item.0) }
    {
        input.keeps_rules();
        self.shift(alloc, item, 0)?;
        self.settle(alloc, input, 0)
    }

    /// Parks an item, where it was never shifted and others wait for its disk.
    fn clear(&mut self, alloc: Global, input: &Input, item: ItemId) -> Result<(), AllocError>
        requires sound { IsSoundState input.now self.old }
        requires unawaited { AreUnawaited self.old }
        requires spare { 0 < length self.old.spares }
        requires there { item.0 < length input.now.items }
        ensures sound { OnOk result (IsSoundState input.now self.new) }
        ensures unawaited { OnOk result (AreUnawaited self.new) }
        ensures preserves { OnOk result (Preserves input.now 0 self.old self.new) }
        ensures cleared { OnOk result (IsCleared input.now self.new item.0) }
    {
        let spot = input.now()[item.0 as usize];
        if !input.relocated(item) {
            return Ok(());
        }
        if self.spots[item.0 as usize] != spot {
            return Ok(());
        }
        if !self.is_awaited(spot.disk) {
            return Ok(());
        }
        self.park(alloc, input, item)
    }

    /// Parks items of disks for which others wait, until nobody waits.
    pub fn clear_all(&mut self, alloc: Global, input: &Input) -> Result<(), AllocError>
        requires sound { IsSoundState input.now self.old }
        requires unawaited { AreUnawaited self.old }
        requires spare { 0 < length self.old.spares }
        ensures sound { OnOk result (IsSoundState input.now self.new) }
        ensures unawaited { OnOk result (AreUnawaited self.new) }
        ensures cleared { OnOk result (AreClearedBelow input.now self.new (length input.now.items)) }
    {
        for item in 0..input.items().len() {
            self.clear(alloc, input, ItemId(item as u32))?;
        }
        Ok(())
    }
}
