//! Sessions: plans that are carried out one step at a time.
ghost use Rattle.std.specs.Prelude.{◌≡◌, ◌↔◌, ◌+◌, ◌-◌, ◌<◌, ◌≤◌, ◌∷◌, Bool, ℕ, [], if◌then◌else◌, IfErr, IfOk, OnErr, OnOk, IfSome, IsSome, drop, take, true, length};
ghost use Rattle.mig_base.specs.Arrivals.{IsReached};
ghost use Rattle.mig_base.specs.declared.cells.Cell.TheVariants.{Gate, Head};
ghost use Rattle.mig_base.specs.Flights.{AreFlights};
ghost use Rattle.mig_base.specs.Journals.{is_armed};
ghost use Rattle.mig_base.specs.Images.{Image};
ghost use Rattle.mig_base.specs.JobCells.{IsJobCell, Tells, SettlesTo};
ghost use Rattle.mig_base.specs.RoundEvents.{IsRun, BeginsRun, Adds};
ghost use Rattle.mig_base.specs.Safety.{Contents, IsSafe, IsSound, IsSoundAfter};
ghost use Rattle.mig_base.specs.Stores.{State, flights, Looks, LeavesOnly, IsSettled};
ghost use Rattle.mig_base.specs.Tasks.{Task, IsTask};
ghost use Rattle.mig_mover.specs.Erasures.{AreAsked};
ghost use Rattle.std.specs.Option.{IsSomeAnd};
ghost use Rattle.mig_base.specs.Texts.{item_name};
ghost use Rattle.mig_mover.specs.Holdings.{IsUnrefused, cell_at};
ghost use Rattle.mig_store.specs.Grounds.{HasGround, Lacks};
ghost use Rattle.mig_mover.specs.Moves.{Keeps, Enters, IsFault, IsResumeFault, MayBeHalting, StaysArmed};
ghost use Rattle.mig_live.specs.Actions.{Action, AreMade, AreMadeInPart, IsMade, actions_left};
ghost use Rattle.mig_live.specs.Sessions.{Session, IsSession, InSight, InStep, is_synced, marks_by, steps_after};
ghost use Rattle.mig_live.specs.Underways.{round_size, steps_in};

use crate::steps::{mark_next, shifts_of_round, step_within};
use mig_base::ItemId;
use mig_jobs::Job;
use mig_mover::{MoveFault, enter_resume};
use mig_store::{Store, StoreFailed};
use std::marker::Model;

/// A plan that is carried out one step at a time.
///
/// A step is an erasure, a copy, a sync, or a mark with its sync. After a mark first the sources of the marked round are
/// erased and then the shifts of the next one are copied, both in the plan's order; a sync follows, and then the next mark.
/// After the last round's erasures a sync is the last step. Between steps each item can be read, whatever happens then.
#[derive(Drop)]
pub struct Live<'a> {
    job: &'a Job,
    // How many rounds are marked.
    marked: u32,
    // How many steps are left.
    left: u32,
    // How many steps are done since the last mark.
    done: u32,
}

impl<'a> Model for Live<'a> {
    ghost use Rattle.std.specs.Prelude.{◌≡◌, ◌+◌, ◌≤◌, length};
    ghost use Rattle.mig_live.specs.Sessions.{Session, steps_after};
    ghost use Rattle.mig_live.specs.Underways.{round_size, steps_in};

    ghost Value = { Session };

    ghost view = { λ l. record { task = l.job.now; marked = l.marked; left = l.left } };

    ghost invariant = { λ l. (l.marked ≤ length l.job.now.plan) × (l.done + l.left ≡ round_size l.job.now.plan l.marked + steps_after l.job.now.plan l.marked)
        × (l.done ≤ steps_in l.job.now.plan l.marked) };
}

// How many steps there are once so many rounds are marked, and what the last of them left is erased.
#[tactic(auto, using(crate::proofs::StepCounts::steps_more, crate::proofs::StepCounts::steps_few))]
fn count_steps(job: &Job, marked: u32) -> u32
    requires { marked ≤ length job.now.plan }
    ensures { result ≡ steps_after job.now.plan marked }
{
    job.keeps_rules();
    let mut count = 1;
    for round in marked..job.rounds() {
        count += 2 * job.round_len(round + 1) + 2;
    }
    count
}

impl<'a> Live<'a> {
    /// Enters a plan: resumes it, as `enter_resume` does, and carries out none of its rounds.
    ///
    /// # Errors
    ///
    /// Those of `enter_resume`.
    pub fn enter<S: Store>(job: &'a Job, store: &mut S) -> Result<Live<'a>, MoveFault>
        ensures task { IfOk result (λ live. live.task ≡ job.now) }
        ensures left { IfOk result (λ live. live.left ≡ steps_after job.now.plan live.marked) }
        ensures keeps { Keeps job.now (S.state store.old) (S.state store.new) }
        ensures enters { IfOk result (λ live. Enters job.now (S.state store.old) (S.state store.new) live.marked) }
        ensures in_step { IfOk result (λ live. (asked : Bool) (contents : Contents) → Tells (IsJobCell job.now.input job.now.plan) (S.state store.old).reads → SettlesTo (IsSound asked job.now.input job.now.plan job.now.digest contents) (S.state store.old) →
            InStep asked live contents (S.state store.new)) }
        ensures ours { IfOk result (λ live. AreFlights (flights (S.state store.old)) → IsSome ((S.state store.old).reads Gate) → is_armed (S.state store.old).reads ≡ true → IfSome ((S.state store.old).reads Head) (λ kept. kept ≡ job.now.digest)) }
        // Each slot that the plan names was asked for.
        ensures asked { IfOk result (λ live. AreAsked S.asked live.task) }
        // Each copy that was in flight ends, and no event comes besides.
        ensures ended { IfOk result (λ live. Adds (IsRun (flights (S.state store.old)) []) (S.state store.old) (S.state store.new)) }
        ensures part { Adds (BeginsRun (flights (S.state store.old)) []) (S.state store.old) (S.state store.new) }
        ensures armed { StaysArmed (S.state store.old) (S.state store.new) }
        // The same where closing the plan early was stopped.
        ensures halting { (contents : Contents) (n : ℕ) → Tells (IsJobCell job.now.input job.now.plan) (S.state store.old).reads → MayBeHalting job.now contents (S.state store.old) n →
            LeavesOnly (IsSafe job.now.input job.now.plan job.now.digest contents) (S.state store.old) (S.state store.new) }
        ensures seen { IfOk result (λ live. S.refuses → IsUnrefused job.now (S.state store.old) → InSight live (S.seen store.new) (S.state store.new).reads) }
        ensures fault { IfErr result (IsFault (S.refuses × ¬ IsUnrefused job.now (S.state store.old)) job.now (S.state store.old) (S.state store.new)) }
        ensures kind { IfErr result IsResumeFault }
    {
        job.keeps_rules();
        let marked = enter_resume(job, store)?;
        Ok(Live {
            job,
            marked,
            left: count_steps(job, marked),
            done: shifts_of_round(job, marked),
        })
    }

    /// The plan that is carried out, with its tables.
    pub fn job(&self) -> &'a Job
        ensures { result.now ≡ self.now.task }
    {
        self.job
    }

    /// How many rounds are marked.
    pub fn marked(&self) -> u32
        ensures { result ≡ self.now.marked }
    {
        self.marked
    }

    /// How many steps are left.
    pub fn left(&self) -> u32
        ensures { result ≡ self.now.left }
    {
        self.left
    }

    // Whether the next step is a mark.
    fn is_at_mark(&self) -> bool
        ensures { result ≡ is_synced self.now }
    {
        self.job.keeps_rules();
        self.done
            == shifts_of_round(self.job, self.marked)
                + shifts_of_round(self.job, self.marked + 1)
                + 1
    }

    /// Makes the next step. A step is left, no copy is in flight, and the store is such a one as the plan was entered on.
    ///
    /// # Errors
    ///
    /// A fault of the store. The session is gone, and entering the plan again is the way on.
    pub fn step<S: Store>(self, store: &mut S) -> Result<Live<'a>, StoreFailed>
        requires left { 0 < self.left }
        requires asked { AreAsked S.asked self.task }
        requires none { flights (S.state store.old) ≡ [] }
        ensures task { IfOk result (λ live. live.task ≡ self.entry.task) }
        ensures left { IfOk result (λ live. live.left + 1 ≡ self.entry.left) }
        ensures marked { IfOk result (λ live. live.marked ≡ (if is_synced self.entry then self.entry.marked + 1 else self.entry.marked)) }
        // It is the first of the steps that are left; where it fails, a part of it may have been made.
        ensures made { IfOk result (λ live. (a : Action) × (actions_left self.entry ≡ a ∷ actions_left live) × IsMade a (S.state store.old) (S.state store.new)) }
        ensures part { AreMadeInPart [] (take 1 (actions_left self.entry)) (S.state store.old) (S.state store.new) }
        ensures any_moment { (asked : Bool) (contents : Contents) → InStep asked self.entry contents (S.state store.old) →
            LeavesOnly (IsSound asked self.entry.task.input self.entry.task.plan self.entry.task.digest contents) (S.state store.old) (S.state store.new) }
        ensures in_step { IfOk result (λ live. (asked : Bool) (contents : Contents) → InStep asked self.entry contents (S.state store.old) → InStep asked live contents (S.state store.new)) }
        ensures landed { OnOk result (flights (S.state store.new) ≡ []) }
        ensures seen { IfOk result (λ live. S.refuses → InSight self.entry (S.seen store.old) (S.state store.old).reads → InSight live (S.seen store.new) (S.state store.new).reads) }
        ensures cause { HasGround S.refuses (¬ InSight self.entry (S.seen store.old) (S.state store.old).reads) (S.state store.old) (S.state store.new) result }
    {
        self.job.keeps_rules();
        if self.is_at_mark() {
            mark_next(self.job, store, self.marked)?;
            return Ok(Live {
                job: self.job,
                marked: self.marked + 1,
                left: self.left - 1,
                done: 0,
            });
        }
        step_within(self.job, store, self.marked, self.done)?;
        Ok(Live {
            job: self.job,
            marked: self.marked,
            left: self.left - 1,
            done: self.done + 1,
        })
    }

    /// Makes so many steps, or as many as are left.
    ///
    /// # Errors
    ///
    /// A fault of the store, as of a step.
    pub fn advance<S: Store>(self, store: &mut S, count: u32) -> Result<Live<'a>, StoreFailed>
        requires asked { AreAsked S.asked self.task }
        requires none { flights (S.state store.old) ≡ [] }
        ensures task { IfOk result (λ live. live.task ≡ self.entry.task) }
        ensures left { IfOk result (λ live. live.left ≡ self.entry.left - count) }
        ensures rest { IfOk result (λ live. actions_left live ≡ drop count (actions_left self.entry)) }
        ensures made { OnOk result (AreMade (take count (actions_left self.entry)) (S.state store.old) (S.state store.new)) }
        ensures part { OnErr result (AreMadeInPart [] (take count (actions_left self.entry)) (S.state store.old) (S.state store.new)) }
        ensures any_moment { (asked : Bool) (contents : Contents) → InStep asked self.entry contents (S.state store.old) →
            LeavesOnly (IsSound asked self.entry.task.input self.entry.task.plan self.entry.task.digest contents) (S.state store.old) (S.state store.new) }
        ensures in_step { IfOk result (λ live. (asked : Bool) (contents : Contents) → InStep asked self.entry contents (S.state store.old) → InStep asked live contents (S.state store.new)) }
        ensures landed { OnOk result (flights (S.state store.new) ≡ []) }
        ensures seen { IfOk result (λ live. S.refuses → InSight self.entry (S.seen store.old) (S.state store.old).reads → InSight live (S.seen store.new) (S.state store.new).reads) }
        ensures cause { HasGround S.refuses (¬ InSight self.entry (S.seen store.old) (S.state store.old).reads) (S.state store.old) (S.state store.new) result }
    {
        let mut live = self;
        for _ in 0..count.min(live.left()) {
            live = live.step(store)?;
        }
        Ok(live)
    }

    /// Reads an item, in the slot where the marked rounds took it. The store is asked first whether the slot holds the item.
    ///
    /// # Errors
    ///
    /// A fault of the store, such as of one that sees that the item isn't there.
    pub fn read<S: Store>(
        &self,
        store: &mut S,
        item: ItemId,
        into: &mut [u8; 4096],
    ) -> Result<(), StoreFailed>
        requires item { item.0 < length self.now.task.input.items }
        ensures bytes { OnOk result ((asked : Bool) (contents : Contents) → InStep asked self.now contents (S.state store.old) → into.new ≡ contents item.0) }
        ensures in_step { (asked : Bool) (contents : Contents) → InStep asked self.now contents (S.state store.old) → InStep asked self.now contents (S.state store.new) }
        ensures change { Looks (S.state store.old) (S.state store.new) }
        ensures seen { OnOk result (flights (S.state store.old) ≡ [] → InSight self.now (S.seen store.old) (S.state store.old).reads →
            InSight self.now (S.seen store.new) (S.state store.new).reads) }
        ensures cause { HasGround S.refuses (IsSomeAnd (cell_at self.now.task self.now.marked item.0) (λ cell. Lacks (S.state store.old).reads cell (item_name self.now.task.input item.0))) (S.state store.old) (S.state store.new) result }
    {
        self.job.keeps_rules();
        let cell = self.job.cell_of(item, self.marked);
        store.expects(&cell, &self.job.input().items()[item.0 as usize])?;
        store.read(&cell, into)
    }

    /// A round is marked exactly where no more steps are left than come from its mark on. So as many rounds are marked as were
    /// at first, and those whose marks are among the steps made since. The call does nothing.
    pub fn marks_follow_steps(&self)
        ensures rules { IsTask self.now.task }
        ensures session { IsSession self.now }
        ensures round { (r : ℕ) → r ≤ length self.now.task.plan → (r ≤ self.now.marked ↔ self.now.left ≤ round_size self.now.task.plan r + steps_after self.now.task.plan r) }
        ensures count { (found steps : ℕ) → found ≤ length self.now.task.plan → self.now.left ≡ steps_after self.now.task.plan found - steps
            → self.now.marked ≡ found + marks_by (drop found self.now.task.plan) steps }
    {
        self.job.keeps_rules();
    }

    /// Between steps every image that a crash may leave is as sound as what reads give. The call does nothing.
    pub fn images_are_sound<S: Store>(&self, store: &S)
        ensures { (asked : Bool) (contents : Contents) → InStep asked self.now contents (S.state store.now) → (image : Image) → (S.state store.now).may_leave image →
            IsSoundAfter asked self.now.task.input self.now.task.plan self.now.task.digest contents image self.now.marked }
    {
        self.marks_follow_steps();
    }

    /// Where no step is left, the target is reached. The call does nothing.
    pub fn target_is_reached<S: Store>(&self, store: &S)
        ensures reached { self.now.left ≡ 0 → (contents : Contents) → InStep true self.now contents (S.state store.now) → IsReached self.now.task.input self.now.task.plan self.now.task.digest contents (S.state store.now).reads }
        ensures settled { self.now.left ≡ 0 → (asked : Bool) (contents : Contents) → InStep asked self.now contents (S.state store.now) → IsSettled (S.state store.now) }
    {
        self.marks_follow_steps();
    }
}
