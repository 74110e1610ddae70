//! How a plan's migration is entered: started, or resumed.
ghost use Rattle.std.specs.Prelude.{◌≡◌, ◌≢◌, ◌≤◌, ℕ, [], All, true, false, IfErr, IfOk, IfSome, IsSome, OnErr, OnOk, length};
ghost use Rattle.mig_base.specs.declared.cells.Cell.TheVariants.{Gate, Head};
ghost use Rattle.mig_base.specs.Flights.{AreFlights};
ghost use Rattle.std.specs.List.{prefix_len, range_with_len};
ghost use Rattle.mig_base.specs.JobCells.{IsJobCell, IsMark, Tells};
ghost use Rattle.mig_base.specs.Journals.{is_armed, is_marked};
ghost use Rattle.mig_base.specs.Layouts.{round_at};
ghost use Rattle.mig_base.specs.Readiness.{IsReady};
ghost use Rattle.mig_base.specs.RoundEvents.{IsRun, BeginsRun, Adds};
ghost use Rattle.mig_base.specs.RoundStates.{IsSourceSlot, HasDone};
ghost use Rattle.mig_base.specs.Safety.{Contents, IsSafe};
ghost use Rattle.mig_base.specs.Slots.{slot_of};
ghost use Rattle.mig_base.specs.Stores.{State, flights, ChangesOnly, LeavesOnly, IsSettled, HasCause};
ghost use Rattle.mig_journal.specs.SeenJournals.{is_running, HasHead};
ghost use Rattle.mig_mover.specs.Erasures.{AreAsked, AreCompared, HoldsZeros};
ghost use Rattle.mig_base.specs.Images.{NoCell};
ghost use Rattle.mig_mover.specs.Holdings.{IsKeptMarked, IsSeen, IsUnrefused};
ghost use Rattle.mig_store.specs.Grounds.{HasGround, Remembers};
ghost use Rattle.mig_mover.specs.Moves.{Lands, Settles, IsRunning, IsPlanFault, IsFault, IsStartFault, IsResumeFault, StaysArmed, MayBeHalting, Keeps, Enters, KeepsOn, EntersOn, IsFaultOn};
ghost use Rattle.mig_base.specs.Tasks.{IsTask, Task};

use crate::erasing::erase_sources;
use crate::expecting::expect_all;
use crate::faults::MoveFault;
use crate::ready::check_ready;
use mig_jobs::Job;
use mig_journal::{Seen, arm, look, marked};
use mig_store::{Store, StoreFailed};

/// Syncs, and looks at the journal.
///
/// # Errors
///
/// A fault of the store.
pub fn settle_and_look<S: Store>(store: &mut S) -> Result<Seen, StoreFailed>
    ensures settles { IfOk result (λ seen. Settles (S.state store.old) (S.state store.new)) }
    ensures gate { IfOk result (λ seen. IsSome ((S.state store.new).reads Gate) → is_running seen ≡ is_armed (S.state store.new).reads) }
    ensures head { IfOk result (λ seen. HasHead seen ((S.state store.new).reads Head)) }
    ensures lands { Lands (S.state store.old) (S.state store.new) }
    ensures seen { Remembers NoCell (S.seen store.old) (S.seen store.new) }
    ensures cause { HasCause (S.state store.old) (S.state store.new) result }
{
    store.sync()?;
    look(store)
}

/// Refuses another plan than the job's.
pub(crate) fn check_plan(job: &Job, kept: &[u8; 32]) -> Result<(), MoveFault>
    ensures ours { OnOk result (kept.now ≡ job.now.digest) }
    ensures other { IfErr result (IsPlanFault job.now kept.now) }
    ensures kind { IfErr result IsResumeFault }
{
    if *kept != *job.digest() {
        return Err(MoveFault::OtherPlan {
            kept: *kept,
            ours: *job.digest(),
        });
    }
    Ok(())
}

// Refuses to start where a plan was started before.
fn refuse_start(job: &Job, kept: &[u8; 32]) -> Result<(), MoveFault>
    ensures never { OnOk result ⊥ }
    ensures fault { IfErr result (IsPlanFault job.now kept.now) }
    ensures kind { IfErr result IsStartFault }
{
    check_plan(job, kept)?;
    Err(MoveFault::Started)
}

// Arms the journal of a store whose gate isn't 1, where the store is ready.
fn enter_idle<S: Store>(job: &Job, store: &mut S) -> Result<(), MoveFault>
    requires settled { IsSettled (S.state store.old) }
    requires none { flights (S.state store.old) ≡ [] }
    requires idle { is_armed (S.state store.old).reads ≡ false }
    ensures keeps { KeepsOn job.now (S.state store.old) (S.state store.new) }
    ensures enters { OnOk result (EntersOn job.now (S.state store.old) (S.state store.new) 0) }
    ensures asked { OnOk result (AreAsked S.asked job.now) }
    ensures seen { OnOk result (S.refuses → Tells (IsJobCell job.now.input job.now.plan) (S.state store.old).reads → IsSeen job.now (S.seen store.new) (S.state store.new).reads 0) }
    ensures fault { IfErr result (IsFaultOn (S.refuses × ¬ Tells (IsJobCell job.now.input job.now.plan) (S.state store.old).reads) job.now (S.state store.old) (S.state store.new)) }
    ensures kind { IfErr result IsResumeFault }
{
    check_ready(job, store)?;
    arm(store, job.digest(), job.rounds())?;
    Ok(())
}

// The same, where the plan is resumed: no round is marked.
fn resume_idle<S: Store>(job: &Job, store: &mut S) -> Result<u32, MoveFault>
    requires settled { IsSettled (S.state store.old) }
    requires none { flights (S.state store.old) ≡ [] }
    requires idle { is_armed (S.state store.old).reads ≡ false }
    ensures keeps { KeepsOn job.now (S.state store.old) (S.state store.new) }
    ensures enters { IfOk result (EntersOn job.now (S.state store.old) (S.state store.new)) }
    ensures asked { IfOk result (λ k. AreAsked S.asked job.now) }
    ensures compared { IfOk result (AreCompared S.compared job.now) }
    ensures seen { IfOk result (λ k. S.refuses → Tells (IsJobCell job.now.input job.now.plan) (S.state store.old).reads → IsSeen job.now (S.seen store.new) (S.state store.new).reads k) }
    ensures fault { IfErr result (IsFaultOn (S.refuses × ¬ Tells (IsJobCell job.now.input job.now.plan) (S.state store.old).reads) job.now (S.state store.old) (S.state store.new)) }
    ensures kind { IfErr result IsResumeFault }
{
    match enter_idle(job, store) {
        Ok(()) => Ok(0),
        Err(fault) => Err(fault),
    }
}

// Erases again what the last marked round left, if there is one.
fn erase_last<S: Store>(job: &Job, store: &mut S, k: u32) -> Result<(), StoreFailed>
    requires most { k ≤ length job.now.plan }
    requires asked { AreAsked S.asked job.now }
    requires none { flights (S.state store.old) ≡ [] }
    requires compared { AreCompared S.compared job.now k }
    ensures erased { OnOk result (All (λ s. HoldsZeros ((S.state store.new).reads (slot_of job.now.input s.from))) (round_at job.now.plan k)) }
    ensures change { ChangesOnly (IsSourceSlot job.now.input job.now.plan k) (S.state store.old) (S.state store.new) }
    ensures seen { OnOk result (IsSeen job.now (S.seen store.old) (S.state store.old).reads k → IsSeen job.now (S.seen store.new) (S.state store.new).reads k) }
    ensures cause { HasGround S.refuses (¬ IsSeen job.now (S.seen store.old) (S.state store.old).reads k) (S.state store.old) (S.state store.new) result }
{
    if k == 0 {
        return Ok(());
    }
    erase_sources(job, store, k)
}

/// How many rounds are marked, of a store that stands as it should after them. It is asked for the items before anything is written.
pub(crate) fn expect_marked<S: Store>(job: &Job, store: &mut S) -> Result<u32, StoreFailed>
    requires none { flights (S.state store.old) ≡ [] }
    ensures valid { IsTask job.now }
    ensures most { IfOk result (λ k. k ≤ length job.now.plan) }
    ensures asked { IfOk result (λ k. AreAsked S.asked job.now) }
    ensures compared { IfOk result (AreCompared S.compared job.now) }
    ensures count { IfOk result (λ k. Tells (IsMark (length job.now.plan)) (S.state store.old).reads
        → k ≡ prefix_len (is_marked (S.state store.old).reads) (range_with_len 1 (length job.now.plan))) }
    ensures change { ChangesOnly NoCell (S.state store.old) (S.state store.new) }
    ensures seen { IfOk result (λ k. S.refuses → IsKeptMarked job.now (S.state store.old).reads
        → IsSeen job.now (S.seen store.new) (S.state store.new).reads k) }
    ensures cause { HasGround S.refuses (¬ IsKeptMarked job.now (S.state store.old).reads) (S.state store.old) (S.state store.new) result }
{
    let k = marked(store, job.rounds())?;
    expect_all(job, store, k)?;
    Ok(k)
}

// Goes on after the marked rounds of a store whose journal names the job's plan.
fn enter_running<S: Store>(job: &Job, store: &mut S) -> Result<u32, StoreFailed>
    requires settled { IsSettled (S.state store.old) }
    requires none { flights (S.state store.old) ≡ [] }
    requires running { IsRunning (S.state store.old).reads }
    ensures keeps { KeepsOn job.now (S.state store.old) (S.state store.new) }
    ensures enters { IfOk result (EntersOn job.now (S.state store.old) (S.state store.new)) }
    ensures armed { is_armed (S.state store.old).reads ≡ true → LeavesOnly (λ image. is_armed image ≡ true) (S.state store.old) (S.state store.new) }
    ensures asked { IfOk result (λ k. AreAsked S.asked job.now) }
    ensures compared { IfOk result (AreCompared S.compared job.now) }
    ensures seen { IfOk result (λ k. S.refuses → IsKeptMarked job.now (S.state store.old).reads
        → IsSeen job.now (S.seen store.new) (S.state store.new).reads k) }
    ensures cause { HasGround S.refuses (¬ IsKeptMarked job.now (S.state store.old).reads) (S.state store.old) (S.state store.new) result }
{
    let k = expect_marked(job, store)?;
    erase_last(job, store, k)?;
    Ok(k)
}

// Goes on with the plan that the journal names, where it is the job's.
fn resume_running<S: Store>(job: &Job, store: &mut S, kept: &[u8; 32]) -> Result<u32, MoveFault>
    requires settled { IsSettled (S.state store.old) }
    requires none { flights (S.state store.old) ≡ [] }
    requires running { IsRunning (S.state store.old).reads }
    requires head { IfSome ((S.state store.old).reads Head) (λ bytes. kept.now ≡ bytes) }
    ensures keeps { KeepsOn job.now (S.state store.old) (S.state store.new) }
    ensures enters { IfOk result (EntersOn job.now (S.state store.old) (S.state store.new)) }
    ensures armed { is_armed (S.state store.old).reads ≡ true → LeavesOnly (λ image. is_armed image ≡ true) (S.state store.old) (S.state store.new) }
    ensures ours { IfOk result (λ k. kept.now ≡ job.now.digest) }
    ensures asked { IfOk result (λ k. AreAsked S.asked job.now) }
    ensures compared { IfOk result (AreCompared S.compared job.now) }
    ensures seen { IfOk result (λ k. S.refuses → IsKeptMarked job.now (S.state store.old).reads
        → IsSeen job.now (S.seen store.new) (S.state store.new).reads k) }
    ensures fault { IfErr result (IsFaultOn (S.refuses × (kept.now ≡ job.now.digest) × ¬ IsKeptMarked job.now (S.state store.old).reads) job.now (S.state store.old) (S.state store.new)) }
    ensures kind { IfErr result IsResumeFault }
{
    check_plan(job, kept)?;
    Ok(enter_running(job, store)?)
}

/// Starts a plan: syncs, refuses a store that is armed or isn't ready, and arms the journal.
pub fn enter_start<S: Store>(job: &Job, store: &mut S) -> Result<(), MoveFault>
    ensures keeps { Keeps job.now (S.state store.old) (S.state store.new) }
    ensures enters { OnOk result (Enters job.now (S.state store.old) (S.state store.new) 0) }
    ensures idle { OnOk result (AreFlights (flights (S.state store.old)) → IsSome ((S.state store.old).reads Gate) → is_armed (S.state store.old).reads ≡ false) }
    // Each slot that the plan names was asked for.
    ensures asked { OnOk result (AreAsked S.asked job.now) }
    // Each copy that was in flight ends, and no event comes besides.
    ensures ended { OnOk result (Adds (IsRun (flights (S.state store.old)) []) (S.state store.old) (S.state store.new)) }
    ensures part { Adds (BeginsRun (flights (S.state store.old)) []) (S.state store.old) (S.state store.new) }
    ensures armed { StaysArmed (S.state store.old) (S.state store.new) }
    // Where the cells show no ground to refuse, none is refused of what the first round does.
    ensures seen { OnOk result (S.refuses → Tells (IsJobCell job.now.input job.now.plan) (S.state store.old).reads → IsSeen job.now (S.seen store.new) (S.state store.new).reads 0) }
    ensures fault { IfErr result (IsFault (S.refuses × ¬ Tells (IsJobCell job.now.input job.now.plan) (S.state store.old).reads) job.now (S.state store.old) (S.state store.new)) }
    ensures kind { IfErr result IsStartFault }
{
    match settle_and_look(store)? {
        Seen::Idle => enter_idle(job, store),
        Seen::Running { digest } => refuse_start(job, &digest),
    }
}

/// Resumes a plan: syncs, starts it where the gate isn't 1, and otherwise asks for the items, and erases again what the
/// last marked round left. It answers how many rounds are marked.
pub fn enter_resume<S: Store>(job: &Job, store: &mut S) -> Result<u32, MoveFault>
    ensures keeps { Keeps job.now (S.state store.old) (S.state store.new) }
    ensures enters { IfOk result (Enters job.now (S.state store.old) (S.state store.new)) }
    ensures ours { IfOk result (λ k. AreFlights (flights (S.state store.old)) → IsSome ((S.state store.old).reads Gate) → is_armed (S.state store.old).reads ≡ true → IfSome ((S.state store.old).reads Head) (λ kept. kept ≡ job.now.digest)) }
    // Each slot that the plan names was asked for.
    ensures asked { IfOk result (λ k. AreAsked S.asked job.now) }
    // What the last marked round left was compared with its copies.
    ensures compared { IfOk result (AreCompared S.compared job.now) }
    // Each copy that was in flight ends, and no event comes besides.
    ensures ended { IfOk result (λ k. Adds (IsRun (flights (S.state store.old)) []) (S.state store.old) (S.state store.new)) }
    ensures part { Adds (BeginsRun (flights (S.state store.old)) []) (S.state store.old) (S.state store.new) }
    ensures armed { StaysArmed (S.state store.old) (S.state store.new) }
    // The same where closing the plan early was stopped.
    ensures halting { (contents : Contents) (n : ℕ) → Tells (IsJobCell job.now.input job.now.plan) (S.state store.old).reads → MayBeHalting job.now contents (S.state store.old) n →
        LeavesOnly (IsSafe job.now.input job.now.plan job.now.digest contents) (S.state store.old) (S.state store.new) }
    ensures halted { IfOk result (λ k. (contents : Contents) (n : ℕ) → Tells (IsJobCell job.now.input job.now.plan) (S.state store.old).reads → MayBeHalting job.now contents (S.state store.old) n →
        HasDone false job.now.input job.now.plan job.now.digest contents (S.state store.new) k) }
    // Where the cells show no ground to refuse, none is refused of what the next round does.
    ensures seen { IfOk result (λ k. S.refuses → IsUnrefused job.now (S.state store.old) → IsSeen job.now (S.seen store.new) (S.state store.new).reads k) }
    ensures fault { IfErr result (IsFault (S.refuses × ¬ IsUnrefused job.now (S.state store.old)) job.now (S.state store.old) (S.state store.new)) }
    ensures kind { IfErr result IsResumeFault }
{
    match settle_and_look(store)? {
        Seen::Idle => resume_idle(job, store),
        Seen::Running { digest } => resume_running(job, store, &digest),
    }
}
