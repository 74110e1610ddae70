//! What a store is asked before anything is written that rests on it.
ghost use Rattle.std.specs.Prelude.{◌≡◌, ◌<◌, ◌≤◌, ℕ, [], Some, IfSome, OnOk, length, slice_get};
ghost use Rattle.mig_base.specs.Images.{NoCell};
ghost use Rattle.mig_base.specs.JobCells.{IsFreeSlot};
ghost use Rattle.mig_base.specs.declared.cells.Cell.{Cell};
ghost use Rattle.mig_base.specs.Layouts.{round_at};
ghost use Rattle.mig_base.specs.Slots.{slot_of};
ghost use Rattle.mig_base.specs.Stores.{State, flights, ChangesOnly};
ghost use Rattle.mig_base.specs.RoundEvents.{flights_of};
ghost use Rattle.mig_base.specs.Tasks.{Task, IsTask};
ghost use Rattle.mig_jobs.specs.Vacancies.{IsVacant};
ghost use Rattle.mig_mover.specs.Erasures.{AreAsked, AreCompared, IsItemAsked};
ghost use Rattle.mig_mover.specs.Holdings.{AreAlike, AreItemsKept, IsItemKept, IsItemSeen, IsKept, IsSeen, cell_at};
ghost use Rattle.mig_store.specs.Grounds.{HasGround, IsLast, Remembers, SlotsDiffer};

use mig_base::{Cell, ItemId};
use mig_jobs::{Job, Vacancy, spot_cell};
use mig_store::{Store, StoreFailed};

// Asks for an item where it is after this number of rounds, if the plan shifts it. Others are not asked for.
fn expect_moved<S: Store>(
    job: &Job,
    store: &mut S,
    item: ItemId,
    found: u32,
) -> Result<(), StoreFailed>
    requires most { found ≤ length job.now.plan }
    requires item { item.0 < length job.now.input.items }
    requires none { flights (S.state store.old) ≡ [] }
    ensures asked { OnOk result (IsItemAsked S.asked job.now found item.0) }
    ensures change { ChangesOnly NoCell (S.state store.old) (S.state store.new) }
    ensures noted { OnOk result (IsItemSeen job.now (S.seen store.new) found item.0) }
    ensures seen { Remembers (λ c. cell_at job.now found item.0 ≡ Some c) (S.seen store.old) (S.seen store.new) }
    ensures cause { HasGround S.refuses (¬ IsItemKept job.now (S.state store.old).reads found item.0) (S.state store.old) (S.state store.new) result }
{
    if !job.is_shifted(item.0 as usize) {
        return Ok(());
    }
    let cell = &job.cell_of(item, found);
    store.expects(cell, &job.input().items()[item.0 as usize])
}

// Asks whether the slot of a vacancy is free, if it lasts after this number of rounds.
fn expect_vacant<S: Store>(
    job: &Job,
    store: &mut S,
    v: &Vacancy,
    found: u32,
) -> Result<(), StoreFailed>
    requires disk { v.now.spot.disk.0 < length job.now.input.disks }
    requires none { flights (S.state store.old) ≡ [] }
    ensures asked { OnOk result (IsVacant v.now found → S.asked (slot_of job.now.input v.now.spot)) }
    ensures change { ChangesOnly NoCell (S.state store.old) (S.state store.new) }
    ensures seen { Remembers NoCell (S.seen store.old) (S.seen store.new) }
    ensures cause { HasGround S.refuses (IsVacant v.now found × IsLast (S.state store.old).reads (S.seen store.old) (slot_of job.now.input v.now.spot)) (S.state store.old) (S.state store.new) result }
{
    if v.from <= found && found < v.until {
        return store.expects_free(&spot_cell(job.input(), v.spot));
    }
    Ok(())
}

// Asks for each item that the plan shifts, where it is after this number of rounds.
fn expect_shifted<S: Store>(job: &Job, store: &mut S, found: u32) -> Result<(), StoreFailed>
    requires most { found ≤ length job.now.plan }
    requires none { flights (S.state store.old) ≡ [] }
    ensures asked { OnOk result ((item : ℕ) → item < length job.now.input.items → IsItemAsked S.asked job.now found item) }
    ensures change { ChangesOnly NoCell (S.state store.old) (S.state store.new) }
    ensures noted { OnOk result ((item : ℕ) → item < length job.now.input.items → IsItemSeen job.now (S.seen store.new) found item) }
    ensures cause { HasGround S.refuses (¬ AreItemsKept job.now (S.state store.old).reads found) (S.state store.old) (S.state store.new) result }
{
    job.keeps_rules();
    for item in 0..job.input().items().len() {
        expect_moved(job, store, ItemId(item as u32), found)?;
    }
    Ok(())
}

// Asks for each named slot that is free after this number of rounds.
fn expect_free<S: Store>(job: &Job, store: &mut S, found: u32) -> Result<(), StoreFailed>
    requires most { found ≤ length job.now.plan }
    requires none { flights (S.state store.old) ≡ [] }
    ensures asked { OnOk result ((cell : Cell) → IsFreeSlot job.now.input job.now.plan found cell → S.asked cell) }
    ensures change { ChangesOnly NoCell (S.state store.old) (S.state store.new) }
    ensures seen { Remembers NoCell (S.seen store.old) (S.seen store.new) }
    ensures cause { HasGround S.refuses (¬ IsSeen job.now (S.seen store.old) (S.state store.old).reads found) (S.state store.old) (S.state store.new) result }
{
    for v in job.vacancies() {
        expect_vacant(job, store, v, found)?;
    }
    Ok(())
}

// Asks for one copy of a round, whether what its source still holds stands at its target.
fn expect_copied<S: Store>(
    job: &Job,
    store: &mut S,
    round: u32,
    place: u32,
) -> Result<(), StoreFailed>
    requires from { 1 ≤ round }
    requires to { round ≤ length job.now.plan }
    requires place { place < length (round_at job.now.plan round) }
    requires none { flights (S.state store.old) ≡ [] }
    ensures compared { OnOk result (IfSome (slice_get (flights_of job.now.input (round_at job.now.plan round)) place) (λ f. S.compared f.from f.to)) }
    ensures change { ChangesOnly NoCell (S.state store.old) (S.state store.new) }
    ensures seen { Remembers NoCell (S.seen store.old) (S.seen store.new) }
    ensures cause { HasGround S.refuses (IfSome (slice_get (flights_of job.now.input (round_at job.now.plan round)) place) (λ f. SlotsDiffer (S.state store.old).reads f.from f.to)) (S.state store.old) (S.state store.new) result }
{
    let (from, to) = job.copy(round, place);
    store.expects_copy(&from, &to)
}

// Asks for each copy of the last round that is marked, where there is one: its sources are erased next.
fn expect_copies<S: Store>(job: &Job, store: &mut S, found: u32) -> Result<(), StoreFailed>
    requires most { found ≤ length job.now.plan }
    requires none { flights (S.state store.old) ≡ [] }
    ensures compared { OnOk result (AreCompared S.compared job.now found) }
    ensures change { ChangesOnly NoCell (S.state store.old) (S.state store.new) }
    ensures seen { Remembers NoCell (S.seen store.old) (S.seen store.new) }
    ensures cause { HasGround S.refuses (¬ AreAlike job.now (S.state store.old).reads found) (S.state store.old) (S.state store.new) result }
{
    if found == 0 {
        return Ok(());
    }
    for place in 0..job.round_len(found) {
        expect_copied(job, store, found, place)?;
    }
    Ok(())
}

/// Asks whether the store stands as it should after this number of rounds: each item that the plan shifts is at its spot,
/// the named slots that are free then may be emptied, and what the last round left there is what it copied.
pub(crate) fn expect_all<S: Store>(job: &Job, store: &mut S, found: u32) -> Result<(), StoreFailed>
    requires most { found ≤ length job.now.plan }
    requires none { flights (S.state store.old) ≡ [] }
    ensures asked { OnOk result (AreAsked S.asked job.now) }
    ensures compared { OnOk result (AreCompared S.compared job.now found) }
    ensures change { ChangesOnly NoCell (S.state store.old) (S.state store.new) }
    // Where the cells show no ground to refuse, none is refused of what the next round does.
    ensures seen { OnOk result (S.refuses → IsKept job.now (S.state store.old).reads found → IsSeen job.now (S.seen store.new) (S.state store.new).reads found) }
    ensures cause { HasGround S.refuses (¬ IsKept job.now (S.state store.old).reads found) (S.state store.old) (S.state store.new) result }
{
    job.keeps_rules();
    expect_shifted(job, store, found)?;
    expect_free(job, store, found)?;
    expect_copies(job, store, found)
}
