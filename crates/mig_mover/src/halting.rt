//! How a migration is closed early.
ghost use Rattle.std.specs.Prelude.{◌≡◌, ◌<◌, ◌≤◌, [], ◌∷◌, OnOk, IfErr, IfSome, length};
ghost use Rattle.mig_base.specs.declared.cells.Cell.TheVariants.{Gate};
ghost use Rattle.mig_base.specs.JobCells.{IsFreeSlot};
ghost use Rattle.mig_base.specs.Slots.{slot_of};
ghost use Rattle.mig_base.specs.Stores.{State, flights, ChangesOnly, IsSettled};
ghost use Rattle.mig_mover.specs.Erasures.{AreAsked, AreCompared, HoldsZeros};
ghost use Rattle.mig_mover.specs.Halts.{AreErased, IsClosingCell, KeepsHaltSafe, EndsHalted};
ghost use Rattle.mig_mover.specs.Holdings.{IsSeen};
ghost use Rattle.mig_mover.specs.Stands.{IsAt};
ghost use Rattle.mig_store.specs.Grounds.{FailedOr, HasGround, IsLast, Remembers};
ghost use Rattle.mig_base.specs.Tasks.{Task, IsTask};
ghost use Rattle.mig_jobs.specs.Vacancies.{IsVacant};

use crate::erasing::erase;
use crate::faults::MoveFault;
use mig_jobs::{Job, Vacancy, spot_cell};
use mig_journal::disarm;
use mig_store::{Store, StoreFailed};

// Erases the slot of a vacancy, if it lasts after this number of rounds.
fn erase_vacant<S: Store>(
    job: &Job,
    store: &mut S,
    v: &Vacancy,
    found: u32,
) -> Result<(), StoreFailed>
    requires disk { v.now.spot.disk.0 < length job.now.input.disks }
    requires asked { IsVacant v.now found → S.asked (slot_of job.now.input v.now.spot) }
    requires none { flights (S.state store.old) ≡ [] }
    ensures erased { OnOk result (IsVacant v.now found → HoldsZeros ((S.state store.new).reads (slot_of job.now.input v.now.spot))) }
    ensures change { ChangesOnly (λ c. IsVacant v.now found × (c ≡ slot_of job.now.input v.now.spot)) (S.state store.old) (S.state store.new) }
    ensures seen { Remembers (λ c. IsVacant v.now found × (c ≡ slot_of job.now.input v.now.spot)) (S.seen store.old) (S.seen store.new) }
    ensures cause { HasGround S.refuses (IsVacant v.now found × IsLast (S.state store.old).reads (S.seen store.old) (slot_of job.now.input v.now.spot)) (S.state store.old) (S.state store.new) result }
{
    if v.from <= found && found < v.until {
        return erase(store, &spot_cell(job.input(), v.spot));
    }
    Ok(())
}

// Erases the named slots that are free after this number of rounds, and syncs.
fn erase_free<S: Store>(job: &Job, store: &mut S, found: u32) -> Result<(), StoreFailed>
    requires most { found ≤ length job.now.plan }
    requires asked { AreAsked S.asked job.now }
    requires none { flights (S.state store.old) ≡ [] }
    ensures erased { OnOk result (AreErased job.now found (S.state store.new).reads) }
    ensures settled { OnOk result (IsSettled (S.state store.new)) }
    ensures landed { OnOk result (flights (S.state store.new) ≡ []) }
    ensures change { ChangesOnly (IsFreeSlot job.now.input job.now.plan found) (S.state store.old) (S.state store.new) }
    ensures cause { HasGround S.refuses (¬ IsSeen job.now (S.seen store.old) (S.state store.old).reads found) (S.state store.old) (S.state store.new) result }
    ensures valid { IsTask job.now }
{
    for v in job.vacancies() {
        erase_vacant(job, store, v, found)?;
    }
    store.sync()
}

/// Closes a migration that stands after `found` rounds, as `stand` said: writes zeros to each slot that an item has
/// now or that the plan names and that is free after these rounds, syncs, and closes the journal.
///
/// Only the store's fault comes.
pub fn halt<S: Store>(job: &Job, store: &mut S, found: u32) -> Result<(), MoveFault>
    requires most { found ≤ length job.now.plan }
    requires settled { IsSettled (S.state store.old) }
    requires asked { AreAsked S.asked job.now }
    requires none { flights (S.state store.old) ≡ [] }
    requires at { IsAt job.now (S.state store.old).reads found }
    // What the last marked round left is erased: it was compared with its copies.
    requires compared { AreCompared S.compared job.now found }
    // At each moment the migration may go on after these rounds, or is halted there.
    ensures any_moment { KeepsHaltSafe job.now found (S.state store.old) (S.state store.new) }
    ensures halted { OnOk result (EndsHalted job.now found (S.state store.old) (S.state store.new)) }
    ensures erased { OnOk result (AreErased job.now found (S.state store.new).reads) }
    ensures closed { OnOk result (IfSome ((S.state store.new).reads Gate) (λ bytes. bytes ≡ 0 ∷ [])) }
    ensures settled { OnOk result (IsSettled (S.state store.new)) }
    ensures change { ChangesOnly (IsClosingCell job.now found) (S.state store.old) (S.state store.new) }
    ensures fault { IfErr result (λ fault. (fault ≡ MoveFault.Store) × FailedOr (S.refuses × ¬ IsSeen job.now (S.seen store.old) (S.state store.old).reads found) (S.state store.old) (S.state store.new)) }
    ensures later { (S.state store.old).faults ≤ (S.state store.new).faults }
{
    erase_free(job, store, found)?;
    disarm(store)?;
    Ok(())
}
