//! Erasures.
ghost use Rattle.std.specs.Prelude.{◌≡◌, ◌≤◌, [], All, IfSome, OnOk, IsTrue, length};
ghost use Rattle.mig_base.specs.Layouts.{round_at};
ghost use Rattle.mig_base.specs.Slots.{slot_of, zeros};
ghost use Rattle.mig_base.specs.Cells.{is_slot};
ghost use Rattle.mig_base.specs.Stores.{State, flights, ChangesOnly};
ghost use Rattle.mig_base.specs.RoundStates.{IsSourceSlot};
ghost use Rattle.mig_base.specs.Tasks.{Task};
ghost use Rattle.mig_mover.specs.Erasures.{AreAsked, HoldsZeros};
ghost use Rattle.mig_mover.specs.Holdings.{IsSeen};
ghost use Rattle.mig_store.specs.Grounds.{HasGround, IsLast, Remembers};

use mig_base::Cell;
use mig_jobs::Job;
use mig_store::{Store, StoreFailed};

// The bytes of an erased slot.
static ERASED: [u8; 4096] = [0; 4096];

// An erased slot.
fn zero_slot() -> &'static [u8; 4096]
    ensures { result.now ≡ zeros }
{
    &ERASED
}

/// Erases a slot, which was asked for.
pub fn erase<S: Store>(store: &mut S, slot: &Cell) -> Result<(), StoreFailed>
    requires slot { IsTrue (is_slot slot.now) }
    requires asked { S.asked slot.now }
    requires none { flights (S.state store.old) ≡ [] }
    ensures erased { OnOk result (HoldsZeros ((S.state store.new).reads slot.now)) }
    ensures change { ChangesOnly (λ c. c ≡ slot.now) (S.state store.old) (S.state store.new) }
    ensures seen { Remembers (λ c. c ≡ slot.now) (S.seen store.old) (S.seen store.new) }
    ensures cause { HasGround S.refuses (IsLast (S.state store.old).reads (S.seen store.old) slot.now) (S.state store.old) (S.state store.new) result }
{
    store.write(slot, zero_slot())
}

/// Writes zeros where a round's shifts leave. Rounds count from 1.
pub fn erase_sources<S: Store>(job: &Job, store: &mut S, round: u32) -> Result<(), StoreFailed>
    requires from { 1 ≤ round }
    requires to { round ≤ length job.now.plan }
    requires asked { AreAsked S.asked job.now }
    requires none { flights (S.state store.old) ≡ [] }
    ensures erased { OnOk result (All (λ s. HoldsZeros ((S.state store.new).reads (slot_of job.now.input s.from))) (round_at job.now.plan round)) }
    ensures change { ChangesOnly (IsSourceSlot job.now.input job.now.plan round) (S.state store.old) (S.state store.new) }
    ensures seen { OnOk result (IsSeen job.now (S.seen store.old) (S.state store.old).reads round → IsSeen job.now (S.seen store.new) (S.state store.new).reads round) }
    ensures cause { HasGround S.refuses (¬ IsSeen job.now (S.seen store.old) (S.state store.old).reads round) (S.state store.old) (S.state store.new) result }
{
    for place in 0..job.round_len(round) {
        let (from, _) = job.copy(round, place);
        erase(store, &from)?;
    }
    Ok(())
}
