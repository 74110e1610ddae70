//! Filling an empty store with made items.
ghost use Rattle.std.specs.Prelude.{◌≡◌, ◌⊎◌, ◌<◌, ◌≤◌, [], All, false, IfErr, IfNone, IfOk, IfSome, List, OnOk, length};
ghost use Rattle.mig_base.specs.declared.cells.Event.{Event};
ghost use Rattle.mig_base.specs.Flights.{IsTargetOf};
ghost use Rattle.mig_base.specs.Images.{NoCell};
ghost use Rattle.mig_base.specs.JobCells.{Tells};
ghost use Rattle.mig_base.specs.Journals.{is_armed};
ghost use Rattle.mig_base.specs.RoundEvents.{BeginsRun};
ghost use Rattle.mig_base.specs.Slots.{item_cell, made_slot, slot_of, IsListedCell, IsUnused};
ghost use Rattle.mig_base.specs.Stores.{State, flights, Changes, ChangesOnly, HasCause, IsSettled};
ghost use Rattle.mig_base.specs.Texts.{item_name};
ghost use Rattle.mig_store.specs.Grounds.{HasGround};
ghost use Rattle.mig_mover.specs.Fillings.{HasMade, IsFillable, IsFillFault, IsFillFaultOn, IsFirstTaken, IsSoundForAll, WasFillable};

use crate::entries::settle_and_look;
use crate::faults::MoveFault;
use crate::making::made;
use mig_base::{Input, Spot};
use mig_jobs::{is_used, spot_cell};
use mig_journal::Seen;
use mig_store::{Store, StoreFailed};

// The first spot where an item is listed and the slot is used; where there is none, the store was asked whether each may be written over.
#[tactic(auto, using(crate::proofs::Looked::two_calls, crate::proofs::Looked::failed_calls, crate::proofs::FillSteps::listed_spots))]
fn find_taken<S: Store>(input: &Input, store: &mut S) -> Result<Option<Spot>, StoreFailed>
    requires none { flights (S.state store.old) ≡ [] }
    ensures taken { IfOk result (λ found. IfSome found (IsFirstTaken input.now (S.state store.old).reads)) }
    ensures unused { IfOk result (λ found. IfNone found (All (IsUnused input.now (S.state store.old).reads) input.now.spots)) }
    ensures asked { IfOk result (λ found. IfNone found (All (λ spot. S.asked (slot_of input.now spot)) input.now.spots)) }
    ensures change { ChangesOnly NoCell (S.state store.old) (S.state store.new) }
    ensures cause { HasGround S.refuses (¬ Tells (IsListedCell input.now) (S.state store.old).reads) (S.state store.old) (S.state store.new) result }
{
    input.keeps_rules();
    let mut slot = [0; 4096];
    for spot in input.now() {
        if is_used(input, store, *spot, &mut slot)? {
            return Ok(Some(*spot));
        }
        store.expects_free(&spot_cell(input, *spot))?;
    }
    Ok(None)
}

/// Writes the slot that is made for an item to where the item is listed, which was asked for.
pub fn put_item<S: Store>(input: &Input, store: &mut S, item: usize) -> Result<(), StoreFailed>
    requires item { item < length input.now.items }
    requires asked { S.asked (item_cell input.now item) }
    requires none { flights (S.state store.old) ≡ [] }
    ensures made { OnOk result (IfSome ((S.state store.new).reads (item_cell input.now item)) (λ slot. slot ≡ made_slot (item_name input.now item))) }
    ensures change { ChangesOnly (λ cell. cell ≡ item_cell input.now item) (S.state store.old) (S.state store.new) }
    ensures cause { HasCause (S.state store.old) (S.state store.new) result }
{
    input.keeps_rules();
    store.write(
        &spot_cell(input, input.now()[item]),
        &made(&input.items()[item]),
    )
}

// Writes the slots that are made for the items to where the items are listed.
fn put_items<S: Store>(input: &Input, store: &mut S) -> Result<(), StoreFailed>
    requires asked { All (λ spot. S.asked (slot_of input.now spot)) input.now.spots }
    requires none { flights (S.state store.old) ≡ [] }
    ensures made { OnOk result (HasMade input.now (S.state store.new).reads) }
    ensures change { ChangesOnly (IsListedCell input.now) (S.state store.old) (S.state store.new) }
    ensures cause { HasCause (S.state store.old) (S.state store.new) result }
{
    input.keeps_rules();
    for item in 0..input.items().len() {
        put_item(input, store, item)?;
    }
    Ok(())
}

// Fills a store whose gate isn't 1 and with no copy in flight.
fn fill_idle<S: Store>(input: &Input, store: &mut S) -> Result<(), MoveFault>
    requires none { flights (S.state store.old) ≡ [] }
    requires idle { is_armed (S.state store.old).reads ≡ false }
    ensures fillable { OnOk result (IsFillable input.now (S.state store.old).reads) }
    ensures made { OnOk result (HasMade input.now (S.state store.new).reads) }
    ensures settled { OnOk result (IsSettled (S.state store.new)) }
    ensures landed { OnOk result (flights (S.state store.new) ≡ []) }
    ensures idle { OnOk result (is_armed (S.state store.new).reads ≡ false) }
    ensures sound { OnOk result (IsSoundForAll input.now (S.state store.new).reads) }
    ensures fault { IfErr result (IsFillFaultOn (S.refuses × ¬ Tells (IsListedCell input.now) (S.state store.old).reads) input.now (S.state store.old) (S.state store.new)) }
    ensures change { ChangesOnly (IsListedCell input.now) (S.state store.old) (S.state store.new) }
    ensures later { (S.state store.old).faults ≤ (S.state store.new).faults }
{
    input.keeps_rules();
    if let Some(spot) = find_taken(input, store)? {
        return Err(MoveFault::Occupied {
            disk: spot.disk,
            slot: spot.slot,
        });
    }
    put_items(input, store)?;
    Ok(store.sync()?)
}

/// Writes a made slot for each item to where the item is listed, on a store where no plan is carried out and these slots
/// are unused. Any plan may then be started: the slots are settled, and each item is at its spot.
///
/// # Errors
///
/// `Started` comes exactly where the gate is 1, and `Occupied` then names the first spot, in item order, whose slot is
/// used; after these nothing was written. `Store` is a fault of the store, after which listed spots may hold anything.
pub fn fill<S: Store>(input: &Input, store: &mut S) -> Result<(), MoveFault>
    ensures made { OnOk result (HasMade input.now (S.state store.new).reads) }
    ensures settled { OnOk result (IsSettled (S.state store.new)) }
    ensures landed { OnOk result (flights (S.state store.new) ≡ []) }
    ensures idle { OnOk result (is_armed (S.state store.new).reads ≡ false) }
    ensures sound { OnOk result (IsSoundForAll input.now (S.state store.new).reads) }
    ensures fillable { OnOk result (WasFillable input.now (S.state store.old)) }
    ensures fault { IfErr result (IsFillFault (S.refuses × ¬ Tells (IsListedCell input.now) (S.state store.old).reads) input.now (S.state store.old) (S.state store.new)) }
    ensures change { (added : List Event) × BeginsRun (flights (S.state store.old)) [] added
        × Changes (λ cell. IsTargetOf (flights (S.state store.old)) cell ⊎ IsListedCell input.now cell) (IsListedCell input.now) added (S.state store.old) (S.state store.new) }
    ensures later { (S.state store.old).faults ≤ (S.state store.new).faults }
{
    match settle_and_look(store)? {
        Seen::Running { .. } => Err(MoveFault::Started),
        Seen::Idle => fill_idle(input, store),
    }
}
