//! Stores that are filled, and what they hold.
ghost use Rattle.std.specs.Prelude.{◌≡◌, []};
ghost use Rattle.mig_store.specs.Memories.{aloft};

use crate::cases::{Case, Place};
use indexmap::IndexSet;
use mig_base::{Cell, Name};
use mig_jobs::Job;
use mig_store::{MemStore, Store};
use std::panic::Expect;
use std::process::Abort;

/// A slot of the disk that the letter names.
pub fn slot_of(disk: u8, slot: u32) -> Cell {
    match Name::read(&[disk]) {
        Some(disk) => Cell::Slot { disk, slot },
        None => Cell::Head,
    }
}

/// The slot of the item that the letter names, or an erased slot for 0.
pub fn made(item: u8) -> [u8; 4096] {
    if item == 0 {
        return [0; 4096];
    }
    let mut slot = [item; 4096];
    slot[..2].copy_from_slice(&[1; 2]);
    slot[3..34].copy_from_slice(&[0; 31]);
    slot
}

/// The head, the gate, the first three marks, and the first three slots of the disks a, b and c.
fn few_cells(rt: &(impl Abort + AllocGlobal)) -> IndexSet<Cell> {
    let mut cells = IndexSet::new(rt.alloc());
    cells.insert(Cell::Head).expect(rt, "ample memory");
    cells.insert(Cell::Gate).expect(rt, "ample memory");
    for n in 0..3 {
        cells
            .insert(Cell::Mark { n: n + 1 })
            .expect(rt, "ample memory");
        for disk in [b'a', b'b', b'c'] {
            cells.insert(slot_of(disk, n)).expect(rt, "ample memory");
        }
    }
    cells
}

// Writes the items of these places.
fn fill(rt: &(impl Abort + AllocGlobal), store: &mut MemStore, places: &[Place])
    requires { aloft store.old ≡ [] }
    ensures { aloft store.new ≡ [] }
{
    for (disk, slot, item) in places {
        let cell = slot_of(*disk, *slot);
        assert!(rt; store.write(&cell, &made(*item)[..cell.len()]).is_ok());
    }
}

#[tactic(auto, using(mig_keys::proofs::KeyLists::different_cells))]
/// A store of these cells, whose items are filled and synced. Its calls with these numbers fail.
pub fn filled(rt: &(impl Abort + AllocGlobal), places: &[Place], failing: &[u64]) -> MemStore {
    let failing = Vec::from_slice(rt.alloc(), failing).expect(rt, "ample memory");
    let store = MemStore::new(rt.alloc(), few_cells(rt).as_slice(), 200, failing);
    let mut store = store.expect(rt, "ample memory");
    fill(rt, &mut store, places);
    assert!(rt; store.sync().is_ok());
    store
}

/// The item that is in a slot, or 0.
pub fn item_at(places: &[Place], disk: u8, slot: u32) -> u8 {
    for place in places {
        if place.0 == disk && place.1 == slot {
            return place.2;
        }
    }
    0
}

/// Whether the slots hold the items of these places, and else zeros.
pub fn holds(store: &MemStore, places: &[Place]) -> bool {
    for disk in [b'a', b'b', b'c'] {
        for slot in 0..3 {
            let wanted = made(item_at(places, disk, slot));
            if store.cell(&slot_of(disk, slot)) != Some(wanted.as_slice()) {
                return false;
            }
        }
    }
    true
}

/// Whether the target of a case is reached: the journal says that the job is carried out, and the slots are as after it.
pub fn is_reached(store: &MemStore, job: &Job, case: &Case<'_>) -> bool {
    for n in 0..job.rounds() {
        if store.cell(&Cell::Mark { n: n + 1 }) != Some([1].as_slice()) {
            return false;
        }
    }
    store.cell(&Cell::Gate) == Some([1].as_slice())
        && store.cell(&Cell::Head) == Some(job.digest().as_slice())
        && holds(store, case.after)
}
