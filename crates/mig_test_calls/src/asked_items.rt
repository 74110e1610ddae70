//! The store over files asked for items, what it doesn't copy, and what it doesn't empty: over real files, and over files in memory.

use crate::file_stores::{real_store, store_over};
use crate::work_folder::{enter, is_absent, leave};
use mig_base::{Cell, Name};
use mig_calls::{Calls, MemCalls};
use mig_files::FileStore;
use mig_store::{Store, header};
use std::rt::Files;

/// Writes a slot that holds the item, with this byte in its second sector, and zeros besides.
fn put<C: Calls>(store: &mut FileStore<C>, disk: Name, slot: u32, item: &Name, byte: u8) -> bool {
    let mut bytes = [0; 4096];
    bytes[..34].copy_from_slice(&header(item));
    bytes[600] = byte;
    store.write(&Cell::Slot { disk, slot }, &bytes).is_ok()
}

/// Whether the store says that the slot holds the item.
fn holds<C: Calls>(store: &mut FileStore<C>, disk: Name, slot: u32, item: &Name) -> bool {
    store.expects(&Cell::Slot { disk, slot }, item).is_ok()
}

/// Whether the store copies a slot of a disk to another slot of it.
fn copies<C: Calls>(store: &mut FileStore<C>, disk: Name, slot: u32, to: u32) -> bool {
    let (from, to) = (Cell::Slot { disk, slot }, Cell::Slot { disk, slot: to });
    from != to && store.begin(&from, &to).is_ok()
}

/// Whether the store lets a slot be emptied, and empties it.
fn empties<C: Calls>(store: &mut FileStore<C>, disk: Name, slot: u32) -> bool {
    let cell = Cell::Slot { disk, slot };
    let free = store.expects_free(&cell).is_ok();
    free == store.write(&cell, &[0; 4096]).is_ok() && free
}

/// Whether the store says that what a slot holds of its item stands in the other one too.
fn agree<C: Calls>(store: &mut FileStore<C>, disk: Name, slot: u32, to: u32) -> bool {
    let (from, to) = (Cell::Slot { disk, slot }, Cell::Slot { disk, slot: to });
    store.expects_copy(&from, &to).is_ok()
}

/// Whether a store that is empty says this of items, before they are written and after.
fn tells_items<C: Calls>(store: &mut FileStore<C>, disk: Name, x: &Name, y: &Name) -> bool {
    !holds(store, disk, 0, x)
        && (put(store, disk, 0, x, 7) && put(store, disk, 1, y, 7))
        && (holds(store, disk, 0, x) && holds(store, disk, 1, y))
        && (!holds(store, disk, 0, y) && !holds(store, disk, 1, x))
        // no item, and past the end
        && (!holds(store, disk, 2, x) && !holds(store, disk, 9, x))
        && (!copies(store, disk, 2, 3) && !holds(store, disk, 3, x))
        // over another item, over none, and over itself
        && (!copies(store, disk, 0, 1) && holds(store, disk, 1, y))
        && (copies(store, disk, 0, 3) && holds(store, disk, 3, x) && copies(store, disk, 0, 3))
}

/// Whether this may be emptied where `x` was copied from slot 0 to slot 3, and `y` is in slot 1 alone.
fn is_emptied<C: Calls>(store: &mut FileStore<C>, disk: Name, x: &Name, y: &Name) -> bool {
    (!empties(store, disk, 1) && holds(store, disk, 1, y))
        // of two slots that hold it either may be emptied, and then the other one not
        && (empties(store, disk, 3) && !empties(store, disk, 0) && holds(store, disk, 0, x))
        // that it is seen where it was copied from doesn't hide where it was copied to
        && (copies(store, disk, 0, 3) && holds(store, disk, 0, x))
        && (empties(store, disk, 0) && !holds(store, disk, 0, x) && !empties(store, disk, 3))
        // no item, and past the end
        && (empties(store, disk, 2) && empties(store, disk, 9))
}

/// Whether these slots agree then.
fn tells_copies<C: Calls>(store: &mut FileStore<C>, disk: Name, x: &Name) -> bool {
    (put(store, disk, 3, x, 7) && put(store, disk, 0, x, 7))
        && (agree(store, disk, 0, 3) && agree(store, disk, 3, 0))
        // another sector, and one that is zeros
        && (put(store, disk, 0, x, 8) && !agree(store, disk, 0, 3))
        && (put(store, disk, 0, x, 0) && agree(store, disk, 0, 3) && !agree(store, disk, 3, 0))
        // another item, none, and past the end
        && (agree(store, disk, 0, 1) && agree(store, disk, 2, 0) && agree(store, disk, 0, 9))
}

/// Whether all of this is so of a store that is empty.
fn are_asked_for<C: Calls>(store: &mut FileStore<C>) -> bool {
    // the longest name fills the header
    let long = Name::read(b"abcdefghijklmnopqrstuvwxyz-12345");
    let (Some(disk), Some(x), Some(y)) = (Name::read(b"a"), Name::read(b"x"), long) else {
        return false;
    };
    let told = tells_items(store, disk, &x, &y);
    told && is_emptied(store, disk, &x, &y) && tells_copies(store, disk, &x)
}

/// Whether no file is made by a look.
fn makes_none<C: Calls>(rt: &impl Files, store: &mut FileStore<C>) -> bool {
    match Name::read(b"x") {
        Some(x) => !holds(store, x, 0, &x) && is_absent(rt, "x.disk"),
        None => false,
    }
}

/// Whether all of this is so of a store over real files.
fn are_asked_for_there<C: Calls>(rt: &impl Files, store: &mut FileStore<C>) -> bool {
    makes_none(rt, store) && are_asked_for(store)
}

#[test]
fn items_are_asked_for(rt: HostRuntime) {
    assert!(rt; enter(&rt, "asked") && are_asked_for_there(&rt, &mut real_store(&rt)));
    assert!(rt; leave(&rt, "asked"));
}

#[test]
fn items_are_asked_for_in_memory(rt: HostRuntime) {
    assert!(rt; are_asked_for(&mut store_over(&rt, MemCalls::new(rt.alloc()))));
}
