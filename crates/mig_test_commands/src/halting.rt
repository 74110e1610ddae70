//! Migrations that are closed early.

use crate::clusters::{BY_THIRD_DISK, FILL_TWO, FULL_DISKS, STORE_FAULT, three_items};
use crate::lines::{expect, folder_of};
use crate::stores::store_of;
use mig_store::Pick;

/// After so many writes of a move by a third disk, what closing it puts, and where the items are then.
static HALTS: [(u64, &str, &str); 3] = [
    (5, "halted after 0 of 3\n", "item,disk,slot\nx,a,0\ny,b,0\n"),
    (7, "halted after 1 of 3\n", "item,disk,slot\nx,c,0\ny,b,0\n"),
    (
        10,
        "halted after 2 of 3\n",
        "item,disk,slot\nx,c,0\ny,a,0\n",
    ),
];

#[test]
fn a_stopped_move_is_closed(rt: HostRuntime) {
    for (writes, text, layout) in &HALTS {
        for pick in [Pick::Old, Pick::New] {
            let mut folder = folder_of(&rt, &FULL_DISKS, &[("P", BY_THIRD_DISK)], &[]);
            let mut store = store_of(&rt, &[]);
            expect(&rt, &mut folder, &mut store, &FILL_TWO);
            store.fuse(*writes);
            expect(
                &rt,
                &mut folder,
                &mut store,
                &("move-tight D N X P", 5, STORE_FAULT),
            );
            let mut left = store.crash(pick);
            expect(
                &rt,
                &mut folder,
                &mut left,
                &("halt-tight D N X P H", 0, text),
            );
            assert!(rt; folder.file("H") == Some(layout.as_bytes()));
        }
    }
}

// The store's first sync fails, before anything is saved.
#[test]
fn a_halt_whose_first_sync_fails_saves_nothing(rt: HostRuntime) {
    let mut folder = three_items(&rt);
    let mut store = store_of(&rt, &[0]);
    expect(
        &rt,
        &mut folder,
        &mut store,
        &("halt D N X P H", 5, STORE_FAULT),
    );
    assert!(rt; folder.file("H").is_none());
}
