//! Commands over a store on which copies are in flight when they begin.
ghost use Rattle.std.specs.Prelude.{◌≡◌, ◌≢◌, []};
ghost use Rattle.mig_store.specs.Memories.{aloft};

use crate::clusters::{ANOTHER, AT_TARGET, FILL, HERE, STARTED, STORE_FAULT, three_items};
use crate::lines::{Line, expect, expect_all};
use crate::stores::{slot_of, store_of};
use mig_base::{Cell, Name};
use mig_store::{MemStore, Store};
use std::panic::Expect;
use std::process::Abort;

// A move that stopped

/// The number of the call of a move that begins its second copy, after which there is one event. A filling syncs, reads the gate
/// and three slots, writes these and syncs. The move syncs, reads the gate, three items and three targets, writes two marks and the
/// head, syncs, writes the gate, syncs, and begins the first copy.
const SECOND_BEGIN: (u64, usize) = (24, 1);

/// The number of the call that waits for the copy of the second round, after five events. Before it the second copy of the first
/// round began, both ended, a sync, the mark, a sync, two sources erased, and a copy begun.
const LAST_END: (u64, usize) = (33, 5);

/// Where a move stopped, and lines over such a store, each on one of its own: the first copy of the plan is in flight, the gate is 1
/// and no mark is; or the first round is marked, and the copy of the second is in flight.
static AFTER_A_STOP: [((u64, usize), Line<'static>); 14] = [
    (SECOND_BEGIN, ("fill D N", 8, STARTED)),
    (SECOND_BEGIN, ("audit D N", 0, HERE)),
    (SECOND_BEGIN, ("move D N X P", 8, STARTED)),
    (SECOND_BEGIN, ("move D N X R", 8, ANOTHER)),
    (SECOND_BEGIN, ("resume D N X R", 8, ANOTHER)),
    (
        SECOND_BEGIN,
        ("resume D N X P", 0, "done 2 rounds, found 0\n"),
    ),
    (SECOND_BEGIN, ("halt D N X R H", 8, ANOTHER)),
    (SECOND_BEGIN, ("halt D N X P H", 0, "halted after 0 of 2\n")),
    (LAST_END, ("fill D N", 8, STARTED)),
    (LAST_END, ("move D N X P", 8, STARTED)),
    (LAST_END, ("move D N X R", 8, ANOTHER)),
    (LAST_END, ("resume D N X R", 8, ANOTHER)),
    (LAST_END, ("resume D N X P", 0, "done 2 rounds, found 1\n")),
    (LAST_END, ("halt D N X P H", 0, "halted after 1 of 2\n")),
];

#[test]
fn a_journal_is_looked_at_though_a_copy_is_in_flight(rt: HostRuntime) {
    for ((call, events), line) in &AFTER_A_STOP {
        let mut folder = three_items(&rt);
        let mut store = store_of(&rt, &[*call]);
        expect_all(
            &rt,
            &mut folder,
            &mut store,
            &[FILL, ("move D N X P", 5, STORE_FAULT)],
        );
        assert!(rt; store.events().len() == *events);
        expect(&rt, &mut folder, &mut store, line);
        if line.2.starts_with("done") {
            expect_all(&rt, &mut folder, &mut store, AT_TARGET);
        }
    }
}

// A store without a plan

/// The slot of the item that the letter names.
fn made(item: u8) -> [u8; 4096] {
    let mut slot = [item; 4096];
    slot[..2].copy_from_slice(&[1; 2]);
    slot[3..34].copy_from_slice(&[0; 31]);
    slot
}

/// Writes these items to slots of the first disk.
fn put(rt: &(impl Abort + AllocGlobal), store: &mut MemStore, items: &[(u32, u8)])
    requires { aloft store.old ≡ [] }
    ensures { aloft store.new ≡ [] }
{
    for (slot, item) in items {
        let cell = slot_of(b'a', *slot);
        assert!(rt; store.write(&cell, &made(*item)[..cell.len()]).is_ok());
    }
}

/// Begins a copy from one slot of the first disk to another.
fn begin(rt: &(impl Abort + AllocGlobal), store: &mut MemStore, from: u32, to: u32)
    requires apart { from ≢ to }
    requires none { aloft store.old ≡ [] }
{
    let disk = Name::read(b"a").expect(rt, "a name");
    let [from, to] = [
        Cell::Slot { disk, slot: from },
        Cell::Slot { disk, slot: to },
    ];
    store.begin(&from, &to).expect(rt, "a copy that begins");
}

/// The three items where they are listed; with the first of them in a slot that isn't listed; and without it.
const LISTED: &[(u32, u8)] = &[(0, b'x'), (1, b'y'), (2, b'z')];

const ELSEWHERE: &[(u32, u8)] = &[(3, b'x'), (1, b'y'), (2, b'z')];

const TWO: &[(u32, u8)] = &[(1, b'y'), (2, b'z')];

/// The items on the first disk, whether a copy is in flight there from slot 0 to 3 or from slot 3 to 0, and lines, each on a store of
/// its own: an item is copied away from where it is listed, or to there, or zeros are.
static IN_FLIGHT: [(&[(u32, u8)], bool, Line<'static>); 12] = [
    (LISTED, true, ("fill D N", 9, "occupied a 0\n")),
    (LISTED, true, ("audit D N", 0, HERE)),
    (
        LISTED,
        true,
        ("move D N X P", 0, "done 2 rounds, found 0\n"),
    ),
    (
        LISTED,
        true,
        ("resume D N X P", 0, "done 2 rounds, found 0\n"),
    ),
    (LISTED, true, ("halt D N X P H", 8, "journal not started\n")),
    (ELSEWHERE, false, ("fill D N", 9, "occupied a 0\n")),
    (
        ELSEWHERE,
        false,
        ("move D N X P", 0, "done 2 rounds, found 0\n"),
    ),
    (
        ELSEWHERE,
        false,
        ("resume D N X P", 0, "done 2 rounds, found 0\n"),
    ),
    (TWO, false, ("fill D N", 9, "occupied a 1\n")),
    (TWO, false, ("move D N X P", 9, "not there x\n")),
    (TWO, false, ("resume D N X P", 9, "not there x\n")),
    (&[], false, FILL),
];

#[test]
fn slots_are_looked_at_though_a_copy_is_in_flight(rt: HostRuntime) {
    for (items, away, line) in &IN_FLIGHT {
        let mut folder = three_items(&rt);
        let mut store = store_of(&rt, &[]);
        put(&rt, &mut store, items);
        if *away {
            begin(&rt, &mut store, 0, 3);
        } else {
            begin(&rt, &mut store, 3, 0);
        }
        expect(&rt, &mut folder, &mut store, line);
        if line.2.starts_with("filled") {
            expect(&rt, &mut folder, &mut store, &("audit D N", 0, HERE));
        }
    }
}
