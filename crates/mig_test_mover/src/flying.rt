//! The events of starts and resumes.

use crate::cases::{THREE_ITEMS, job_of};
use crate::stores::{filled, is_reached, slot_of};
use mig_base::Event;
use mig_lanes::{resume_lanes, start_lanes};
use mig_mover::MoveFault;
use mig_store::{EndOrder, MemStore};
use std::process::Abort;

// An event of the copy of a slot of the first disk to the same slot of the second: whether it began, and the slot.
type Told = (bool, u32);

fn event_of(told: &Told) -> Event {
    let from = slot_of(b'a', told.1);
    let to = slot_of(b'b', told.1);
    if told.0 {
        Event::Began { from, to }
    } else {
        Event::Ended { from, to }
    }
}

// Whether these are all events of a store.
fn tells(store: &MemStore, told: &[Told]) -> bool {
    store.events().iter().copied().eq(told.iter().map(event_of))
}

// The store of the three items, where the newest copy ends first. Its calls with these numbers fail.
fn newest_first(rt: &(impl Abort + AllocGlobal), failing: &[u64]) -> MemStore {
    let mut store = filled(rt, THREE_ITEMS.before, failing);
    store.order(EndOrder::Last);
    store
}

// The events of both rounds: the copies of a round are in flight together.
static BOTH_ROUNDS: [Told; 6] = [
    (true, 0),
    (true, 1),
    (false, 1),
    (false, 0),
    (true, 2),
    (false, 2),
];

#[test]
fn the_copies_of_a_round_are_in_flight_together(rt: HostRuntime) {
    let job = job_of(&rt, &THREE_ITEMS);
    let mut store = newest_first(&rt, &[]);
    let syncs = store.syncs();
    assert!(rt; start_lanes(&job, &mut store) == Ok(()));
    assert!(rt; tells(&store, &BOTH_ROUNDS));
    assert!(rt; store.syncs() >= syncs && store.syncs() - syncs == 8);
    assert!(rt; is_reached(&store, &job, &THREE_ITEMS));
}

// The number of the call that begins the second copy. Three slots are filled and synced. The start syncs, reads the gate, three
// items and three targets, writes two marks and the head, syncs, writes the gate, syncs, and begins the first copy.
const SECOND_BEGIN: u64 = 19;

#[test]
fn a_copy_that_cannot_begin_is_made_up_for(rt: HostRuntime) {
    let job = job_of(&rt, &THREE_ITEMS);
    let mut store = newest_first(&rt, &[SECOND_BEGIN]);
    assert!(rt; start_lanes(&job, &mut store) == Err(MoveFault::Store));
    assert!(rt; tells(&store, &[(true, 0)]));
    assert!(rt; resume_lanes(&job, &mut store) == Ok(0));
    let [first, last] = [(true, 0), (false, 0)];
    let [a, b, c, d, e, f] = BOTH_ROUNDS;
    assert!(rt; tells(&store, &[first, last, a, b, c, d, e, f]));
    assert!(rt; is_reached(&store, &job, &THREE_ITEMS));
}

// The number of the call that syncs the first round, after both of its copies were waited for.
const ROUND_SYNC: u64 = 22;

// Had fewer copies been waited for, this would be a later call, and the round synced before it.
#[test]
fn each_copy_of_a_round_is_waited_for(rt: HostRuntime) {
    let job = job_of(&rt, &THREE_ITEMS);
    let mut store = newest_first(&rt, &[ROUND_SYNC]);
    let syncs = store.syncs();
    assert!(rt; start_lanes(&job, &mut store) == Err(MoveFault::Store));
    assert!(rt; tells(&store, &[(true, 0), (true, 1), (false, 1), (false, 0)]));
    // It synced at its beginning, and twice where it armed the journal.
    assert!(rt; store.syncs() >= syncs && store.syncs() - syncs == 3);
}
