//! Migrations that are closed early.

use crate::cases::{LEFT_TWICE, Place, job_of};
use crate::stores::{filled, holds};
use mig_jobs::Job;
use mig_lanes::start_lanes;
use mig_mover::{MoveFault, halt, stand};
use mig_store::{MemStore, Pick};

// Where the items are in the case in which a slot is left twice, after each number of rounds.
static LEFT_TWICE_AFTER: [[Place; 2]; 4] = [
    [(b'a', 0, b'x'), (b'c', 0, b'y')],
    [(b'b', 0, b'x'), (b'c', 0, b'y')],
    [(b'b', 0, b'x'), (b'a', 0, b'y')],
    [(b'b', 0, b'x'), (b'c', 0, b'y')],
];

// Closes a migration where it stands, and tells after how many rounds.
fn close(job: &Job, store: &mut MemStore) -> Result<u32, MoveFault> {
    let found = stand(job, store)?;
    halt(job, store, found)?;
    Ok(found)
}

// Three marks are zeroed, the head and the gate are written; then each round has a copy, its mark and an erasure. The write that
// stops a start leaves its bytes: for each number of writes from 3 on, after how many rounds the case is halted then.
static FOUND: [Result<u32, MoveFault>; 12] = [
    Err(MoveFault::NotStarted),
    Ok(0),
    Ok(0),
    Ok(1),
    Ok(1),
    Ok(1),
    Ok(2),
    Ok(2),
    Ok(2),
    Ok(3),
    Ok(3),
    Ok(3),
];

#[test]
fn a_slot_that_is_left_twice_is_erased_where_it_is_free(rt: HostRuntime) {
    let job = job_of(&rt, &LEFT_TWICE);
    for (number, found) in FOUND.iter().enumerate() {
        let mut store = filled(&rt, LEFT_TWICE.before, &[]);
        store.fuse(number as u64 + 3);
        let _stopped = start_lanes(&job, &mut store);
        let mut left = store.crash(Pick::New);
        assert!(rt; close(&job, &mut left) == *found);
        let after = LEFT_TWICE_AFTER.get(found.unwrap_or(0) as usize);
        assert!(rt; after.is_some_and(|after| holds(&left, after)));
    }
}
