//! Starts that are stopped at each write and resumed after a crash.

use crate::cases::{Case, LEFT_TWICE, ONE_MOVE, PICKS, job_of, marked};
use crate::stores::{filled, is_reached};
use mig_lanes::{resume_lanes, start_lanes};
use mig_mover::MoveFault;
use mig_store::EndOrder;
use std::process::Abort;

// Asserts that a start of a case is resumed wherever it stops, after each crash, with no more syncs than a start may need.
fn expect_resumed(rt: &(impl Abort + AllocGlobal), case: &Case<'_>, order: EndOrder) {
    let job = job_of(rt, case);
    assert!(rt; job.writes() == case.writes);
    for writes in 0..case.writes {
        for pick in PICKS {
            let mut store = filled(rt, case.before, &[]);
            store.order(order);
            store.fuse(u64::from(writes));
            assert!(rt; start_lanes(&job, &mut store) == Err(MoveFault::Store));
            let mut left = store.crash(pick);
            assert!(rt; resume_lanes(&job, &mut left) == Ok(marked(case, writes, pick)));
            assert!(rt; left.syncs() <= 2 * job.rounds() + 4 && is_reached(&left, &job, case));
        }
    }
}

// In the second case a slot is left twice, which is no harm.
#[test]
fn a_move_is_resumed_wherever_it_stops(rt: HostRuntime) {
    for case in [&ONE_MOVE, &LEFT_TWICE] {
        for order in [EndOrder::First, EndOrder::Last, EndOrder::Turns] {
            expect_resumed(&rt, case, order);
        }
    }
}
