//! Stops of plans.

use crate::cases::{ONE_MOVE, PICKS, THREE_ITEMS, job_of, marked};
use crate::stores::{filled, is_reached};
use mig_drill::{Stop, stop_at};
use mig_lanes::start_lanes;
use mig_store::Pick;
use std::process::Abort;

#[test]
fn stops_are_counted_and_resumed(rt: HostRuntime) {
    for case in [&ONE_MOVE, &THREE_ITEMS] {
        let job = job_of(&rt, case);
        for writes in 0..case.writes {
            for pick in PICKS {
                let (stop, left) = stop_at(&job, filled(&rt, case.before, &[]), writes, pick);
                let marks = marked(case, writes, pick);
                assert!(rt;
                    stop == Stop {
                        marks,
                        reached: true
                    } && is_reached(&left, &job, case)
                );
            }
        }
    }
}

#[test]
fn a_stop_looks_at_the_store(rt: HostRuntime) {
    let job = job_of(&rt, &ONE_MOVE);
    let (stop, _) = stop_at(&job, filled(&rt, &[], &[]), 0, Pick::Old);
    assert!(rt;
        stop == Stop {
            marks: 0,
            reached: false
        }
    );
    let mut done = filled(&rt, ONE_MOVE.before, &[]);
    assert!(rt; start_lanes(&job, &mut done) == Ok(()));
    let (stop, _) = stop_at(&job, done, 0, Pick::Old);
    assert!(rt;
        stop == Stop {
            marks: 1,
            reached: true
        }
    );
}
