//! What no promise of the planner says: plans whose rounds are as few as can be. A planner that has lost its search makes more.

use mig_best::best_plan;
use mig_csv::read_input;
use mig_plan::make_plan;
use std::panic::Expect;

/// Each disk needs three rounds. Dealt as the transfers go, the ends of copies leave a fourth one over.
#[test]
fn ends_are_dealt_again(rt: HostRuntime) {
    let disks = b"disk,limit,slots\nd0,1,8\nd1,2,8\nd2,1,8\nd3,2,8\n";
    let now =
        b"item,disk,slot\ni0,d3,0\ni1,d0,0\ni2,d3,1\ni3,d2,0\ni4,d1,0\ni5,d1,1\ni6,d1,2\ni7,d3,2\ni8,d1,3\n";
    let next = b"item,disk\ni0,d0\ni1,d3\ni2,d2\ni3,d1\ni4,d2\ni5,d0\ni6,d3\ni7,d1\ni8,d3\n";
    let input = read_input(rt.alloc(), disks, now, next).expect(&rt, "an input");
    let made = make_plan(rt.alloc(), &input).expect(&rt, "ample memory");
    let best = best_plan(rt.alloc(), &input).expect(&rt, "ample memory");
    assert!(rt; made.rounds().len() == 3 && best.rounds().len() == 3);
}
