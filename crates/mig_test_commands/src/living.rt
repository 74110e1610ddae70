//! Sessions of `live` that are cut off by a store or a sink that fails, and gone on with.

use crate::clusters::{AT_TARGET, FILL, RESUMED, three_items};
use crate::lines::{expect, expect_all, expect_any, expect_into, keep, sink_of};
use crate::stores::store_of;
use mig_io::MemFolder;
use mig_store::{MemStore, Pick};
use std::process::Abort;

/// The folder of the three items with scripts, one that reads on the way, one that stops in the middle, and an empty one; and the
/// store of the items, which are filled.
fn filled(rt: &(impl Abort + AllocGlobal)) -> (MemFolder, MemStore) {
    let mut folder = three_items(rt);
    let way = "read x\nstep 2\nread x\nstep 2\nread x\n";
    keep(rt, &mut folder, &[("T", way), ("F", "step 5\n"), ("E", "")]);
    let mut store = store_of(rt, &[]);
    expect(rt, &mut folder, &mut store, &FILL);
    (folder, store)
}

/// What stands once the store failed after so many writes: four of them begin the plan, two are the copies of the first
/// round.
static CUT_OFF: [(u64, &str); 3] = [
    (3, "store fault\n"),
    (
        5,
        "x c46eb6eb2ae62b8d186004c94cdd5abfcc93237cc499539781ce66494cbbac9c\n\
        store fault\n",
    ),
    (
        6,
        "x c46eb6eb2ae62b8d186004c94cdd5abfcc93237cc499539781ce66494cbbac9c\n\
        x c46eb6eb2ae62b8d186004c94cdd5abfcc93237cc499539781ce66494cbbac9c\n\
        store fault\n",
    ),
];

// Whatever a crash leaves then, the plan is gone on with, and no item is lost.
#[test]
fn a_session_that_is_cut_off_by_its_store_is_gone_on_with(rt: HostRuntime) {
    for (writes, text) in &CUT_OFF {
        for pick in [Pick::Old, Pick::New, Pick::Half, Pick::Ones] {
            let (mut folder, mut store) = filled(&rt);
            store.fuse(*writes);
            expect(&rt, &mut folder, &mut store, &("live D N X P T", 5, text));
            let mut left = store.crash(pick);
            expect_any(&rt, &mut folder, &mut left, "resume D N X P", RESUMED);
            expect_all(&rt, &mut folder, &mut left, AT_TARGET);
        }
    }
}

// The name in the second reply isn't put, so the steps after it aren't made: the copies of the first round alone are.
#[test]
fn a_session_that_is_cut_off_by_its_sink_makes_no_further_step(rt: HostRuntime) {
    let (mut folder, mut store) = filled(&rt);
    let first = "x c46eb6eb2ae62b8d186004c94cdd5abfcc93237cc499539781ce66494cbbac9c\n";
    let line = ("live D N X P T", 6, first);
    expect_into(&rt, &mut folder, &mut store, sink_of(&rt, 4096, 4), &line);
    let rest = [
        ("live D N X P E", 0, "left 11\n"),
        ("live D N X P F", 0, "left 6\n"),
    ];
    expect_all(&rt, &mut folder, &mut store, &rest);
}
