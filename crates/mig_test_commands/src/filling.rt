//! What `fill` and `audit` leave and say where a call of the store or a put of the sink fails.

use crate::clusters::{LOST, STORE_FAULT, three_items};
use crate::lines::{Line, expect_all, expect_into, sink_of};
use crate::stores::store_of;

/// Lines over a store whose first call, a sync, fails: nothing is written.
static UNSYNCED: [Line<'static>; 2] = [("fill D N", 5, STORE_FAULT), ("audit D N", 0, LOST)];

/// The call of the store and the put of the sink that fail, counted from 0, and lines, with what the sink then holds.
static STOPPED: [(u64, u64, Line<'static>); 6] = [
    (1, 99, ("audit D N", 5, FIRST_LOST)),
    (2, 99, ("audit D N", 5, TWO_LOST)),
    (99, 9, ("audit D N", 6, CUT_OFF)),
    (0, 0, ("audit D N", 5, "")),
    (99, 1, ("fill D N", 6, "filled ")),
    (5, 99, ("fill D N", 5, STORE_FAULT)),
];

const FIRST_LOST: &str =
    "x a 0 lost ad7facb2586fc6e966c004d7d1d16b024f5805ff7cb47c7a85dabd8b48892ca7\nstore fault\n";

const TWO_LOST: &str =
    "x a 0 lost ad7facb2586fc6e966c004d7d1d16b024f5805ff7cb47c7a85dabd8b48892ca7\n\
    y a 1 lost ad7facb2586fc6e966c004d7d1d16b024f5805ff7cb47c7a85dabd8b48892ca7\nstore fault\n";

const CUT_OFF: &str =
    "x a 0 lost ad7facb2586fc6e966c004d7d1d16b024f5805ff7cb47c7a85dabd8b48892ca7\ny";

#[test]
fn faults_in_the_middle(rt: HostRuntime) {
    let mut folder = three_items(&rt);
    for (call, put, line) in &STOPPED {
        let mut store = store_of(&rt, &[*call]);
        expect_into(&rt, &mut folder, &mut store, sink_of(&rt, 4096, *put), line);
    }
    expect_all(&rt, &mut folder, &mut store_of(&rt, &[0]), &UNSYNCED);
}
