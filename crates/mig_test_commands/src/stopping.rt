//! Moves at which a call of the store fails, and what `resume` makes of them after a crash.

use crate::clusters::{
    BY_THIRD_DISK, Cluster, FILL, FILL_TWO, FULL_DISKS, RESUMED, STORE_FAULT, THREE_ITEMS,
    TWO_ROUNDS,
};
use crate::lines::{Line, expect, expect_any, folder_of, sink_of, status_of};
use crate::stores::{BY_THIRD_DIGEST, DIGEST, are_exchanged, is_done, store_of};
use mig_io::MemFolder;
use mig_store::{EndOrder, MemStore, Pick};
use std::process::Abort;

/// A plan that exchanges what the first two disks hold: the line that fills its items, those that begin it and resume it with what may
/// be said then, the number of the first call of a move, how many writes it makes at least, its rounds, and its digest.
struct Carried {
    cluster: Cluster<'static>,
    plan: &'static str,
    fill: Line<'static>,
    begins: &'static str,
    resumes: &'static str,
    resumed: &'static [&'static str],
    first: u64,
    writes: usize,
    rounds: u32,
    digest: &'static [u8; 32],
}

/// The three items. A filling syncs, reads the gate and three slots, writes these and syncs. Each of the twelve writes of the plan is a call.
const THREE: Carried = Carried {
    cluster: THREE_ITEMS,
    plan: TWO_ROUNDS,
    fill: FILL,
    begins: "move D N X P",
    resumes: "resume D N X P",
    resumed: RESUMED,
    first: 9,
    writes: 12,
    rounds: 2,
    digest: &DIGEST,
};

/// Two full disks. Three marks are zeroed, the head and the gate are written; and in each round a copy, its mark and an erasure.
const TIGHT: Carried = Carried {
    cluster: FULL_DISKS,
    plan: BY_THIRD_DISK,
    fill: FILL_TWO,
    begins: "move-tight D N X P",
    resumes: "resume-tight D N X P",
    resumed: &[
        "done 3 rounds, found 0\n",
        "done 3 rounds, found 1\n",
        "done 3 rounds, found 2\n",
        "done 3 rounds, found 3\n",
    ],
    first: 7,
    writes: 14,
    rounds: 3,
    digest: &BY_THIRD_DIGEST,
};

/// What is carried out, and which copy in flight ends next.
static CARRIED: [(&Carried, EndOrder); 4] = [
    (&THREE, EndOrder::First),
    (&THREE, EndOrder::Last),
    (&THREE, EndOrder::Turns),
    (&TIGHT, EndOrder::First),
];

/// More calls than a move makes.
const MANY: u64 = 200;

/// A store on which the items are filled and moved, and whose call of this number fails; nothing where the move ends well.
fn stopped(
    rt: &(impl Abort + AllocGlobal),
    folder: &mut MemFolder,
    case: &Carried,
    order: EndOrder,
    call: u64,
) -> Option<MemStore> {
    let mut store = store_of(rt, &[call]);
    store.order(order);
    expect(rt, folder, &mut store, &case.fill);
    let mut out = sink_of(rt, 4096, 99);
    let status = status_of(rt, folder, &mut store, &mut out, case.begins);
    assert!(rt; status == 0 || status == 5 && out.held() == STORE_FAULT.as_bytes());
    if status == 0 { None } else { Some(store) }
}

/// Lets each call of a move fail in turn, from the first one on, until a move ends well, and resumes it after a crash: the first two
/// disks hold then what the other one held. The number of those that failed.
fn stops(rt: &(impl Abort + AllocGlobal), case: &Carried, order: EndOrder, pick: Pick) -> usize {
    let mut folder = folder_of(rt, &case.cluster, &[("P", case.plan)], &[]);
    let mut filled = store_of(rt, &[]);
    expect(rt, &mut folder, &mut filled, &case.fill);
    for (number, call) in (case.first..MANY).enumerate() {
        let Some(store) = stopped(rt, &mut folder, case, order, call) else {
            return number;
        };
        let mut left = store.crash(pick);
        expect_any(rt, &mut folder, &mut left, case.resumes, case.resumed);
        assert!(rt; is_done(&left, case.digest, case.rounds) && are_exchanged(&filled, &left));
    }
    panic!(rt; "a move has too many calls")
}

#[test]
fn a_move_is_resumed_whichever_call_fails(rt: HostRuntime) {
    for (case, order) in &CARRIED {
        for pick in [Pick::Old, Pick::New, Pick::Half, Pick::Ones] {
            assert!(rt; stops(&rt, case, *order, pick) >= case.writes);
        }
    }
}
