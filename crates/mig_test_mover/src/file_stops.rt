//! Plans over files in memory: starts and resumes whose calls fail, from any of them on or one alone, a crash that leaves some bytes
//! of files, and what is reached then.
ghost use Rattle.std.specs.Prelude.{IsTrue, ℕ, List};
ghost use Rattle.mig_calls.specs.declared.places.Place.TheVariants.{Disk as DiskFile};
ghost use Rattle.mig_calls.specs.Memory.{files_state};

use crate::cases::{Case, LEFT_TWICE, ONE_MOVE, THREE_ITEMS, job_of};
use crate::stores::{item_at, made, slot_of};
use mig_base::Cell;
use mig_calls::{CallTrouble, FilePick, MemCalls};
use mig_files::{FileStore, NamedDisks};
use mig_jobs::Job;
use mig_lanes::{resume_lanes, start_lanes};
use mig_store::Store;
use std::panic::Expect;
use std::process::Abort;

// What a crash leaves.
static PICKS: [FilePick; 5] = [
    FilePick::Old,
    FilePick::New,
    FilePick::Front,
    FilePick::Back,
    FilePick::Ones,
];

// More calls than any of these plans makes.
const MANY: u64 = 2000;

/// How calls go wrong.
#[derive(Clone, Copy)]
struct Manner {
    /// From one call on all of them fail, or this one alone.
    from_then_on: bool,
    interrupts: u64,
    most_bytes: usize,
    most_open: usize,
    /// Each call whose number is a multiple of this one is tried.
    step: usize,
}

static STOPPED: Manner = Manner {
    from_then_on: true,
    interrupts: 0,
    most_bytes: 8192,
    most_open: 100,
    step: 1,
};

static FAILING_ONCE: Manner = Manner {
    from_then_on: false,
    ..STOPPED
};

// Three sectors a call: who is cut off within one leaves bytes that are neither the old slot's nor its copy's.
static IN_PIECES: Manner = Manner {
    interrupts: 3,
    most_bytes: 1536,
    step: 7,
    ..STOPPED
};

static WITH_FEW_FILES: Manner = Manner {
    most_open: 2,
    step: 3,
    ..STOPPED
};

// A store over these files, whose calls go wrong in this manner at that of this number, counted from 1; at 0 none does.
fn store_over(
    rt: &(impl Abort + AllocGlobal),
    mut calls: MemCalls,
    wrong: (&Manner, u64),
) -> FileStore<MemCalls>
    requires { (disk : List ℕ) → IsTrue ((files_state calls).flushed (DiskFile disk)) }
{
    let (manner, number) = wrong;
    let mut trouble = CallTrouble::none(rt.alloc());
    if number > 0 {
        trouble.interrupts = manner.interrupts;
        trouble.most_bytes = manner.most_bytes;
        trouble.most_open = manner.most_open;
        if manner.from_then_on {
            trouble.fuse = Some(number - 1);
        } else {
            trouble.failing.push(number).expect(rt, "ample memory");
        }
    }
    calls.trouble(trouble);
    FileStore::new(rt.alloc(), calls, NamedDisks::new(rt.alloc())).expect(rt, "ample memory")
}

// A store over what a crash leaves of the files of this one, whose calls go wrong so.
fn crashed(
    rt: &(impl Abort + AllocGlobal),
    store: FileStore<MemCalls>,
    pick: FilePick,
    wrong: (&Manner, u64),
) -> FileStore<MemCalls> {
    let calls = store.into_calls().crash(pick).expect(rt, "ample memory");
    store_over(rt, calls, wrong)
}

// Whether a cell of the store holds these bytes.
fn has(store: &mut FileStore<MemCalls>, cell: &Cell, wanted: &[u8]) -> bool {
    let mut bytes = [9; 4096];
    let len = cell.len();
    store.read(cell, &mut bytes[..len]).is_ok() && &bytes[..len] == wanted
}

// Whether the slots of a store hold the items of a case after its plan, and else zeros.
fn are_moved(store: &mut FileStore<MemCalls>, case: &Case<'_>) -> bool {
    for disk in [b'a', b'b', b'c'] {
        for slot in 0..3 {
            let wanted = made(item_at(case.after, disk, slot));
            if !has(store, &slot_of(disk, slot), &wanted) {
                return false;
            }
        }
    }
    true
}

// Whether the target of a case is reached.
fn is_reached(store: &mut FileStore<MemCalls>, job: &Job, case: &Case<'_>) -> bool {
    for n in 0..job.rounds() {
        if !has(store, &Cell::Mark { n: n + 1 }, &[1]) {
            return false;
        }
    }
    has(store, &Cell::Gate, &[1]) && has(store, &Cell::Head, job.digest()) && are_moved(store, case)
}

// Starts a case over files whose calls go wrong so, and says whether it came to its end.
fn start(
    rt: &(impl Abort + AllocGlobal),
    job: &Job,
    case: &Case<'_>,
    wrong: (&Manner, u64),
) -> (bool, FileStore<MemCalls>) {
    let mut store = store_over(rt, MemCalls::new(rt.alloc()), (&STOPPED, 0));
    for (disk, slot, item) in case.before {
        let cell = slot_of(*disk, *slot);
        assert!(rt; store.write(&cell, &made(*item)[..cell.len()]).is_ok());
    }
    assert!(rt; store.sync().is_ok());
    let mut store = crashed(rt, store, FilePick::New, wrong);
    let ended = start_lanes(job, &mut store).is_ok();
    (ended, store)
}

// Asserts that the target of a case is reached by a resume after a crash, and stood before it where what was stopped came to its end.
fn expect_reached(
    rt: &(impl Abort + AllocGlobal),
    (ended, store): (bool, FileStore<MemCalls>),
    pick: FilePick,
    job: &Job,
    case: &Case<'_>,
) {
    let mut store = crashed(rt, store, pick, (&STOPPED, 0));
    assert!(rt; !ended || is_reached(&mut store, job, case));
    assert!(rt; resume_lanes(job, &mut store).is_ok() && is_reached(&mut store, job, case));
}

// Asserts that a start of a case survives each crash at whatever call it goes wrong, until it comes to its end.
fn expect_survival(rt: &(impl Abort + AllocGlobal), case: &Case<'_>, manner: &Manner) {
    let job = job_of(rt, case);
    for number in (1..MANY).step_by(manner.step.max(1)) {
        let mut ends = true;
        for pick in &PICKS {
            let started = start(rt, &job, case, (manner, number));
            ends = ends && started.0;
            expect_reached(rt, started, *pick, &job, case);
        }
        if ends {
            return;
        }
    }
    panic!(rt; "a plan makes too many calls")
}

#[test]
fn a_move_survives_a_crash_after_each_call(rt: HostRuntime) {
    expect_survival(&rt, &ONE_MOVE, &STOPPED);
    expect_survival(&rt, &ONE_MOVE, &FAILING_ONCE);
}

#[test]
fn calls_that_do_less_or_were_not_made_are_made_again(rt: HostRuntime) {
    expect_survival(&rt, &THREE_ITEMS, &IN_PIECES);
    expect_survival(&rt, &LEFT_TWICE, &WITH_FEW_FILES);
}

// A start, and then a resume, stop at the calls of two numbers, with the same crash after each.
#[test]
fn a_resume_survives_a_crash_after_each_call(rt: HostRuntime) {
    let job = job_of(&rt, &ONE_MOVE);
    for first in (1..60).step_by(7) {
        for second in (1..60).step_by(11) {
            for pick in &PICKS {
                let (_, store) = start(&rt, &job, &ONE_MOVE, (&STOPPED, first));
                let mut store = crashed(&rt, store, *pick, (&STOPPED, second));
                let ended = resume_lanes(&job, &mut store).is_ok();
                expect_reached(&rt, (ended, store), *pick, &job, &ONE_MOVE);
            }
        }
    }
}
