//! Sessions that are left at any step, or end where their store or sink fails.

use crate::cases::{PICKS, THREE_ITEMS, job_of};
use crate::stores::{filled, is_reached};
use mig_io::MemSink;
use mig_jobs::Job;
use mig_lanes::resume_lanes;
use mig_live::{Live, ServeFault, read_script, serve};
use mig_store::MemStore;
use std::panic::Expect;
use std::process::Abort;

// The replies to reads. The digests are those of another program.
const X: &str = "x c46eb6eb2ae62b8d186004c94cdd5abfcc93237cc499539781ce66494cbbac9c\n";

const XY: &str =
    "x c46eb6eb2ae62b8d186004c94cdd5abfcc93237cc499539781ce66494cbbac9c\ny 23031c9c6b8e12b9337f8d7bc6d5cefadde158b20caf32a7917c9e1b9efa9637\n";

// A sink whose puts with these numbers fail.
fn sink(rt: &(impl Abort + AllocGlobal), failing: &[u64]) -> MemSink {
    let failing = Vec::from_slice(rt.alloc(), failing).expect(rt, "ample memory");
    MemSink::new(rt.alloc(), 10_000, failing).expect(rt, "ample memory")
}

// Enters a plan, carries a script out, and tells how many rounds are marked then.
fn carry(
    rt: &(impl Abort + AllocGlobal),
    job: &Job,
    store: &mut MemStore,
    out: &mut MemSink,
    script: &str,
) -> Result<u32, ServeFault> {
    let script = read_script(rt.alloc(), job.input(), script.as_bytes()).expect(rt, "a script");
    let live = Live::enter(job, store).expect(rt, "a store that is ready");
    Ok(serve(live, store, out, script.orders())?.marked())
}

// Whatever a crash leaves then, the plan is resumed to its target.
#[test]
fn a_session_may_be_left_at_any_step(rt: HostRuntime) {
    let job = job_of(&rt, &THREE_ITEMS);
    for steps in 0..12 {
        for pick in PICKS {
            let mut store = filled(&rt, THREE_ITEMS.before, &[]);
            let script = "step 1\n"
                .repeat(rt.alloc(), steps)
                .expect(&rt, "ample memory");
            let came = carry(&rt, &job, &mut store, &mut sink(&rt, &[]), &script);
            let mut left = store.crash(pick);
            assert!(rt; came.is_ok_and(|marked| resume_lanes(&job, &mut left) == Ok(marked)));
            assert!(rt; is_reached(&left, &job, &THREE_ITEMS));
        }
    }
}

#[test]
fn a_fault_ends_a_session(rt: HostRuntime) {
    let job = job_of(&rt, &THREE_ITEMS);
    let script = "read x\nstep 1\nread y\nstep 1\nread z\n";
    // Two marks are zeroed, the head and the gate are written, and an item is copied. Then the store fails.
    let mut store = filled(&rt, THREE_ITEMS.before, &[]);
    store.fuse(5);
    let mut out = sink(&rt, &[]);
    assert!(rt; carry(&rt, &job, &mut store, &mut out, script) == Err(ServeFault::Store));
    assert!(rt; out.held() == XY.as_bytes());
    // A line is put in four parts. The second line's first part fails.
    let mut store = filled(&rt, THREE_ITEMS.before, &[]);
    let mut out = sink(&rt, &[4]);
    assert!(rt; carry(&rt, &job, &mut store, &mut out, script) == Err(ServeFault::Sink));
    assert!(rt; out.held() == X.as_bytes());
}
