//! Small migrations: their files, a plan for each, and what the slots hold before and after it.

use mig_check::runs;
use mig_csv::read_input;
use mig_jobs::{Job, prepare};
use mig_store::Pick;
use mig_text::read_plan;
use std::panic::Expect;
use std::process::Abort;

/// A slot, by the letter that names its disk and its number, and the letter that names the item in it.
pub type Place = (u8, u32, u8);

/// The three files, a plan, and where the items are before and after it; how often a start of the plan writes, and which of
/// these writes, counted from 0, are marks.
#[derive(Clone, Copy)]
pub struct Case<'a> {
    pub disks: &'a str,
    pub now: &'a str,
    pub next: &'a str,
    pub plan: &'a str,
    pub before: &'a [Place],
    pub after: &'a [Place],
    pub writes: u32,
    pub marks: &'a [u32],
}

/// One item goes from one disk to another. A mark is zeroed, the head and the gate are written, and the item; then its mark, and an erasure.
pub static ONE_MOVE: Case<'static> = Case {
    disks: "disk,limit,slots\na,1,1\nb,1,1\n",
    now: "item,disk,slot\nx,a,0\n",
    next: "item,disk\nx,b\n",
    plan: "migration-plan 1\nrounds 1\nround 1 1\nx a 0 b 0\nend\n",
    before: &[(b'a', 0, b'x')],
    after: &[(b'b', 0, b'x')],
    writes: 6,
    marks: &[4],
};

/// One item goes away, and another goes to where it was and back again. So a slot is left twice.
pub static LEFT_TWICE: Case<'static> = Case {
    disks: "disk,limit,slots\na,1,1\nb,1,1\nc,1,1\n",
    now: "item,disk,slot\nx,a,0\ny,c,0\n",
    next: "item,disk\nx,b\ny,c\n",
    plan: "migration-plan 1\nrounds 3\nround 1 1\nx a 0 b 0\nround 2 1\ny c 0 a 0\nround 3 1\ny a 0 c 0\nend\n",
    before: &[(b'a', 0, b'x'), (b'c', 0, b'y')],
    after: &[(b'b', 0, b'x'), (b'c', 0, b'y')],
    writes: 14,
    marks: &[6, 9, 12],
};

/// Three items go from one disk to another, two of them in the first round.
pub static THREE_ITEMS: Case<'static> = Case {
    disks: "disk,limit,slots\na,2,4\nb,2,4\n",
    now: "item,disk,slot\nx,a,0\ny,a,1\nz,a,2\n",
    next: "item,disk\nx,b\ny,b\nz,b\n",
    plan: "migration-plan 1\nrounds 2\nround 1 2\nx a 0 b 0\ny a 1 b 1\nround 2 1\nz a 2 b 2\nend\n",
    before: &[(b'a', 0, b'x'), (b'a', 1, b'y'), (b'a', 2, b'z')],
    after: &[(b'b', 0, b'x'), (b'b', 1, b'y'), (b'b', 2, b'z')],
    writes: 12,
    marks: &[6, 10],
};

/// What a crash leaves.
pub static PICKS: [Pick; 4] = [Pick::Old, Pick::New, Pick::Half, Pick::Ones];

/// How many rounds of a case are marked where a start stops before the write of this number: that of this very number may be there too.
pub fn marked(case: &Case<'_>, stop: u32, pick: Pick) -> u32 {
    let stays = matches!(pick, Pick::New | Pick::Ones);
    let is_set = |mark: &&u32| **mark < stop || **mark == stop && stays;
    u32::try_from(case.marks.iter().filter(is_set).count()).unwrap_or(0)
}

/// The job of a case.
pub fn job_of(rt: &(impl Abort + AllocGlobal), case: &Case<'_>) -> Job {
    let alloc = rt.alloc();
    let [disks, now, next] = [case.disks, case.now, case.next].map(|text| text.as_bytes());
    let input = read_input(alloc, disks, now, next).expect(rt, "files of a migration");
    let plan = read_plan(alloc, &input, case.plan.as_bytes()).expect(rt, "a plan");
    runs(alloc, &input, &plan).expect(rt, "a plan that runs");
    prepare(alloc, &input, &plan, case.plan.as_bytes()).expect(rt, "ample memory")
}
