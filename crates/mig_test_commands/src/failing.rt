//! Folders, sinks and memory that fail at one call, and what each command over files does where none fails.

use crate::clusters::{Cluster, FULL_DISKS, THREE_ITEMS, TWO_NEEDED, TWO_ROUNDS};
use crate::lines::{Line, expect, expect_into, folder_of, sink_of, status_of};
use crate::stores::store_of;
use mig_io::{Folder, LoadFault, MemFolder, SaveFailed};
use std::alloc::Global;
use std::process::Abort;

/// The lines that plan, check what stands as P and C, print the last layout of P, and drill it.
const PLAN: &str = "plan D N X P C";

const CHECK: &str = "check D N X P C";

const AFTER: &str = "after D N X P";

const DRILL: &str = "drill D N X P";

/// The folder of a cluster, with a plan as P and its certificate as C. Its calls with these numbers fail.
fn made(rt: &(impl Abort + AllocGlobal), cluster: &Cluster<'_>, failing: &[u64]) -> MemFolder {
    folder_of(
        rt,
        cluster,
        &[("P", TWO_ROUNDS), ("C", TWO_NEEDED)],
        failing,
    )
}

/// Asserts that the files of a cluster stand as they were, and the plan and the certificate beside them.
fn expect_kept(rt: &(impl Abort + AllocGlobal), folder: &MemFolder, cluster: &Cluster<'_>) {
    let Cluster { disks, now, next } = *cluster;
    let texts = [
        ("D", disks),
        ("N", now),
        ("X", next),
        ("P", TWO_ROUNDS),
        ("C", TWO_NEEDED),
    ];
    for (name, text) in texts {
        assert!(rt; folder.file(name) == Some(text.as_bytes()), "file {name}");
    }
}

/// What is put of a drill of two rounds, of two shifts and of one.
const TWO_DRILLED: &str = "\
writes 12
stop 0 marks 0 0 0 0
stop 1 marks 0 0 0 0
stop 2 marks 0 0 0 0
stop 3 marks 0 0 0 0
stop 4 marks 0 0 0 0
stop 5 marks 0 0 0 0
stop 6 marks 0 1 0 1
stop 7 marks 1 1 1 1
stop 8 marks 1 1 1 1
stop 9 marks 1 1 1 1
stop 10 marks 1 2 1 2
stop 11 marks 2 2 2 2
reached 48
";

/// Lines over a cluster, what they put where no call of the folder fails, the number of these calls, and the first one whose
/// fault leaves the file O that the line saves, counted from 0. `plan` saves O, and K after it.
static LINES: [(Cluster<'static>, &str, &str, u64, u64); 5] = [
    (THREE_ITEMS, "plan D N X O K", TWO_NEEDED, 5, 4),
    (THREE_ITEMS, CHECK, "optimal\n", 5, 99),
    (THREE_ITEMS, DRILL, TWO_DRILLED, 4, 99),
    (
        THREE_ITEMS,
        "drain D N a O",
        "rounds 2\nshown own 3 2\n",
        3,
        3,
    ),
    (
        FULL_DISKS,
        "plan-tight D N X O",
        "rounds 3, parked 1\n",
        4,
        4,
    ),
];

#[test]
fn faults_of_the_folder(rt: HostRuntime) {
    for (cluster, words, text, calls, left) in &LINES {
        for failing in 0..=*calls {
            let mut folder = made(&rt, cluster, &[failing]);
            let fault = (*words, 4, "folder fault\n");
            let line = if failing < *calls {
                fault
            } else {
                (*words, 0, *text)
            };
            expect(&rt, &mut folder, &mut store_of(&rt, &[]), &line);
            expect_kept(&rt, &folder, cluster);
            assert!(rt; folder.file("O").is_some() == (failing >= *left));
            assert!(rt; folder.file("K").is_some() == (left < calls && failing == *calls));
        }
    }
}

/// A folder over another that refuses memory at the load of this number, counted from 0.
#[derive(Drop)]
struct ScarceFolder<F> {
    within: F,
    refused: u64,
    loads: u64,
}

impl<F: Folder> Folder for ScarceFolder<F> {
    ghost state = { λ s. F.state s.within };

    fn load(&mut self, alloc: Global, name: &str, most: usize) -> Result<Vec<u8>, LoadFault> {
        let number = self.loads;
        self.loads = number.saturating_add(1);
        if number == self.refused {
            return Err(LoadFault::Memory);
        }
        self.within.load(alloc, name, most)
    }

    fn save(&mut self, name: &str, bytes: &[u8]) -> Result<(), SaveFailed> {
        self.within.save(name, bytes)
    }
}

#[test]
fn memory_is_refused_at_each_load(rt: HostRuntime) {
    for (line, loads) in [(PLAN, 3), (CHECK, 5), (AFTER, 4)] {
        for refused in 0..loads {
            let within = made(&rt, &THREE_ITEMS, &[]);
            let mut folder = ScarceFolder {
                within,
                refused,
                loads: 0,
            };
            expect(
                &rt,
                &mut folder,
                &mut store_of(&rt, &[]),
                &(line, 7, "no memory\n"),
            );
            expect_kept(&rt, &folder.within, &THREE_ITEMS);
        }
    }
}

/// The room of a sink, lines and their statuses, and what the sink then holds.
static SINK_FAULTS: [(usize, Line<'static>); 4] = [
    (9, (PLAN, 6, "migration")),
    (5, (CHECK, 6, "optim")),
    (4, (AFTER, 6, "item")),
    (5, ("plan", 2, "words")),
];

// The first line saves a plan and its certificate, and both stand from then on. The drill has put a part of its text.
#[test]
fn faults_of_the_sink(rt: HostRuntime) {
    let mut folder = folder_of(&rt, &THREE_ITEMS, &[("P", "some plan"), ("C", "")], &[]);
    let mut store = store_of(&rt, &[]);
    for (room, line) in &SINK_FAULTS {
        expect_into(&rt, &mut folder, &mut store, sink_of(&rt, *room, 99), line);
        assert!(rt; folder.file("C") == Some(TWO_NEEDED.as_bytes()));
        assert!(rt;
            folder
                .file("P")
                .is_some_and(|plan| plan != b"some plan".as_slice())
        );
    }
    let mut out = sink_of(&rt, 4096, 5);
    let ended = status_of(&rt, &mut folder, &mut store, &mut out, DRILL);
    assert!(rt; ended == 6 && TWO_DRILLED.as_bytes().starts_with(out.held()));
}
