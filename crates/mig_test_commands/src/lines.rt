//! Lines that are carried out over folders, sinks and stores in memory. Each function asserts by itself, so that a test is a few calls.

use crate::clusters::Cluster;
use mig_io::{Folder, MemFolder, MemSink};
use mig_store::MemStore;
use mig_top::{Machine, Program};
use std::panic::Expect;
use std::process::Abort;

/// A line, its status and all that it puts.
pub type Line<'a> = (&'a str, u8, &'a str);

/// The room for each file that is saved, and for what is printed, in bytes.
const ROOM: usize = 131_072;

/// Puts files of these texts into a folder.
pub fn keep(rt: &(impl Abort + AllocGlobal), folder: &mut MemFolder, texts: &[(&str, &str)]) {
    for (name, text) in texts {
        folder
            .keep(name, text.as_bytes())
            .expect(rt, "ample memory");
    }
}

/// A folder with the files of a cluster as D, N and X, these ones besides, and room for C, H, K, O and P. Its calls with these
/// numbers fail.
pub fn folder_of(
    rt: &(impl Abort + AllocGlobal),
    cluster: &Cluster<'_>,
    texts: &[(&str, &str)],
    failing: &[u64],
) -> MemFolder {
    let failing = Vec::from_slice(rt.alloc(), failing).expect(rt, "ample memory");
    let mut folder = MemFolder::new(rt.alloc(), failing);
    for name in ["C", "H", "K", "O", "P"] {
        folder.grant(name, ROOM).expect(rt, "ample memory");
    }
    let Cluster { disks, now, next } = *cluster;
    keep(rt, &mut folder, &[("D", disks), ("N", now), ("X", next)]);
    keep(rt, &mut folder, texts);
    folder
}

/// A sink with so much room, whose put of this number fails, counted from 0.
pub fn sink_of(rt: &(impl Abort + AllocGlobal), room: usize, failing: u64) -> MemSink {
    let failing = vec![in rt.alloc(); failing].expect(rt, "ample memory");
    MemSink::new(rt.alloc(), room, failing).expect(rt, "ample memory")
}

/// Carries out a line, and gives the status.
pub fn status_of<F: Folder>(
    rt: &(impl Abort + AllocGlobal),
    folder: &mut F,
    store: &mut MemStore,
    out: &mut MemSink,
    line: &str,
) -> u8 {
    let mut words = Vec::new(rt.alloc());
    for word in line.split_whitespace() {
        let word = String::from_str(rt.alloc(), word).expect(rt, "ample memory");
        words.push(word).expect(rt, "ample memory");
    }
    Machine { folder, out, store }
        .run(rt.alloc(), &words)
        .status
}

/// Carries out a line into a sink, and asserts its status and all that the sink then holds.
pub fn expect_into<F: Folder>(
    rt: &(impl Abort + AllocGlobal),
    folder: &mut F,
    store: &mut MemStore,
    mut out: MemSink,
    line: &Line<'_>,
) {
    let (line, status, text) = *line;
    let came = status_of(rt, folder, store, &mut out, line);
    assert_eq!(rt; came, status, "status of {line}");
    assert_eq!(rt; out.held(), text.as_bytes(), "text of {line}");
}

/// The same with a sink that doesn't fail.
pub fn expect<F: Folder>(
    rt: &(impl Abort + AllocGlobal),
    folder: &mut F,
    store: &mut MemStore,
    line: &Line<'_>,
) {
    expect_into(rt, folder, store, sink_of(rt, ROOM, 999), line);
}

/// The same for lines one after the other.
pub fn expect_all(
    rt: &(impl Abort + AllocGlobal),
    folder: &mut MemFolder,
    store: &mut MemStore,
    lines: &[Line<'_>],
) {
    for line in lines {
        expect(rt, folder, store, line);
    }
}

/// Carries out a line, and asserts that it ends with status 0 and one of these texts.
pub fn expect_any(
    rt: &(impl Abort + AllocGlobal),
    folder: &mut MemFolder,
    store: &mut MemStore,
    line: &str,
    texts: &[&str],
) {
    let mut out = sink_of(rt, ROOM, 999);
    assert!(rt;
        status_of(rt, folder, store, &mut out, line) == 0,
        "status of {line}"
    );
    assert!(rt;
        texts.iter().any(|text| text.as_bytes() == out.held()),
        "text of {line}"
    );
}
