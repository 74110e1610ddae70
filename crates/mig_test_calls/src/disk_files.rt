//! The store over files: what a new store reads, many disks, and what is refused; over real files, and over files in memory.

use crate::file_stores::{crashed, real_store, store_over};
use crate::work_folder::{enter, is_absent, leave};
use mig_base::{Cell, Name};
use mig_calls::{CallTrouble, Calls, FilePick, MemCalls};
use mig_files::{FileStore, MOST_OPEN};
use mig_store::Store;
use std::fs::{self, File};
use std::os::unix::fs::symlink;
use std::process::Abort;
use std::rt::Files;

/// A slot of the disk with this name.
fn slot_of(name: &[u8], slot: u32) -> Cell {
    match Name::read(name) {
        Some(disk) => Cell::Slot { disk, slot },
        None => Cell::Head,
    }
}

/// Writes a slot whose every byte is this one.
fn put<C: Calls>(store: &mut FileStore<C>, cell: &Cell, byte: u8) -> bool {
    cell.len() == 4096 && store.write(cell, &[byte; 4096]).is_ok()
}

/// Whether every byte of the slot reads as this one.
fn has<C: Calls>(store: &mut FileStore<C>, cell: &Cell, byte: u8) -> bool {
    let mut bytes = [byte.wrapping_add(1); 4096];
    cell.len() == 4096 && store.read(cell, &mut bytes).is_ok() && bytes == [byte; 4096]
}

/// Whether a missing file reads as zeros, what is written then is read, and with the journal it is synced.
fn written<C: Calls>(store: &mut FileStore<C>) -> bool {
    let slot = slot_of(b"a", 3);
    let read = has(store, &slot, 0) && has(store, &slot, 0);
    let written = read && put(store, &slot, 7) && has(store, &slot, 7);
    let head = written && store.write(&Cell::Head, &[5; 32]).is_ok();
    let gate = head && store.write(&Cell::Gate, &[1]).is_ok();
    gate && store.write(&Cell::Mark { n: 2 }, &[1]).is_ok() && store.sync().is_ok()
}

/// Whether a cell of one byte reads as this one.
fn is_flag<C: Calls>(store: &mut FileStore<C>, cell: &Cell, flag: u8) -> bool {
    let mut byte = [9];
    cell.len() == 1 && store.read(cell, &mut byte).is_ok() && byte == [flag]
}

/// Whether these are read, and zeros beside them.
fn reads_back<C: Calls>(store: &mut FileStore<C>) -> bool {
    let a = has(store, &slot_of(b"a", 3), 7) && has(store, &slot_of(b"a", 2), 0);
    let b = a && has(store, &slot_of(b"a", 9), 0) && has(store, &slot_of(b"b", 0), 0);
    let gate = b && has(store, &slot_of(b"a", 3), 7) && is_flag(store, &Cell::Gate, 1);
    let marks = gate && is_flag(store, &Cell::Mark { n: 1 }, 0);
    marks && is_flag(store, &Cell::Mark { n: 2 }, 1) && is_flag(store, &Cell::Mark { n: 3 }, 0)
}

/// Whether the file of this name has these bytes.
fn stands(rt: &(impl AllocGlobal + Files), path: &str, bytes: &[u8]) -> bool {
    match fs::read(rt, path) {
        Ok(found) => found.as_slice() == bytes,
        Err(_) => false,
    }
}

/// Whether the files have what was written: slot 3 ends at byte 16,384, and mark 2 stands at byte 1,536. A look made none.
fn files_are_so(rt: &(impl AllocGlobal + Files)) -> bool {
    let mut journal = [0; 1537];
    journal[..32].copy_from_slice(&[5; 32]);
    journal[512] = 1;
    journal[1536] = 1;
    let mut disk = [0; 16384];
    disk[12288..].copy_from_slice(&[7; 4096]);
    stands(rt, "a.disk", &disk) && stands(rt, "journal.mig", &journal) && is_absent(rt, "b.disk")
}

#[test]
fn a_synced_cell_is_read_by_a_new_store(rt: HostRuntime) {
    assert!(rt; enter(&rt, "synced") && tried(&rt, Trial::Write) && tried(&rt, Trial::ReadBack));
    assert!(rt; files_are_so(&rt) && leave(&rt, "synced"));
}

/// Whether what was synced is read where a crash leaves this.
fn outlasts(rt: &(impl Abort + AllocGlobal), pick: FilePick) -> bool {
    let mut store = store_over(rt, MemCalls::new(rt.alloc()));
    let synced = written(&mut store);
    reads_back(&mut crashed(rt, store, pick)) && synced
}

#[test]
fn a_synced_cell_is_left_by_a_crash(rt: HostRuntime) {
    assert!(rt; outlasts(&rt, FilePick::Old) && outlasts(&rt, FilePick::New));
    assert!(rt; outlasts(&rt, FilePick::Front) && outlasts(&rt, FilePick::Back));
    assert!(rt; outlasts(&rt, FilePick::Ones));
}

/// The slot of this number of the disk that this number names.
fn slot_in(disk: u32, slot: u32) -> Cell {
    let digit = |n: u32| b'0' + (n % 10) as u8;
    slot_of(&[digit(disk / 100), digit(disk / 10), digit(disk)], slot)
}

/// Whether a slot of each of so many disks is written and synced, twice one of them.
fn many_written<C: Calls>(store: &mut FileStore<C>, disks: u32) -> bool {
    let mut all = true;
    for d in 0..disks {
        all = put(store, &slot_in(d, 0), (d % 256) as u8) && all;
    }
    let again = all && store.sync().is_ok() && put(store, &slot_in(0, 1), 1);
    again && has(store, &slot_in(0, 0), 0) && store.sync().is_ok()
}

/// Whether these are read.
fn many_read<C: Calls>(store: &mut FileStore<C>, disks: u32) -> bool {
    let mut all = true;
    for d in 0..disks {
        all = has(store, &slot_in(d, 0), (d % 256) as u8) && all;
    }
    all && has(store, &slot_in(0, 1), 1) && has(store, &slot_in(1, 1), 0)
}

/// More disks than a store keeps files open.
const MANY: u32 = MOST_OPEN as u32 + 50;

#[test]
fn more_disks_than_open_files(rt: HostRuntime) {
    assert!(rt; enter(&rt, "many") && tried(&rt, Trial::WriteMany(MANY)));
    assert!(rt; tried(&rt, Trial::ReadMany(MANY)) && leave(&rt, "many"));
}

/// Whether twenty disks are written and read where so many files may be open, also after a crash.
fn twenty_synced(rt: &(impl Abort + AllocGlobal), most_open: usize) -> bool {
    let mut trouble = CallTrouble::none(rt.alloc());
    trouble.most_open = most_open;
    trouble.most_bytes = 1500;
    trouble.interrupts = 5;
    let mut calls = MemCalls::new(rt.alloc());
    calls.trouble(trouble);
    let mut store = store_over(rt, calls);
    let synced = many_written(&mut store, 20) && many_read(&mut store, 20);
    many_read(&mut crashed(rt, store, FilePick::Old), 20) && synced
}

#[test]
fn more_disks_than_may_be_open(rt: HostRuntime) {
    assert!(rt; twenty_synced(&rt, 2) && twenty_synced(&rt, 3) && twenty_synced(&rt, 10));
}

/// Whether a slot is neither read nor written.
fn refuses<C: Calls>(store: &mut FileStore<C>, cell: &Cell) -> bool {
    !has(store, cell, 0) && !put(store, cell, 1)
}

/// Whether a slot that isn't there yet is read, and nothing is written, since the journal is another store's.
fn only_reads<C: Calls>(store: &mut FileStore<C>) -> bool {
    let cell = slot_of(b"a", 0);
    has(store, &cell, 0) && !put(store, &cell, 1) && store.sync().is_err()
}

/// Whether the sync fails once the disk's file is exchanged, and then each call does.
fn fails_exchanged<C: Calls>(rt: &impl Files, store: &mut FileStore<C>) -> bool {
    let cell = &slot_of(b"a", 0);
    let written = put(store, cell, 1) && store.write(&Cell::Gate, &[1]).is_ok();
    let renamed = written && fs::rename(rt, "a.disk", "kept").is_ok();
    let failed = renamed && store.sync().is_err() && fs::rename(rt, "kept", "a.disk").is_ok();
    let refused = failed && !has(store, cell, 1) && !put(store, cell, 2);
    refused && store.ended().is_err() && store.sync().is_err()
}

/// Whether links, another store's writes, and a file that was exchanged are refused.
fn refused<C: Calls>(rt: &impl Files, store: &mut FileStore<C>, other: &mut FileStore<C>) -> bool {
    // a link that leads nowhere, or to what is neither a file nor a disk: no file is made through it
    let nowhere = symlink(rt, "nowhere", "b.disk").is_ok() && refuses(store, &slot_of(b"b", 0));
    let null = symlink(rt, "/dev/null", "c.disk").is_ok() && refuses(store, &slot_of(b"c", 0));
    let links = nowhere && null && is_absent(rt, "nowhere");
    links && only_reads(other) && is_absent(rt, "a.disk") && fails_exchanged(rt, store)
}

/// Whether the slot holds what was written, and can be written over.
fn written_over<C: Calls>(store: &mut FileStore<C>) -> bool {
    let cell = slot_of(b"a", 0);
    has(store, &cell, 1) && put(store, &cell, 2) && has(store, &cell, 2) && store.sync().is_ok()
}

/// What a store over real files does.
enum Trial {
    Write,
    ReadBack,
    WriteMany(u32),
    ReadMany(u32),
    WriteOver,
}

/// Whether the store does it.
fn does<C: Calls>(store: &mut FileStore<C>, trial: Trial) -> bool {
    match trial {
        Trial::Write => written(store),
        Trial::ReadBack => reads_back(store),
        Trial::WriteMany(disks) => many_written(store, disks),
        Trial::ReadMany(disks) => many_read(store, disks),
        Trial::WriteOver => written_over(store),
    }
}

/// Whether a new store over real files does it.
fn tried<R: Abort + AllocGlobal + Files<File = File> + Eprint>(rt: &R, trial: Trial) -> bool {
    does(&mut real_store(rt), trial)
}

/// Whether a new store over real files refuses what it should, and another one meanwhile.
fn refuses_all<R: Abort + AllocGlobal + Files<File = File> + Eprint>(rt: &R) -> bool {
    refused(rt, &mut real_store(rt), &mut real_store(rt))
}

#[test]
fn what_is_refused(rt: HostRuntime) {
    assert!(rt; enter(&rt, "refused") && refuses_all(&rt));
    assert!(rt; tried(&rt, Trial::WriteOver) && leave(&rt, "refused"));
}
