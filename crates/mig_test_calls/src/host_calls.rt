//! Each call of a store on its files: over real files, and over files in memory.
ghost use Rattle.std.specs.Prelude.{◌≡◌, IsTrue};

use crate::file_stores::real_calls;
use crate::work_folder::{enter, is_absent, leave};
use mig_base::Name;
use mig_calls::{CallError, CallTrouble, Calls, Extent, FilePick, MemCalls, Place, Refusal};
use mig_host::{Access, HostSystem, System};
use std::fs::{self, File};
use std::io::ErrorKind;
use std::os::unix::fs::MetadataExt;
use std::panic::Expect;
use std::process::Abort;
use std::rt::Files;

/// The disk with this name.
pub fn disk_of(name: &[u8]) -> Place {
    match Name::read(name) {
        Some(name) => Place::Disk(name),
        None => Place::Journal,
    }
}

/// Whether these bytes, and no more, are read from an offset on.
fn has<C: Calls>(calls: &mut C, place: &Place, offset: u64, bytes: &[u8]) -> bool
    ensures claimed { (C.Calls.state calls.new).claimed ≡ (C.Calls.state calls.old).claimed }
{
    let mut found = [9; 16];
    match calls.read_at(place, offset, &mut found) {
        Ok(count) => count == bytes.len() && found.starts_with(bytes),
        Err(_) => false,
    }
}

/// Whether all of these bytes are written at an offset, and whether the file was made for it as it should.
fn writes<C: Calls>(calls: &mut C, place: &Place, offset: u64, bytes: &[u8], made: bool) -> bool
    requires claimed { IsTrue (C.Calls.state calls.old).claimed }
    ensures claimed { IsTrue (C.Calls.state calls.new).claimed }
{
    match calls.write_at(place, offset, bytes) {
        Ok(written) => written.count == bytes.len() && written.made == made,
        Err(_) => false,
    }
}

/// Whether a file has so many bytes, or isn't there.
fn extends<C: Calls>(calls: &mut C, place: &Place, wanted: Extent) -> bool
    ensures claimed { (C.Calls.state calls.new).claimed ≡ (C.Calls.state calls.old).claimed }
{
    match calls.len(place) {
        Ok(found) => found == wanted,
        Err(_) => false,
    }
}

/// Whether no file is there.
fn is_bare<C: Calls>(calls: &mut C) -> bool {
    let disk = disk_of(b"a");
    let bare = extends(calls, &disk, Extent::Absent) && has(calls, &disk, 0, b"");
    bare && extends(calls, &Place::Journal, Extent::Absent) && has(calls, &Place::Journal, 0, b"")
}

/// Whether a file is synced and then closed.
fn closes<C: Calls>(calls: &mut C, place: &Place) -> bool
    ensures claimed { IsTrue result → (C.Calls.state calls.new).claimed ≡ (C.Calls.state calls.old).claimed }
{
    let synced = calls.sync(place).is_ok();
    if synced {
        calls.close(place);
    }
    synced
}

/// Whether a disk's file is made, written, synced, closed and read again, and what was left out reads as zeros.
fn makes_disk<C: Calls>(calls: &mut C, disk: &Place) -> bool
    requires claimed { IsTrue (C.Calls.state calls.old).claimed }
    ensures claimed { IsTrue result → IsTrue (C.Calls.state calls.new).claimed }
{
    let end = Extent::File { len: 4103 };
    let zeros = b"slot 0\0\0\0\0\0\0\0\0\0\0";
    writes(calls, disk, 4096, b"slot 1", true)
        && writes(calls, disk, 4102, b"!", false)
        && (extends(calls, disk, end) && closes(calls, disk))
        && (has(calls, disk, 4096, b"slot 1!") && has(calls, disk, 4103, b""))
        // over real files it was opened for reading alone, and is opened anew
        && (writes(calls, disk, 0, b"slot 0", false) && has(calls, disk, 0, zeros))
        && extends(calls, disk, end)
}

/// Whether files that aren't there yet are claimed, and then made.
fn makes_files<C: Calls>(calls: &mut C) -> bool
    ensures claimed { IsTrue result → IsTrue (C.Calls.state calls.new).claimed }
{
    is_bare(calls)
        && (calls.claim().is_ok() && calls.claim().is_ok())
        && extends(calls, &Place::Journal, Extent::File { len: 0 })
        && makes_disk(calls, &disk_of(b"a"))
}

#[test]
fn each_call_over_files_in_memory(rt: HostRuntime) {
    assert!(rt; makes_files(&mut MemCalls::new(rt.alloc())));
}

/// Whether a claim answers this where the note is there that a sync failed.
fn claims<R: Abort + AllocGlobal + Files<File = File> + Eprint>(
    rt: &R,
    note: &[u8],
    wanted: Result<(), CallError>,
) -> bool {
    let noted = fs::write(rt, "unsynced.mig", note).is_ok();
    noted && real_calls(rt).claim() == wanted
}

/// A note of a disk in this boot of the machine.
fn note<R: Abort + AllocGlobal + Files<File = File>>(rt: &R) -> String {
    let boot = fs::read_to_string(rt, "/proc/sys/kernel/random/boot_id").expect(rt, "a boot");
    format!(in rt.alloc(); "{} a.disk\n", boot.trim_end()).expect(rt, "ample memory")
}

/// Whether it fails by a note of this boot of the machine, and by one that was cut off, and one of another boot is removed.
fn heeds_notes<R: Abort + AllocGlobal + Files<File = File> + Eprint>(rt: &R) -> bool {
    let other = b"0c2fd6c9-34a3-4f8a-8f0c-57c9d0a6a7c6 a.disk\n";
    let failed = Err(CallError::Failed);
    let heeded = claims(rt, note(rt).as_bytes(), failed) && claims(rt, b"", failed);
    heeded && claims(rt, other, Ok(())) && is_absent(rt, "unsynced.mig")
}

#[test]
fn after_a_sync_that_failed(rt: HostRuntime) {
    assert!(rt; enter(&rt, "unsynced") && heeds_notes(&rt) && leave(&rt, "unsynced"));
}

/// Whether a disk's name leads to no file then, which is seen before the journal is written.
fn sees_renamed<C: Calls>(rt: &impl Files, calls: &mut C) -> bool {
    let disk = disk_of(b"a");
    calls.claim().is_ok()
        && writes(calls, &disk, 0, b"x", true)
        && fs::rename(rt, "a.disk", "kept").is_ok()
        && calls.sync(&disk).is_ok()
        && calls.write_at(&Place::Journal, 0, b"x").is_err()
}

/// Whether then a folder is no disk either, which no note tells.
fn sees_folder<C: Calls>(rt: &impl Files, calls: &mut C) -> bool {
    let failed = Err(CallError::Failed);
    let made = sees_renamed(rt, calls) && fs::create_dir(rt, "b.disk").is_ok();
    let refused = made && calls.sync(&disk_of(b"b")) == failed;
    refused && is_absent(rt, "unsynced.mig") && calls.claim() == failed
}

#[test]
fn after_a_sync_that_failed_in_this_process(rt: HostRuntime) {
    assert!(rt; enter(&rt, "exchanged") && sees_folder(&rt, &mut real_calls(&rt)));
    assert!(rt; leave(&rt, "exchanged"));
}

#[test]
fn after_a_sync_that_failed_in_memory(rt: HostRuntime) {
    let mut calls = MemCalls::new(rt.alloc());
    let mut trouble = CallTrouble::none(rt.alloc());
    trouble.failing = vec![in rt.alloc(); 2].expect(&rt, "ample memory");
    calls.trouble(trouble);
    assert!(rt; calls.claim().is_ok() && calls.sync(&disk_of(b"a")).is_err());
    calls.restart();
    assert!(rt; calls.claim() == Err(CallError::Failed));
    assert!(rt; calls.sync_names() == Err(CallError::Failed));
    let mut mounted = calls.crash(FilePick::New).expect(&rt, "ample memory");
    assert!(rt; mounted.claim().is_ok() && mounted.sync(&disk_of(b"a")).is_ok());
}

/// Whether a file that is there is not made.
fn is_made_once<R: Abort + AllocGlobal + Files<File = File> + Eprint>(rt: &R) -> bool {
    match HostSystem::new(rt, rt.alloc()).open("a.disk", Access::Make) {
        Ok(_) => false,
        Err(error) => error.kind() == ErrorKind::AlreadyExists,
    }
}

/// Whether a file has so many bytes.
fn has_len(rt: &impl Files, path: &str, len: u64) -> bool {
    match fs::metadata(rt, path) {
        Ok(found) => found.len() == len,
        Err(_) => false,
    }
}

/// Whether each call does what it should, and the other calls may not write meanwhile.
fn does_each<C: Calls>(rt: &impl Files, calls: &mut C, other: &mut C) -> bool {
    // no file is made by a look
    let bare = is_bare(calls) && is_absent(rt, "a.disk") && is_absent(rt, "journal.mig");
    let journal = Place::Journal;
    let synced = bare
        && (makes_files(calls) && has_len(rt, "a.disk", 4103))
        && (other.claim() == Err(CallError::Failed) && writes(calls, &journal, 512, b"gate", false))
        && (calls.sync(&journal).is_ok() && calls.sync_names().is_ok());
    calls.refuse(&Refusal::Memory { place: journal });
    synced
}

/// Whether that is so over real files, and the other calls may write then.
fn each_is_done<R: Abort + AllocGlobal + Files<File = File> + Eprint>(rt: &R) -> bool {
    let mut other = real_calls(rt);
    let done = does_each(rt, &mut real_calls(rt), &mut other);
    done && is_made_once(rt) && other.claim().is_ok()
}

#[test]
fn each_call_over_real_files(rt: HostRuntime) {
    assert!(rt; enter(&rt, "host_calls") && each_is_done(&rt) && leave(&rt, "host_calls"));
}

/// Whether the lock of a file is free, if it can be opened.
fn lock_is_free(rt: &impl Files<File = File>, path: &str) -> Option<bool> {
    match fs::open(rt, path) {
        Ok(file) => Some(file.try_lock().is_ok()),
        Err(_) => None,
    }
}

/// Whether a disk is locked where it is looked at, once the journal is claimed; and one that wasn't there is made by another process.
fn stays<C: Calls>(rt: &impl Files<File = File>, calls: &mut C) -> bool {
    let [disk, made] = [disk_of(b"a"), disk_of(b"b")];
    let free = has(calls, &disk, 0, b"held") && lock_is_free(rt, "a.disk") == Some(true);
    free && calls.claim().is_ok()
        && (has(calls, &disk, 0, b"held") && lock_is_free(rt, "a.disk") == Some(false))
        && extends(calls, &made, Extent::Absent)
        && fs::write(rt, "b.disk", b"another's").is_ok()
        && !writes(calls, &made, 9, b"x", false)
        && has_len(rt, "b.disk", 9)
}

#[test]
fn what_is_looked_at_stays(rt: HostRuntime) {
    assert!(rt; enter(&rt, "looked_at") && fs::write(&rt, "a.disk", b"held").is_ok());
    assert!(rt; stays(&rt, &mut real_calls(&rt)) && leave(&rt, "looked_at"));
}
