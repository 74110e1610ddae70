//! Files in memory by their places.
ghost use Rattle.std.specs.Prelude.{◌≡◌, ◌≤◌, OnOk, OnErr, IfOk, IfSome, IfNone, length, map};
ghost use Rattle.mig_calls.specs.declared.places.Place.{Place as Places};
ghost use Rattle.mig_calls.specs.MemFiles.{no_file, file_moment, changed, with_name, crashed, seen_files, place_of, look, change_file, on_file};

use crate::mem_file::{Change, MemFile};
use crate::pick::FilePick;
use crate::places::Place;
use mig_keys::KeyTable;
use std::alloc::{AllocError, Global};

/// The file of a place.
pub fn get<'a>(table: &KeyTable<Place>, files: &'a [MemFile], place: &Place) -> Option<&'a MemFile>
    requires { table.now ≡ map place_of (seen_files files.now) }
    ensures some { IfSome result (λ file. look (seen_files files.now) place.now ≡ file_moment file.now) }
    ensures none { IfNone result (look (seen_files files.now) place.now ≡ no_file) }
{
    match table.find(place) {
        Some(i) => Some(&files[i]),
        None => None,
    }
}

/// Changes the file of a place. An error is want of memory, or that there is no such place, and changes nothing.
pub fn change(
    table: &KeyTable<Place>,
    files: &mut Vec<MemFile>,
    alloc: Global,
    place: &Place,
    change: &Change,
) -> Result<(), AllocError>
    requires { table.now ≡ map place_of (seen_files files.old.items) }
    ensures places { map place_of (seen_files files.new.items) ≡ map place_of (seen_files files.old.items) }
    ensures done { OnOk result ((q : Places) → look (seen_files files.new.items) q ≡ change_file place.now (changed change.now) (look (seen_files files.old.items)) q) }
    ensures nothing { OnErr result ((q : Places) → look (seen_files files.new.items) q ≡ look (seen_files files.old.items) q) }
{
    match table.find(place) {
        Some(i) => files[i].change(alloc, change),
        None => Err(AllocError),
    }
}

/// Brings the names of all files to the device.
pub fn name_all(files: &mut Vec<MemFile>)
    ensures { seen_files files.new.items ≡ map (on_file with_name) (seen_files files.old.items) }
{
    for file in files.iter_mut() {
        file.name();
    }
}

/// Keeps what a crash leaves of each file.
pub fn crash_all(files: &mut Vec<MemFile>, pick: FilePick)
    ensures { seen_files files.new.items ≡ map (on_file (crashed pick)) (seen_files files.old.items) }
{
    for file in files.iter_mut() {
        file.crash(pick);
    }
}
