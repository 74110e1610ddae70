//! The next file: the disks that the items are to go to.
ghost use Rattle.std.specs.Prelude.{◌≡◌, ◌<◌, ◌≤◌, List, None, Some, IfErr, IfOk, MatchBool, length, map, replicate, slice_get, ℕ};
ghost use Rattle.std.specs.Option.{IfSome, IsSomeAnd};
ghost use Rattle.csv.specs.Records.{fields_of};
ghost use Rattle.mig_base.specs.Refusals.{IsFirstCause, NextRowFault};
ghost use Rattle.mig_base.specs.InputLists.{AreDifferent};
ghost use Rattle.mig_base.specs.Rows.{first, rows_of, second};
ghost use Rattle.mig_base.specs.declared.faults.FileKind.TheVariants as file;
ghost use Rattle.mig_base.specs.declared.faults.Why.{Why};
ghost use Rattle.mig_base.specs.declared.ids.DiskId.{DiskId};
ghost use Rattle.mig_csv.specs.Listed.{ListsNext};
ghost use Rattle.mig_csv.specs.Lists.{AreNextOf, AreSeen};
ghost use Rattle.mig_csv.specs.Opened.{IsOpened};
ghost use Rattle.mig_csv.specs.Refusals.{IsRefusalOf, NextFault};

use crate::disks::DiskList;
use crate::errors::{InputError, refused};
use crate::files::read_header;
use crate::rows::{Records, field};
use csv::ByteRecord;
use mig_base::{DiskId, FileKind, MAX_DISKS, MAX_ITEMS, Name, Why};
use mig_keys::KeyTable;
use std::alloc::Global;

/// An item's place among the items, and the disk that it is to go to.
#[derive(Clone, Copy)]
pub(crate) struct Way {
    pub(crate) item: usize,
    pub(crate) disk: DiskId,
}

/// The next disks that a next file gives, or its first fault.
#[inline(never)]
pub(crate) fn read_next(
    alloc: Global,
    bytes: &[u8],
    disks: &DiskList,
    present: &KeyTable<Name>,
) -> Result<Vec<Option<DiskId>>, InputError>
    requires named { disks.now.names ≡ map (λ d. d.name) disks.now.disks.items }
    requires few { length disks.now.disks.items ≤ MAX_DISKS }
    ensures value { IfOk result (λ r. AreNextOf disks.now.disks.items present.now (rows_of bytes.now) r.items) }
    ensures sound { IfOk result (λ _. (n : ℕ) (w : Why) → ¬ (NextFault disks.now.disks.items present.now bytes.now n w)) }
    ensures fault { IfErr result (IsRefusalOf file.Next (NextFault disks.now.disks.items present.now bytes.now)) }
{
    let mut row = ByteRecord::new(alloc);
    let mut records = Records::of(alloc, bytes);
    read_header(FileKind::Next, bytes, &mut records, &mut row)?;
    let Ok(mut next) = vec![in alloc; None; present.len()] else {
        return Err(InputError::Memory);
    };
    set_next(&mut records, &mut row, disks, present, &mut next)?;
    Ok(next)
}

/// Sets the next disks that the rows after the header of a next file give, where none is set. `row` is a buffer.
fn set_next(
    records: &mut Records<'_>,
    row: &mut ByteRecord,
    disks: &DiskList,
    present: &KeyTable<Name>,
    next: &mut Vec<Option<DiskId>>,
) -> Result<(), InputError>
    requires named { disks.now.names ≡ map (λ d. d.name) disks.now.disks.items }
    requires few { length disks.now.disks.items ≤ MAX_DISKS }
    requires opened { (bytes : List ℕ) × IsOpened file.Next bytes records.old }
    requires none { next.old.items ≡ replicate (length present.now) None }
    ensures listed { IfOk result (λ _. (bytes : List ℕ) → IsOpened file.Next bytes records.old → ListsNext disks.now.disks.items present.now bytes next.new.items) }
    ensures fault { IfErr result (λ e. (bytes : List ℕ) → IsOpened file.Next bytes records.old → IsRefusalOf file.Next (NextFault disks.now.disks.items present.now bytes) e) }
{
    let mut seen = 0;
    'rows: while records.read(row)? {
        match read_way(disks, present, next, seen, row) {
            Ok(way) => {
                next[way.item] = Some(way.disk);
                seen += 1;
            }
            Err(why) => return Err(refused(FileKind::Next, seen as u32 + 1, why)),
        }
    }
    Ok(())
}

/// Whether the item at a place, if there is one, has a next disk.
fn has_next(next: &[Option<DiskId>], place: Option<usize>) -> bool
    requires { IfSome place (λ k. k < length next.now) }
    ensures { MatchBool result ((k : ℕ) × (v : DiskId) × (place ≡ Some k) × (slice_get next.now k ≡ Some (Some v))) ((k : ℕ) → place ≡ Some k → slice_get next.now k ≡ Some None) }
{
    match place {
        Some(item) => next[item].is_some(),
        None => false,
    }
}

/// What a row of a next file lists, or the first cause that holds of the row after so many rows, which gave items these
/// next disks. Often the row names the item of the same row of the now file, so it is looked for there first.
fn read_way(
    disks: &DiskList,
    present: &KeyTable<Name>,
    next: &[Option<DiskId>],
    seen: usize,
    row: &ByteRecord,
) -> Result<Way, Why>
    requires named { disks.now.names ≡ map (λ d. d.name) disks.now.disks.items }
    requires few { length disks.now.disks.items ≤ MAX_DISKS }
    requires one_each { length next.now ≡ length present.now }
    ensures item { IfOk result (λ way. slice_get present.now way.item ≡ Some (first (fields_of row.now))) }
    ensures disk { IfOk result (λ way. IsSomeAnd (slice_get disks.now.disks.items way.disk.0) (λ d. d.name ≡ second (fields_of row.now))) }
    ensures different { IfOk result (λ _. AreDifferent present.now) }
    ensures sound { IfOk result (λ _. (names : List (List ℕ)) → AreSeen present.now next.now seen names → (w : Why) → ¬ (NextRowFault disks.now.disks.items present.now names (fields_of row.now) w)) }
    ensures cause { IfErr result (λ w. (names : List (List ℕ)) → AreSeen present.now next.now seen names → IsFirstCause (NextRowFault disks.now.disks.items present.now names (fields_of row.now)) w) }
{
    if seen >= MAX_ITEMS {
        return Err(Why::TooManyRows);
    }
    if row.len() != 2 {
        return Err(Why::BadWidth);
    }
    let Some(name) = Name::read(field(row, 0)) else {
        return Err(Why::BadName);
    };
    let Some(disk) = Name::read(field(row, 1)) else {
        return Err(Why::BadName);
    };
    let found = present.find_with_hint(&name, seen);
    if has_next(next, found) {
        return Err(Why::DuplicateItem);
    }
    let Some(place) = disks.names.find(&disk) else {
        return Err(Why::UnknownDisk);
    };
    let Some(item) = found else {
        return Err(Why::NotInNow);
    };
    Ok(Way {
        item,
        disk: DiskId(place as u32),
    })
}
