//! The disks file.
ghost use Rattle.std.specs.Prelude.{◌≡◌, ◌≤◌, ◌++◌, ◌↔◌, ◌∷◌, [], Contains, IfErr, IfOk, IfSome, IsSome, IsTrue, List, OnOk, length, map, ℕ};
ghost use Rattle.csv.specs.Records.{fields_of};
ghost use Rattle.mig_base.specs.Refusals.{DisksRowFault, HasNumbers, IsFirstCause, disk_width};
ghost use Rattle.mig_base.specs.Rows.{disk_of, disks_of, has_sides};
ghost use Rattle.mig_base.specs.declared.faults.FileKind.TheVariants as file;
ghost use Rattle.mig_base.specs.declared.faults.Why.{Why};
ghost use Rattle.mig_csv.specs.Listed.{ListsDisks};
ghost use Rattle.mig_csv.specs.Numbers.{AreInRange, AreNumbersOf, limits_by};
ghost use Rattle.mig_csv.specs.Opened.{IsOpened};
ghost use Rattle.mig_csv.specs.Refusals.{DisksFault, IsRefusalOf};

use crate::errors::{InputError, refused};
use crate::files::{has_sides, read_header};
use crate::rows::{Records, field};
use csv::ByteRecord;
use mig_base::{Disk, FileKind, Limits, MAX_DISKS, MAX_LIMIT, MAX_SLOTS, Name, Why, read_digits};
use mig_keys::KeyTable;
use std::alloc::{AllocError, Global};

/// The disks of a disks file, and their names.
#[derive(Drop)]
pub(crate) struct DiskList {
    pub(crate) names: KeyTable<Name>,
    pub(crate) disks: Vec<Disk>,
}

impl DiskList {
    /// No disks.
    fn new(alloc: Global) -> DiskList
        ensures names { result.names ≡ [] }
        ensures disks { result.disks.items ≡ [] }
    {
        DiskList {
            names: KeyTable::new(alloc),
            disks: Vec::new(alloc),
        }
    }

    /// Adds a disk of a new name. An error is want of memory.
    fn push(&mut self, disk: Disk) -> Result<(), AllocError>
        requires { ¬ (Contains self.old.names disk.name) }
        ensures names { OnOk result (self.new.names ≡ self.old.names ++ disk.name ∷ []) }
        ensures disks { OnOk result (self.new.disks.items ≡ self.old.disks.items ++ disk ∷ []) }
    {
        self.names.push(disk.name)?;
        self.disks.push(disk)?;
        Ok(())
    }
}

/// The disks that a disks file lists, in its order, or the first fault of the file.
#[inline(never)]
pub(crate) fn read_disks(alloc: Global, bytes: &[u8]) -> Result<DiskList, InputError>
    ensures value { IfOk result (λ r. r.disks.items ≡ disks_of bytes.now) }
    ensures few { IfOk result (λ r. length r.disks.items ≤ MAX_DISKS) }
    ensures names { IfOk result (λ r. r.names ≡ map (λ d. d.name) r.disks.items) }
    ensures sound { IfOk result (λ _. (n : ℕ) (w : Why) → ¬ (DisksFault bytes.now n w)) }
    ensures fault { IfErr result (IsRefusalOf file.Disks (DisksFault bytes.now)) }
{
    let mut row = ByteRecord::new(alloc);
    let mut records = Records::of(alloc, bytes);
    read_header(FileKind::Disks, bytes, &mut records, &mut row)?;
    let sides = has_sides(&row);
    let mut listed = DiskList::new(alloc);
    add_disks(sides, &mut records, &mut row, &mut listed)?;
    Ok(listed)
}

/// Adds the disks that the rows after the header of a disks file list to a list without disks. `sides` says whether a
/// row has two limits, and `row` is a buffer.
fn add_disks(
    sides: bool,
    records: &mut Records<'_>,
    row: &mut ByteRecord,
    listed: &mut DiskList,
) -> Result<(), InputError>
    requires opened { (bytes : List ℕ) × IsOpened file.Disks bytes records.old × (sides ≡ has_sides bytes) }
    requires no_names { listed.old.names ≡ [] }
    requires no_disks { listed.old.disks.items ≡ [] }
    ensures listed { IfOk result (λ _. (bytes : List ℕ) → IsOpened file.Disks bytes records.old → sides ≡ has_sides bytes → ListsDisks bytes listed.new) }
    ensures fault { IfErr result (λ e. (bytes : List ℕ) → IsOpened file.Disks bytes records.old → sides ≡ has_sides bytes → IsRefusalOf file.Disks (DisksFault bytes) e) }
{
    'rows: while records.read(row)? {
        match read_disk(sides, &listed.names, row) {
            Ok(disk) => {
                if listed.push(disk).is_err() {
                    return Err(InputError::Memory);
                }
            }
            Err(why) => return Err(refused(FileKind::Disks, listed.names.len() as u32 + 1, why)),
        }
    }
    Ok(())
}

/// The numbers of a row: its two limits, or its one limit twice, and its slots.
#[derive(Clone, Copy)]
struct Numbers {
    outgoing: u64,
    incoming: u64,
    slots: u64,
}

impl Numbers {
    /// Whether the limits and the slots are in range.
    fn are_in_range(&self) -> bool
        ensures { IsTrue result ↔ AreInRange self.now }
    {
        let most = u64::from(MAX_LIMIT);
        let outgoing = 1 <= self.outgoing && self.outgoing <= most;
        let incoming = 1 <= self.incoming && self.incoming <= most;
        outgoing && incoming && 1 <= self.slots && self.slots <= u64::from(MAX_SLOTS)
    }

    /// The limits, of which there are two or one.
    fn limits(&self, sides: bool) -> Limits
        requires { AreInRange self.now }
        ensures { result ≡ limits_by sides self.now }
    {
        if sides {
            Limits::Split {
                outgoing: self.outgoing as u32,
                incoming: self.incoming as u32,
            }
        } else {
            Limits::Joint {
                limit: self.outgoing as u32,
            }
        }
    }
}

/// How many fields a row has.
fn width(sides: bool) -> usize
    ensures { result ≡ disk_width sides }
{
    if sides { 4 } else { 3 }
}

/// The numbers of a row, where its fields after the name are numbers.
fn read_numbers(sides: bool, row: &ByteRecord) -> Option<Numbers>
    ensures valid { IsSome result ↔ HasNumbers sides (fields_of row.now) }
    ensures value { IfSome result (AreNumbersOf sides (fields_of row.now)) }
{
    let outgoing = read_digits(field(row, 1))?;
    let next = read_digits(field(row, 2))?;
    if !sides {
        return Some(Numbers {
            outgoing,
            incoming: outgoing,
            slots: next,
        });
    }
    let slots = read_digits(field(row, 3))?;
    Some(Numbers {
        outgoing,
        incoming: next,
        slots,
    })
}

/// The disk that a row lists, or the first cause that holds of it after rows of these names.
fn read_disk(sides: bool, names: &KeyTable<Name>, row: &ByteRecord) -> Result<Disk, Why>
    ensures value { IfOk result (λ d. d ≡ disk_of sides (fields_of row.now)) }
    ensures sound { IfOk result (λ _. (w : Why) → ¬ (DisksRowFault sides names.now (fields_of row.now) w)) }
    ensures cause { IfErr result (IsFirstCause (DisksRowFault sides names.now (fields_of row.now))) }
{
    if names.len() >= MAX_DISKS {
        return Err(Why::TooManyRows);
    }
    if row.len() != width(sides) {
        return Err(Why::BadWidth);
    }
    let Some(name) = Name::read(field(row, 0)) else {
        return Err(Why::BadName);
    };
    let Some(numbers) = read_numbers(sides, row) else {
        return Err(Why::BadNumber);
    };
    if !numbers.are_in_range() {
        return Err(Why::OutOfRange);
    }
    if names.find(&name).is_some() {
        return Err(Why::DuplicateDisk);
    }
    Ok(Disk {
        name,
        limits: numbers.limits(sides),
        slots: numbers.slots as u32,
    })
}
