//! The now file: the items and where they are.
ghost use Rattle.std.specs.Prelude.{◌≡◌, ◌≤◌, ◌++◌, ◌∷◌, [], All, Contains, IfErr, IfOk, List, OnOk, length, map, ℕ};
ghost use Rattle.std.specs.List.{AllZip};
ghost use Rattle.csv.specs.Records.{fields_of};
ghost use Rattle.mig_base.specs.Refusals.{IsFirstCause, IsSpotNamed, NowRowFault};
ghost use Rattle.mig_base.specs.InputLists.{IsSpotOf};
ghost use Rattle.mig_base.specs.Rows.{first, rows_of};
ghost use Rattle.mig_base.specs.declared.faults.FileKind.TheVariants as file;
ghost use Rattle.mig_base.specs.declared.faults.Why.{Why};
ghost use Rattle.mig_csv.specs.Places.{place_in};
ghost use Rattle.mig_csv.specs.Opened.{IsOpened};
ghost use Rattle.mig_csv.specs.Listed.{ListsItems};
ghost use Rattle.mig_csv.specs.Refusals.{IsRefusalOf, NowFault};

use crate::disks::DiskList;
use crate::errors::{InputError, refused};
use crate::files::read_header;
use crate::rows::{Records, field};
use csv::ByteRecord;
use mig_base::{DiskId, FileKind, MAX_DISKS, MAX_ITEMS, Name, Spot, Why, read_digits};
use mig_keys::KeyTable;
use std::alloc::{AllocError, Global};

/// An item and where it is.
#[derive(Clone, Copy)]
struct Placed {
    name: Name,
    spot: Spot,
}

/// The items that rows of a now file list, and their spots.
#[derive(Drop)]
pub(crate) struct PlacedItems {
    pub(crate) names: KeyTable<Name>,
    taken: KeyTable<Spot>,
    pub(crate) items: Vec<Name>,
    pub(crate) spots: Vec<Spot>,
}

impl PlacedItems {
    /// No items, and tables with room for so many. An error is want of memory.
    fn with_capacity(alloc: Global, rows: usize) -> Result<PlacedItems, AllocError>
        ensures names { IfOk result (λ r. r.names ≡ []) }
        ensures taken { IfOk result (λ r. r.taken ≡ []) }
        ensures items { IfOk result (λ r. r.items.items ≡ []) }
        ensures spots { IfOk result (λ r. r.spots.items ≡ []) }
    {
        Ok(PlacedItems {
            names: KeyTable::with_capacity(alloc, rows)?,
            taken: KeyTable::with_capacity(alloc, rows)?,
            items: Vec::new(alloc),
            spots: Vec::new(alloc),
        })
    }

    /// Adds a new item, at a spot that is not taken. An error is want of memory.
    fn push(&mut self, found: Placed) -> Result<(), AllocError>
        requires new_name { ¬ (Contains self.old.names found.name) }
        requires free { ¬ (Contains self.old.taken found.spot) }
        ensures names { OnOk result (self.new.names ≡ self.old.names ++ found.name ∷ []) }
        ensures taken { OnOk result (self.new.taken ≡ self.old.taken ++ found.spot ∷ []) }
        ensures items { OnOk result (self.new.items.items ≡ self.old.items.items ++ found.name ∷ []) }
        ensures spots { OnOk result (self.new.spots.items ≡ self.old.spots.items ++ found.spot ∷ []) }
    {
        self.names.push(found.name)?;
        self.taken.push(found.spot)?;
        self.items.push(found.name)?;
        self.spots.push(found.spot)?;
        Ok(())
    }
}

/// The items that a now file lists, in its order, or the first fault of the file.
#[inline(never)]
pub(crate) fn read_now(
    alloc: Global,
    bytes: &[u8],
    disks: &DiskList,
) -> Result<PlacedItems, InputError>
    requires named { disks.now.names ≡ map (λ d. d.name) disks.now.disks.items }
    requires few { length disks.now.disks.items ≤ MAX_DISKS }
    ensures items { IfOk result (λ r. r.items.items ≡ map first (rows_of bytes.now)) }
    ensures few { IfOk result (λ r. length r.items.items ≤ MAX_ITEMS) }
    ensures names { IfOk result (λ r. r.items.items ≡ r.names) }
    ensures spots { IfOk result (λ r. AllZip (IsSpotNamed disks.now.disks.items) (rows_of bytes.now) r.spots.items) }
    ensures on_disks { IfOk result (λ r. All (IsSpotOf disks.now.disks.items) r.spots.items) }
    ensures sound { IfOk result (λ _. (n : ℕ) (w : Why) → ¬ (NowFault disks.now.disks.items bytes.now n w)) }
    ensures fault { IfErr result (IsRefusalOf file.Now (NowFault disks.now.disks.items bytes.now)) }
{
    let mut row = ByteRecord::new(alloc);
    let mut records = Records::of(alloc, bytes);
    read_header(FileKind::Now, bytes, &mut records, &mut row)?;
    let Ok(mut layout) = PlacedItems::with_capacity(alloc, likely_rows(bytes.len())) else {
        return Err(InputError::Memory);
    };
    add_items(&mut records, &mut row, disks, &mut layout)?;
    Ok(layout)
}

/// Adds the items that the rows after the header of a now file list to a layout without items. `row` is a buffer.
fn add_items(
    records: &mut Records<'_>,
    row: &mut ByteRecord,
    disks: &DiskList,
    layout: &mut PlacedItems,
) -> Result<(), InputError>
    requires named { disks.now.names ≡ map (λ d. d.name) disks.now.disks.items }
    requires few { length disks.now.disks.items ≤ MAX_DISKS }
    requires opened { (bytes : List ℕ) × IsOpened file.Now bytes records.old }
    requires no_names { layout.old.names ≡ [] }
    requires no_taken { layout.old.taken ≡ [] }
    requires no_items { layout.old.items.items ≡ [] }
    requires no_spots { layout.old.spots.items ≡ [] }
    ensures listed { IfOk result (λ _. (bytes : List ℕ) → IsOpened file.Now bytes records.old → ListsItems bytes disks.now.disks.items layout.new) }
    ensures fault { IfErr result (λ e. (bytes : List ℕ) → IsOpened file.Now bytes records.old → IsRefusalOf file.Now (NowFault disks.now.disks.items bytes) e) }
{
    'rows: while records.read(row)? {
        match read_item(disks, &layout.names, &layout.taken, row) {
            Ok(found) => {
                if layout.push(found).is_err() {
                    return Err(InputError::Memory);
                }
            }
            Err(why) => return Err(refused(FileKind::Now, layout.names.len() as u32 + 1, why)),
        }
    }
    Ok(())
}

/// How many rows a now file of so many bytes may well have: few have rows of fewer than eight.
fn likely_rows(bytes: usize) -> usize
    ensures { result ≤ MAX_ITEMS }
{
    (bytes / 8).min(MAX_ITEMS)
}

/// The item that a row lists and its spot, or the first cause that holds of the row after rows of these items and spots.
fn read_item(
    disks: &DiskList,
    items: &KeyTable<Name>,
    taken: &KeyTable<Spot>,
    row: &ByteRecord,
) -> Result<Placed, Why>
    requires named { disks.now.names ≡ map (λ d. d.name) disks.now.disks.items }
    requires few { length disks.now.disks.items ≤ MAX_DISKS }
    requires on_disks { All (IsSpotOf disks.now.disks.items) taken.now }
    ensures item { IfOk result (λ p. p.name ≡ first (fields_of row.now)) }
    ensures spot { IfOk result (λ p. IsSpotNamed disks.now.disks.items (fields_of row.now) p.spot) }
    ensures on_disk { IfOk result (λ p. IsSpotOf disks.now.disks.items p.spot) }
    ensures sound { IfOk result (λ _. (w : Why) → ¬ (NowRowFault disks.now.disks.items items.now (map (place_in disks.now.disks.items) taken.now) (fields_of row.now) w)) }
    ensures cause { IfErr result (IsFirstCause (NowRowFault disks.now.disks.items items.now (map (place_in disks.now.disks.items) taken.now) (fields_of row.now))) }
{
    if items.len() >= MAX_ITEMS {
        return Err(Why::TooManyRows);
    }
    if row.len() != 3 {
        return Err(Why::BadWidth);
    }
    let Some(name) = Name::read(field(row, 0)) else {
        return Err(Why::BadName);
    };
    let Some(disk) = Name::read(field(row, 1)) else {
        return Err(Why::BadName);
    };
    let Some(slot) = read_digits(field(row, 2)) else {
        return Err(Why::BadNumber);
    };
    if items.find(&name).is_some() {
        return Err(Why::DuplicateItem);
    }
    let Some(place) = disks.names.find(&disk) else {
        return Err(Why::UnknownDisk);
    };
    if slot >= u64::from(disks.disks[place].slots) {
        return Err(Why::SlotTooHigh);
    }
    let spot = Spot {
        disk: DiskId(place as u32),
        slot: slot as u32,
    };
    if taken.contains(&spot) {
        return Err(Why::SlotTaken);
    }
    Ok(Placed { name, spot })
}
