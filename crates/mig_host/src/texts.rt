//! How files are called, and refusals told.
ghost use Rattle.std.specs.Prelude.{◌≡◌, IfOk, string_bytes};
ghost use Rattle.mig_host.specs.Systems.{disk_path};

use crate::failures::too_many_open;
use mig_base::{Cell, Name};
use mig_calls::{Place, Refusal};
use std::alloc::Global;
use std::fmt::{self, Display, Formatter};
use std::io::{self, Error, ErrorKind};

/// A name as text.
#[derive(Clone, Copy)]
struct Called<'a>(&'a Name);

impl<'a> Display for Called<'a> {
    fn fmt<W: fmt::Write>(&self, f: &mut Formatter<W>) -> fmt::Result {
        match std::str::from_utf8(self.0.bytes()) {
            Ok(name) => f.write_str(name),
            Err(_) => Err(fmt::Error),
        }
    }
}

/// The file of a disk, as it is called in the working folder.
#[derive(Clone, Copy)]
pub struct DiskFile<'a>(pub &'a Name);

impl<'a> Display for DiskFile<'a> {
    fn fmt<W: fmt::Write>(&self, f: &mut Formatter<W>) -> fmt::Result {
        write!(f, "{}.disk", Called(self.0))
    }
}

/// The path of a disk's file.
pub fn path_of(alloc: Global, name: &Name) -> io::Result<String>
    ensures { IfOk result (λ path. string_bytes path ≡ disk_path name.now) }
{
    let Ok(name) = std::str::from_utf8(name.bytes()) else {
        return Err(ErrorKind::InvalidFilename.into());
    };
    let mut path = String::with_capacity(alloc, name.len() + 5)?;
    path.push_str(name)?;
    path.push_str(".disk")?;
    Ok(path)
}

/// The journal's file, as it is called there.
pub const JOURNAL: &str = "journal.mig";

/// A file of the store, or the folder.
#[derive(Clone, Copy)]
pub struct FileOf<'a>(pub &'a Option<Place>);

impl<'a> Display for FileOf<'a> {
    fn fmt<W: fmt::Write>(&self, f: &mut Formatter<W>) -> fmt::Result {
        match self.0 {
            Some(Place::Disk(name)) => write!(f, "{}", DiskFile(name)),
            Some(Place::Journal) => f.write_str(JOURNAL),
            None => f.write_str("."),
        }
    }
}

/// A slot, and the file that it lies in.
#[derive(Clone, Copy)]
struct SlotOf<'a>(&'a Cell);

impl<'a> Display for SlotOf<'a> {
    fn fmt<W: fmt::Write>(&self, f: &mut Formatter<W>) -> fmt::Result {
        match self.0 {
            Cell::Slot { disk, slot } => write!(f, "{}: slot {slot}", DiskFile(disk)),
            _ => f.write_str(JOURNAL),
        }
    }
}

/// What a device is that ends before a slot does.
const TOO_SHORT: &str = "the device is too short for its slots";

/// What to look at where a slot is not as it should be.
const LOOK: &str = "is this the right disk, and is it mounted?";

/// The same where the disk's file isn't there.
const MOUNTED: &str = "is the disk mounted?";

/// Why the store refuses.
#[derive(Clone, Copy)]
pub struct RefusalText<'a>(pub &'a Refusal);

impl<'a> Display for RefusalText<'a> {
    fn fmt<W: fmt::Write>(&self, f: &mut Formatter<W>) -> fmt::Result {
        match self.0 {
            Refusal::Memory { place } => write_kind(f, place, ErrorKind::OutOfMemory),
            Refusal::AfterSync => f.write_str("nothing is done after a sync that failed"),
            Refusal::Interrupted { place } => write_kind(f, place, ErrorKind::TimedOut),
            Refusal::Full { place } => write_error(f, &Some(*place), too_many_open()),
            Refusal::TooShort { slot } => write_too_short(f, slot),
            Refusal::NotHeld { slot, item } => write_item(f, slot, HOLD, item, "and doesn't", LOOK),
            Refusal::NoDisk { slot, item } => write_item(f, slot, HOLD, item, ABSENT, MOUNTED),
            Refusal::Cut { slot, item } => write_item(f, slot, HOLD, item, CUT, LOOK),
            Refusal::Held { slot, item } => write_item(f, slot, FREE, item, SEEN, LOOK),
            Refusal::Differs { slot, other, item } => write_differing(f, slot, other, item),
            Refusal::NoItem { slot } => write_no_item(f, slot),
        }
    }
}

/// What a slot should be, and what it is, each around the name of an item.
const HOLD: &str = "should hold";

const ABSENT: &str = "and the file isn't there";

const CUT: &str = "and the file ends within it";

const FREE: &str = "is to be free, and holds";

const SEEN: &str = "which was seen nowhere else";

/// What failed, and why.
pub fn write_error<W: fmt::Write>(
    f: &mut Formatter<W>,
    place: &Option<Place>,
    error: Error,
) -> fmt::Result {
    write!(f, "{}: {error}", FileOf(place))
}

fn write_kind<W: fmt::Write>(f: &mut Formatter<W>, place: &Place, kind: ErrorKind) -> fmt::Result {
    write_error(f, &Some(*place), kind.into())
}

/// What a slot should be, the item, what is so instead, and what to look at.
fn write_item<W: fmt::Write>(
    f: &mut Formatter<W>,
    slot: &Cell,
    should: &str,
    item: &Name,
    what: &str,
    look: &str,
) -> fmt::Result {
    let (slot, item) = (SlotOf(slot), Called(item));
    write!(f, "{slot} {should} item {item}, {what}: {look}")
}

fn write_differing<W: fmt::Write>(
    f: &mut Formatter<W>,
    slot: &Cell,
    other: &Cell,
    item: &Name,
) -> fmt::Result {
    let (slot, other, item) = (SlotOf(slot), SlotOf(other), Called(item));
    write!(
        f,
        "{slot} was copied to {other}, and both hold item {item}, but differ: which of them is right?"
    )
}

fn write_no_item<W: fmt::Write>(f: &mut Formatter<W>, slot: &Cell) -> fmt::Result {
    let slot = SlotOf(slot);
    write!(f, "{slot} is to be copied, and holds no item: {LOOK}")
}

/// The slot's file is told, and not the slot.
fn write_too_short<W: fmt::Write>(f: &mut Formatter<W>, slot: &Cell) -> fmt::Result {
    let place = match slot {
        Cell::Slot { disk, .. } => Place::Disk(*disk),
        _ => Place::Journal,
    };
    write!(f, "{}: {TOO_SHORT}", FileOf(&Some(place)))
}
