//! What was expected in a row that was refused.

use crate::excerpts::Piece::Excerpt;
use crate::excerpts::{Said, say};
use crate::files::{Given, Typed};
use crate::headers::without_empty;
use crate::names::say_no_name;
use crate::rows::{Key, field, number_at, width};
use mig_base::{FileKind, MAX_DISKS, MAX_ITEMS, MAX_LIMIT, MAX_SLOTS, Name, Why, read_digits};

/// How many fields a row has, and what they are, in their order. A disks file with `sides` has two limits in a row.
fn fields_of(file: FileKind, sides: bool) -> (usize, &'static str) {
    match file {
        FileKind::Disks if sides => (
            4,
            "the disk's name, its outgoing limit, its incoming limit and its number of slots",
        ),
        FileKind::Disks => (3, "the disk's name, its limit and its number of slots"),
        FileKind::Now => (3, "the item's name, its disk and its slot"),
        FileKind::Next => (2, "the item's name and its next disk"),
    }
}

/// What is wrong with a row that a spreadsheet or a person wrote in another form, whatever it is refused for.
fn other_form(row: &[u8]) -> Option<&'static str> {
    let quotes = row.iter().filter(|b| **b == b'"').count();
    match row {
        _ if quotes % 2 == 1 => Some("a double quote is opened here and not closed"),
        _ if without_empty(row).is_empty() => {
            Some("an empty row, as spreadsheets write them: delete it")
        }
        _ if row.starts_with(b"#") => Some("there are no comments: remove this line"),
        _ if row.contains(&b',') => None,
        _ if row.contains(&b';') => {
            Some("the fields are separated by semicolons; separate by commas")
        }
        _ if row.contains(&b'\t') => Some("the fields are separated by tabs; separate by commas"),
        _ => None,
    }
}

/// What was expected in a row, or of the files as a whole.
pub(crate) fn say_cause(
    f: &mut String,
    given: &Given<'_>,
    file: FileKind,
    typed: &Typed<'_>,
    why: &Why,
    row: &[u8],
) -> Said {
    let sides = file == FileKind::Disks && typed.has_sides();
    match (why, other_form(row)) {
        (Why::BadWidth | Why::BadName, Some(form)) => f.push_str(form),
        (Why::BadWidth, None) => say_width(f, file, sides, row),
        (Why::BadName, None) => say_name(f, file, row),
        (Why::BadNumber, _) => say_number(f, file, sides, row),
        (Why::OutOfRange, _) => say_range(f, sides, row),
        (Why::DuplicateDisk | Why::DuplicateItem, _) => say_twice(f, typed, row),
        (Why::UnknownDisk, _) => given.say_unlisted(f, field(row, 1)),
        (Why::SlotTooHigh, _) => say_slot(f, given, row),
        (Why::SlotTaken, _) => say_taken(f, typed, row),
        (Why::TooManyRows, _) if file == FileKind::Disks =>
            say!(f; "at most {} disks are planned at once", MAX_DISKS),
        (Why::TooManyRows, _) => say!(f; "at most {} items are planned at once", MAX_ITEMS),
        (Why::NotInNow, _) =>
            say!(f; "{} does not list this item: list there where it is, or remove this line", given.shown("NOW")),
        (Why::NotInNext, _) =>
            say!(f; "{} does not list this item: list there the disk where it is to be, the same one where it stays", given.shown("NEXT")),
        (Why::NoRoom { needs, slots, .. }, _) => say_room(f, given, *needs, *slots),
        _ => Ok(()),
    }
}

/// A row with too few or too many fields.
fn say_width(f: &mut String, file: FileKind, sides: bool, row: &[u8]) -> Said {
    let (wanted, names) = fields_of(file, sides);
    let help = if width(without_empty(row)) == wanted {
        ": delete the empty columns at its end"
    } else {
        ""
    };
    say!(f; "a row has {} fields, separated by commas: {}; here are {}{}", wanted, names, width(row), help)
}

/// A field that names a disk or an item, and is no name.
fn say_name(f: &mut String, file: FileKind, row: &[u8]) -> Said {
    let first = field(row, 0);
    match file {
        FileKind::Disks => say_no_name(f, "disk", first),
        _ if Name::read(first).is_none() => say_no_name(f, "item", first),
        _ => say_no_name(f, "disk", field(row, 1)),
    }
}

/// What the field at a place of a row is.
fn what_at(file: FileKind, sides: bool, place: usize) -> &'static str {
    match (file, sides, place) {
        (FileKind::Disks, false, 1) => "limit",
        (FileKind::Disks, true, 1) => "outgoing limit",
        (FileKind::Disks, true, 2) => "incoming limit",
        (FileKind::Disks, _, _) => "number of slots",
        _ => "slot",
    }
}

/// The first place from this one on whose field is no number; this one where all are.
fn wrong_place(row: &[u8], first: usize) -> usize {
    for place in first..4 {
        if read_digits(field(row, place)).is_none() {
            return place;
        }
    }
    first
}

/// A field that should be a number, and is none.
fn say_number(f: &mut String, file: FileKind, sides: bool, row: &[u8]) -> Said {
    let first = if file == FileKind::Disks { 1 } else { 2 };
    let place = wrong_place(row, first);
    let what = what_at(file, sides, place);
    let wrong = field(row, place);
    if wrong.is_empty() {
        return say!(f; "the {} is empty; 1 to 10 digits are wanted", what);
    }
    say!(f; "the {} is `{}`; 1 to 10 digits are wanted, and nothing else", what, Excerpt(wrong))
}

/// A limit or a number of slots out of range.
fn say_range(f: &mut String, sides: bool, row: &[u8]) -> Said {
    let slots_at = if sides { 3 } else { 2 };
    for place in 1..slots_at {
        let limit = number_at(row, place);
        if limit < 1 || limit > u64::from(MAX_LIMIT) {
            let what = what_at(FileKind::Disks, sides, place);
            return say!(f; "the {} is {}, and must be 1 to {}; a greater one is written as {}", what, limit, MAX_LIMIT, MAX_LIMIT);
        }
    }
    say!(f; "the number of slots is {}, and must be 1 to {}", number_at(row, slots_at), MAX_SLOTS)
}

/// A disk or an item that an earlier row of the file has.
fn say_twice(f: &mut String, typed: &Typed<'_>, row: &[u8]) -> Said {
    let name = field(row, 0);
    say!(f; "`{}` is listed before, in line {}", Excerpt(name), typed.listed(&Key::First(name)).line)
}

/// A slot that isn't below the disk's slots.
fn say_slot(f: &mut String, given: &Given<'_>, row: &[u8]) -> Said {
    let name = field(row, 1);
    let disk = Excerpt(name);
    let word = given.shown("DISKS");
    match given.slots_of(name) {
        Some(slots) =>
            say!(f; "slots count from 0: the last slot of `{}`, which has {} by {}, is {}", disk, slots, word, slots.saturating_sub(1)),
        None => say!(f; "slots count from 0, and `{}` has fewer", disk),
    }
}

/// A spot that an earlier row of the file of now has.
fn say_taken(f: &mut String, now: &Typed<'_>, row: &[u8]) -> Said {
    let disk = field(row, 1);
    let slot = number_at(row, 2);
    let line = now.listed(&Key::Spot { disk, slot }).line;
    say!(f; "line {} has slot {} of `{}`: a slot holds one item", line, slot, Excerpt(disk))
}

/// A disk without room for what comes to it.
fn say_room(f: &mut String, given: &Given<'_>, needs: u32, slots: u32) -> Said {
    say!(f; "{} slots are wanted of the {}: one for each item that is on the disk now, and one for each that comes. ", needs, slots)?;
    f.push_str("A slot that an item leaves is not counted as room: ")?;
    let command = given.command();
    match command {
        "after" | "move" | "resume" | "halt" =>
            say!(f; "a plan of `plan-tight` is for `{}-tight`", command),
        _ => f.push_str(
            "add slots, or let `plan-tight` plan it, which moves one item at a time and parks some on other disks where it must",
        ),
    }
}
