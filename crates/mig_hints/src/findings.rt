//! What is said of what was found wrong with the files.

use crate::blames::say_blame;
use crate::causes::say_cause;
use crate::excerpts::Piece::Excerpt;
use crate::excerpts::{Said, point, point_whole, say};
use crate::files::Given;
use crate::headers::{role_of, say_no_header};
use crate::rows::{Key, NO_ROW};
use crate::texts::say_text;
use mig_base::{FileKind, MAX_FILE_BYTES, Name, Why};
use mig_words::InputRefusal;

/// The bytes of a name, if there is one.
fn bytes_of(name: &Option<Name>) -> &[u8] {
    match name {
        Some(name) => name.bytes(),
        None => &[],
    }
}

/// What is said of what was found.
pub(crate) fn say_finding(f: &mut String, given: &Given<'_>, finding: &InputRefusal) -> Said {
    match finding {
        InputRefusal::Blamed { blame, name } => say_blame(f, given, blame, bytes_of(name)),
        InputRefusal::Refused { file, row, why } => say_refused(f, given, *file, *row, why),
        InputRefusal::NotSpelled { text, line } => say_text(f, given, text, *line),
        InputRefusal::TooLarge { shifts: _ } => f.push_str(
            "migrate: a drill takes a plan of at most 256 shifts; `rehearse` and `check` take larger ones",
        ),
        InputRefusal::TooMany { disk, needs, slots } => {
            say_too_many(f, given, bytes_of(disk), *needs, *slots)
        }
        InputRefusal::NoFreeSlot => f.push_str(
            "migrate: each slot of each disk has an item in it, so no item can be moved, in whatever order\n\
             migrate: one free slot on any disk will do: add a slot or a disk, or take an item away",
        ),
        InputRefusal::NoDisk { name } => say_no_disk(f, given, name),
        InputRefusal::NoRoom { items, free } => say_no_room(f, given, *items, *free),
    }
}

fn say_too_many(f: &mut String, given: &Given<'_>, disk: &[u8], needs: u32, slots: u32) -> Said {
    point_disk(f, given, disk)?;
    say!(f; "{} gives this disk {} items, and it has {} slots: ", given.shown("NEXT"), needs, slots)?;
    f.push_str("no plan helps, so add slots, or give it fewer items")
}

fn say_no_room(f: &mut String, given: &Given<'_>, items: u32, free: u32) -> Said {
    point_disk(f, given, given.word("NAME").unwrap_or("").as_bytes())?;
    say!(f; "{} has {} items on this disk, and leaves {} slots of the other disks free: ", given.shown("NOW"), items, free)?;
    f.push_str("add slots or a disk, or take items away")
}

/// Which line of the three files is refused, and what was expected there.
fn say_refused(f: &mut String, given: &Given<'_>, file: FileKind, number: u32, why: &Why) -> Said {
    let Some(typed) = given.file(role_of(file)) else {
        return Ok(());
    };
    if *why == Why::TooLong {
        point_whole(f, typed.word)?;
        return say!(f; "the file has more than {} bytes", MAX_FILE_BYTES);
    }
    let row = typed.row(number);
    match row {
        Some(row) => point(f, typed.word, row.line, row.text)?,
        None => point_whole(f, typed.word)?,
    }
    match why {
        Why::BadHeader => say_no_header(f, file, &typed),
        _ => say_cause(f, given, file, &typed, why, row.unwrap_or(NO_ROW).text),
    }
}

/// Points to the row of a disk.
fn point_disk(f: &mut String, given: &Given<'_>, disk: &[u8]) -> Said {
    if let Some(row) = given.find("DISKS", &Key::First(disk)) {
        return point(f, given.word("DISKS").unwrap_or(""), row.line, row.text);
    }
    say!(f; "migrate: disk `{}`: ", Excerpt(disk))
}

/// No disk has the name of the one that is to be emptied.
fn say_no_disk(f: &mut String, given: &Given<'_>, name: &Name) -> Said {
    let next = given.word("NEXT").unwrap_or("").as_bytes();
    f.push_str("migrate: ")?;
    given.say_unlisted(f, name.bytes())?;
    if given.find("DISKS", &Key::First(next)).is_some() {
        return say!(f; ", and `{}` stands for NEXT: the order is NAME NEXT", Excerpt(next));
    }
    Ok(())
}

/// Which word leads to no file.
pub(crate) fn say_no_file(f: &mut String, given: &Given<'_>, place: usize) -> Said {
    let Some(role) = given.roles().get(place) else {
        return Ok(());
    };
    let word = given.word(role).unwrap_or("");
    let help = match *role {
        _ if word == "-" => "; /dev/stdin reads standard input",
        _ if word.starts_with("-") => "; there are no options",
        "PLAN" | "CERT" if given.command().ends_with("-tight") => "; `plan-tight` makes it",
        "PLAN" | "CERT" => "; `plan` makes it",
        _ => "",
    };
    say!(f; "migrate: {}, the word for {}, leads to no file{}", Excerpt(word.as_bytes()), *role, help)
}
