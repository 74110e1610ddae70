//! Why the first line of a file is no header.

use crate::excerpts::{Said, say};
use crate::files::Typed;
use crate::rows::without_mark;
use mig_base::FileKind;

/// The word that a file is given by.
pub(crate) fn role_of(file: FileKind) -> &'static str {
    match file {
        FileKind::Disks => "DISKS",
        FileKind::Now => "NOW",
        FileKind::Next => "NEXT",
    }
}

/// What the first line of a file may be.
fn headers_of(file: FileKind) -> &'static str {
    match file {
        FileKind::Disks =>
            "disk,limit,slots, or disk,out,in,slots where a disk has an outgoing and an incoming limit",
        FileKind::Now => "item,disk,slot",
        FileKind::Next => "item,disk",
    }
}

/// The header that a line is meant to be: in a disks file the one with as many fields.
fn meant_by(file: FileKind, line: &[u8]) -> &'static str {
    let is_mark = |b: &&u8| matches!(**b, b',' | b';' | b'\t');
    match file {
        FileKind::Disks if line.iter().filter(is_mark).count() == 3 => "disk,out,in,slots",
        FileKind::Disks => "disk,limit,slots",
        _ => headers_of(file),
    }
}

/// Whether a line is the header of a file but for capitals, blanks, quotes, and other marks in the place of commas.
fn is_meant(file: FileKind, line: &[u8]) -> bool {
    let header = meant_by(file, line).as_bytes();
    let mut passed = 0usize;
    for byte in line {
        let plain = match *byte {
            b' ' | b'"' => continue,
            b';' | b'\t' => b',',
            other => other.to_ascii_lowercase(),
        };
        if header.get(passed) != Some(&plain) {
            return false;
        }
        passed = passed.saturating_add(1);
    }
    passed == header.len()
}

/// A row without the empty fields at its end.
pub(crate) fn without_empty(row: &[u8]) -> &[u8] {
    match row.iter().rposition(|b| *b != b',') {
        Some(last) => row.get(..=last).unwrap_or(row),
        None => &[],
    }
}

/// Why the first bytes of a file are no text of rows: UTF-16 is told by its mark, or by one of two bytes that is 0.
fn other_kind(bytes: &[u8]) -> Option<&'static str> {
    match bytes {
        [0xef, 0xbb, 0xbf, ..] => Some(
            "the file begins with two byte order marks; keep one or none",
        ),
        [b'P', b'K', 3, 4, ..] => {
            Some("this is a spreadsheet or an archive, no text; save it as CSV UTF-8")
        }
        [0xff, 0xfe, ..] | [0xfe, 0xff, ..] | [0, (1..), ..] | [(1..), 0, ..] => {
            Some("the file is in UTF-16; save it as CSV UTF-8")
        }
        _ => None,
    }
}

/// What is said where the first row of a file is not its header.
pub(crate) fn say_no_header(f: &mut String, file: FileKind, typed: &Typed<'_>) -> Said {
    match (other_kind(without_mark(typed.bytes)), typed.row(0)) {
        (Some(kind), _) => f.push_str(kind),
        (None, Some(row)) => say_line(f, file, row.text),
        (None, None) => {
            say!(f; "the file is empty; its first line must be {}", headers_of(file))
        }
    }
}

/// Why a line is not the header of a file.
fn say_line(f: &mut String, file: FileKind, line: &[u8]) -> Said {
    for other in &[FileKind::Disks, FileKind::Now, FileKind::Next] {
        if *other != file && is_meant(*other, line) {
            let (here, there, wanted) = (role_of(file), role_of(*other), headers_of(file));
            say!(f; "this is the header of {}, and this word stands for {}, whose header is {}: ", there, here, wanted)?;
            return f.push_str("the words come in the order DISKS NOW NEXT");
        }
    }
    let (fault, wanted) = fault_of(file, line);
    say!(f; "{}{}", fault, wanted)
}

/// What is wrong with a line, and the header that is to be in its place.
fn fault_of(file: FileKind, line: &[u8]) -> (&'static str, &'static str) {
    let wanted = headers_of(file);
    let whole = without_empty(line);
    let has_comma = line.contains(&b',');
    let fault = if line.starts_with(b"sep=") || line.starts_with(b"#") {
        return ("remove this line: the first line must be ", wanted);
    } else if !has_comma && line.contains(&b';') {
        "the fields are separated by semicolons; separate by commas: "
    } else if !has_comma && line.contains(&b'\t') {
        "the fields are separated by tabs; separate by commas: "
    } else if is_meant(file, line) {
        "small letters and no blanks are wanted: "
    } else if whole.len() < line.len() && is_meant(file, whole) {
        "delete the empty columns at its end: the first line must be "
    } else {
        return ("the first line must be ", wanted);
    };
    (fault, meant_by(file, whole))
}
