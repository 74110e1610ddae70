//! The lines of a certificate's text.

use crate::excerpts::Piece::Excerpt;
use crate::excerpts::{Said, say};
use crate::files::Given;
use crate::plans::{count_at, line_at, word_at};
use crate::rows::{Key, number_at};
use crate::texts::after_end;
use mig_base::read_digits;

/// What was expected at a line of a certificate.
pub(crate) fn say_cert_line(f: &mut String, given: &Given<'_>, text: &[u8], number: u32) -> Said {
    let line = line_at(text, number).unwrap_or(&[]);
    match number {
        0 | 1 => say_title(f, given, line),
        2 => f.push_str("wanted is `rounds N`, the number of the plan's rounds"),
        3 => f.push_str("wanted is `quotient N`"),
        4 => f.push_str(
            "wanted is `class even` or `class general`, or `class duplex` where disks have two limits",
        ),
        5 => say_bound(f, given, line),
        _ => f.push_str(member_line(text, number)),
    }
}

/// The first line, which says whether disks have two limits.
fn say_title(f: &mut String, given: &Given<'_>, line: &[u8]) -> Said {
    let (made, has) = match (given.file("DISKS"), line) {
        (Some(it), b"migration-certificate 1") if it.has_sides() => ("joint limits, one", "two"),
        (Some(it), b"migration-certificate 2") if !it.has_sides() => ("split limits, two", "one"),
        _ => return f.push_str(
            "a certificate begins with the line `migration-certificate 1`, or `migration-certificate 2` where disks have two limits: is this the file of CERT?",
        ),
    };
    say!(f; "this certificate was made for {} for each disk, and {} has {} for each: plan again", made, given.shown("DISKS"), has)
}

/// The line of the bound, which may name a disk and its limit.
fn say_bound(f: &mut String, given: &Given<'_>, line: &[u8]) -> Said {
    let Some((there, listed)) = limits_of(given, line) else {
        return f.push_str(
            "wanted is `bound nothing`, `bound disk NAME LOAD LIMIT VALUE` with the disk's limit, or `bound set COUNT INSIDE VALUE`; where disks have two limits `bound nothing`, or `bound side NAME out LOAD LIMIT VALUE` or the same with `in`",
        );
    };
    let (name, disks) = (Excerpt(word_at(line, 2)), given.shown("DISKS"));
    say!(f; "the limit of `{}` is {} here, and {} in {}: was it changed since `plan`? Plan again", name, there, listed, disks)
}

/// The limit in the line of a bound and that in the file of disks, where they are two.
fn limits_of(given: &Given<'_>, line: &[u8]) -> Option<(u64, u64)> {
    let disks = given.file("DISKS")?;
    let (place, last) = match (word_at(line, 1), word_at(line, 3), disks.has_sides()) {
        (b"disk", _, false) => (1, 5),
        (b"side", b"out", true) => (1, 6),
        (b"side", b"in", true) => (2, 6),
        _ => return None,
    };
    if word_at(line, last).is_empty() {
        return None;
    }
    let there = read_digits(word_at(line, last - 1))?;
    let listed = number_at(disks.find(&Key::First(word_at(line, 2)))?.text, place);
    (there != listed).then_some((there, listed))
}

/// What was expected after the line of the bound.
fn member_line(text: &[u8], number: u32) -> &'static str {
    let after = number.saturating_sub(6);
    let bound = line_at(text, 5).unwrap_or(&[]);
    let has_members = word_at(bound, 1) == b"set".as_slice();
    let members = if has_members { count_at(bound, 2) } else { 0 };
    if after < members {
        return "wanted is the name of the set's next disk, in the order of DISKS";
    }
    if after == members {
        return "wanted is the line `end`";
    }
    after_end(line_at(text, number))
}
