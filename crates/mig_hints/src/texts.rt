//! Which line of a plan, a certificate or a script is refused, and what was expected there.

use crate::certs::say_cert_line;
use crate::excerpts::Piece::Excerpt;
use crate::excerpts::{Said, point, point_whole, say};
use crate::files::Given;
use crate::plans::{LineKind, Want, line_at, look_for, word_at};
use crate::rows::Key;
use mig_base::{MAX_FILE_BYTES, MAX_ROUNDS, MAX_SHIFTS, MAX_SLOTS, read_digits};
use mig_words::TextFile;

/// What is said of a text that is refused at a line; line 0 says that it is too long.
pub(crate) fn say_text(f: &mut String, given: &Given<'_>, text: &TextFile, number: u32) -> Said {
    let role = match text {
        TextFile::Plan => "PLAN",
        TextFile::Cert => "CERT",
        TextFile::Script => "SCRIPT",
    };
    let Some(typed) = given.file(role) else {
        return Ok(());
    };
    if number == 0 {
        point_whole(f, typed.word)?;
        return say!(f; "the text has more than {} bytes", MAX_FILE_BYTES);
    }
    let line = line_at(typed.bytes, number);
    let shown = line.unwrap_or(b"(the text ends before it)".as_slice());
    point(f, typed.word, number as usize, shown)?;
    match (other_form(line.unwrap_or(&[])), text) {
        (Some(form), _) => f.push_str(form),
        (None, TextFile::Plan) => say_plan_line(f, given, typed.bytes, number),
        (None, TextFile::Cert) => say_cert_line(f, given, typed.bytes, number),
        (None, TextFile::Script) => f.push_str(
            "wanted is `read ITEM`, with an item of NOW, or `step N`, with N from 1 to 1000000, and LF after it; there are at most 65536 lines",
        ),
    }
}

/// What is wrong with a line that an editor wrote in another form, whatever stands in it.
fn other_form(line: &[u8]) -> Option<&'static str> {
    match line {
        [.., b'\r'] => Some("a line ends with LF alone, and not with CR LF"),
        [0xef, 0xbb, 0xbf, ..] => Some(
            "the text begins with a byte order mark: save it without one",
        ),
        [_, ..] if line.split(|b| *b == b' ').any(|word| word.is_empty()) => {
            Some("two blanks side by side, or one at an end: just one stands between two words")
        }
        _ => None,
    }
}

/// What was expected at a line of a plan.
fn say_plan_line(f: &mut String, given: &Given<'_>, text: &[u8], number: u32) -> Said {
    let Some(step) = look_for(text, &Want::Line(number)).first else {
        return f.push_str("the text ends here");
    };
    match step.place {
        LineKind::Start | LineKind::Title => f.push_str(
            "a plan begins with the line `migration-plan 1`: is this the file of PLAN?",
        ),
        LineKind::Count =>
            say!(f; "wanted is `rounds R`, the number of the plan's rounds, at most {}", MAX_ROUNDS),
        LineKind::Head =>
            say!(f; "wanted is `round {} C`, C the number of the lines that follow for it, at most {}", step.round, MAX_SHIFTS),
        LineKind::Shift => say_shift(f, given, step.text.unwrap_or(&[])),
        LineKind::End => f.push_str("wanted is the line `end`: all rounds were there"),
        LineKind::Nothing => f.push_str(after_end(step.text)),
    }
}

/// What is said after the line `end`.
pub(crate) fn after_end(line: Option<&[u8]>) -> &'static str {
    match line {
        Some(_) => "nothing may follow the line `end` and its LF",
        None => "the line `end` is to end with LF: was the text cut off?",
    }
}

/// What was expected at the line of a shift.
fn say_shift(f: &mut String, given: &Given<'_>, line: &[u8]) -> Said {
    for place in 0..5 {
        let name = word_at(line, place);
        let role = match place {
            _ if name.is_empty() => continue,
            0 => "NOW",
            1 | 3 => "DISKS",
            _ if is_slot(name) => continue,
            _ => {
                return say!(f; "`{}` is no slot: 0 to {}, without a leading zero", Excerpt(name), MAX_SLOTS - 1);
            }
        };
        if given.file(role).is_some() && given.find(role, &Key::First(name)).is_none() {
            return say_unlisted(f, given, role, name);
        }
    }
    f.push_str("wanted is a shift: ITEM FROM FROMSLOT TO TOSLOT, with one blank between two words")
}

fn say_unlisted(f: &mut String, given: &Given<'_>, role: &'static str, name: &[u8]) -> Said {
    let kind = if role == "NOW" { "item" } else { "disk" };
    say!(f; "{} lists no ", given.shown(role))?;
    say!(f; "{} `{}`", kind, Excerpt(name))
}

fn is_slot(word: &[u8]) -> bool {
    let is_plain = word == b"0".as_slice() || !word.starts_with(b"0");
    is_plain && matches!(read_digits(word), Some(slot) if slot < u64::from(MAX_SLOTS))
}
