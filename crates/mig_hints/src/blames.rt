//! Which line of a plan or of its certificate is not right, and why.

use crate::excerpts::Piece::Excerpt;
use crate::excerpts::{Said, point, point_whole, say};
use crate::files::{Given, Typed};
use crate::plans::{NumberedLine, START, Steps, Want, count_at, line_at, look_for, word_at};
use crate::rows::{Key, field, number_at};
use mig_base::{Blame, read_digits};

/// What is said of a plan or a certificate that is not right. The name is that of the item or the disk.
pub(crate) fn say_blame(f: &mut String, given: &Given<'_>, blame: &Blame, name: &[u8]) -> Said {
    match (cert_line(blame), given.file("CERT"), given.file("PLAN")) {
        (Some((line, wanted)), Some(cert), _) => {
            let text = line_at(cert.bytes, line).unwrap_or(&[]);
            point(f, cert.word, line as usize, text)?;
            f.push_str(wanted)
        }
        (None, _, Some(_)) => say_plan(f, given, blame, name),
        _ => Ok(()),
    }
}

/// What is said where the three files give another number than the certificate.
const COUNTED: &str =
    "counted from the three files it is another number: was a file changed since `plan`?";

/// The line of the certificate that is not right, and why.
fn cert_line(blame: &Blame) -> Option<(u32, &'static str)> {
    match blame {
        Blame::RoundsDiffer { .. } => Some((
            2,
            "the plan has another number of rounds: are PLAN and CERT of one `plan`?",
        )),
        Blame::QuotientDiffers { .. } => Some((3, COUNTED)),
        Blame::ClassDiffers => Some((
            4,
            "`even` is right where each disk that takes part has an even limit, and else `general`",
        )),
        Blame::LoadDiffers { .. } | Blame::ValueDiffers { .. } => Some((5, COUNTED)),
        _ => None,
    }
}

/// Looks through the text of the plan.
fn look_in<'a>(given: &Given<'a>, want: &Want<'_>) -> Steps<'a> {
    let text: &[u8] = match given.file("PLAN") {
        Some(plan) => plan.bytes,
        None => &[],
    };
    look_for(text, want)
}

/// Points to a line of the plan, or to the whole where it has no such line.
fn point_step(f: &mut String, given: &Given<'_>, step: Option<NumberedLine<'_>>) -> Said {
    let word = given.word("PLAN").unwrap_or("");
    match step {
        Some(step) => point(f, word, step.line as usize, step.text.unwrap_or(&[])),
        None => point_whole(f, word),
    }
}

/// The shifts of an item in a round.
fn in_round(item: &[u8], round: u32) -> Want<'_> {
    Want::Shifts(round, round.saturating_add(1), 0, item)
}

fn say_plan(f: &mut String, given: &Given<'_>, blame: &Blame, name: &[u8]) -> Said {
    match blame {
        Blame::EmptyRound { round } => say_empty(f, given, *round),
        Blame::OverLimit { round, count, .. } => say_limit(f, given, *round, name, *count),
        Blame::NotHere { round, .. } => say_elsewhere(f, given, *round, name),
        Blame::TwiceInRound { round, .. } => say_twice(f, given, *round, name),
        Blame::SlotNotFree { round, .. } => say_not_free(f, given, *round, name),
        Blame::WrongEnd { .. } => say_wrong_end(f, given, name),
        Blame::MovedTooOften { .. } => say_too_often(f, given, name),
        _ => Ok(()),
    }
}

fn say_empty(f: &mut String, given: &Given<'_>, round: u32) -> Said {
    point_head(f, given, round)?;
    f.push_str("a round has one shift at least")
}

/// Points to the head of a round.
fn point_head(f: &mut String, given: &Given<'_>, round: u32) -> Said {
    point_step(f, given, look_in(given, &Want::Head(round)).first)
}

fn say_twice(f: &mut String, given: &Given<'_>, round: u32, item: &[u8]) -> Said {
    let steps = look_in(given, &in_round(item, round));
    point_step(f, given, steps.second)?;
    say!(f; "line {} moves this item in the same round: a round moves an item once", steps.first.unwrap_or(START).line)
}

fn say_limit(f: &mut String, given: &Given<'_>, round: u32, disk: &[u8], count: u32) -> Said {
    point_head(f, given, round)?;
    say_over(f, given, round, disk, count)
}

/// By how much a round passes the limit of a disk.
fn say_over(f: &mut String, given: &Given<'_>, round: u32, disk: &[u8], count: u32) -> Said {
    let Some(disks) = given.file("DISKS") else {
        return say!(f; "{} shifts of this round are too many for `{}`", count, Excerpt(disk));
    };
    let shifts = Want::Shifts(round, round.saturating_add(1), 1, disk);
    let (way, kind, limit) = passed_limit(&disks, disk, look_in(given, &shifts).count);
    say!(f; "{} shifts of this round {} `{}`, and its {} is {}", count, way, Excerpt(disk), kind, limit)
}

/// What the shifts of a round do, of which so many leave a disk, and the limit that they pass.
fn passed_limit(disks: &Typed<'_>, disk: &[u8], leaving: u32) -> (&'static str, &'static str, u64) {
    let row = disks.listed(&Key::First(disk)).text;
    let first = number_at(row, 1);
    match u64::from(leaving) > first {
        _ if !disks.has_sides() => ("leave or reach", "limit", first),
        true => ("leave", "outgoing limit", first),
        false => ("reach", "incoming limit", number_at(row, 2)),
    }
}

/// Where an item is before a round: where an earlier shift left it, or where the file of now lists it.
fn spot_before<'a>(given: &Given<'a>, round: u32, item: &[u8]) -> Option<(&'a [u8], u64)> {
    if let Some(step) = look_in(given, &Want::Shifts(0, round, 0, item)).last {
        return Some((step.word(3), read_digits(step.word(4))?));
    }
    let row = given.find("NOW", &Key::First(item))?;
    Some((field(row.text, 1), number_at(row.text, 2)))
}

fn say_elsewhere(f: &mut String, given: &Given<'_>, round: u32, item: &[u8]) -> Said {
    let Some((disk, slot)) = spot_before(given, round, item) else {
        return Ok(());
    };
    let steps = look_in(given, &in_round(item, round));
    let first = steps.first_text();
    let leaves = word_at(first, 1) == disk && read_digits(word_at(first, 2)) == Some(slot);
    point_step(f, given, if leaves { steps.second } else { steps.first })?;
    let text =
        "before round {} `{}` is in slot {} of `{}`, and a shift leaves where its item is: was NOW changed since `plan`?";
    say!(f; text, round, Excerpt(item), slot, Excerpt(disk))
}

fn say_not_free(f: &mut String, given: &Given<'_>, round: u32, item: &[u8]) -> Said {
    let steps = look_in(given, &in_round(item, round));
    point_step(f, given, steps.first)?;
    let name = word_at(steps.first_text(), 3);
    let slot = u64::from(count_at(steps.first_text(), 4));
    let disk = Excerpt(name);
    match given.slots_of(name) {
        Some(slots) if slot >= slots =>
            say!(f; "`{}` has {} slots, which count from 0", disk, slots),
        _ =>
            say!(f; "slot {} of `{}` has an item before round {}, or an earlier line of the round goes there", slot, disk, round),
    }
}

/// The disk of an item in the file with this role.
fn disk_in<'a>(given: &Given<'a>, role: &str, item: &[u8]) -> Option<&'a [u8]> {
    let row = given.find(role, &Key::First(item))?;
    Some(field(row.text, 1))
}

fn say_wrong_end(f: &mut String, given: &Given<'_>, item: &[u8]) -> Said {
    let last = look_in(given, &Want::Shifts(0, u32::MAX, 0, item)).last;
    let next = given.shown("NEXT");
    let disk = Excerpt(disk_in(given, "NEXT", item).unwrap_or(b"another disk"));
    let later = if last.is_some() { "later " } else { "" };
    point_step(f, given, last)?;
    say!(f; "no {}line moves `{}`, and {} wants it on `{}`", later, Excerpt(item), next, disk)
}

fn say_too_often(f: &mut String, given: &Given<'_>, item: &[u8]) -> Said {
    let last = look_in(given, &Want::Shifts(0, u32::MAX, 0, item)).last;
    point_step(f, given, last)?;
    let now = disk_in(given, "NOW", item);
    let (before, after) = if now.is_some() && now == disk_in(given, "NEXT", item) {
        ("", "stays on its disk, and a plan moves no item that stays")
    } else {
        ("an earlier line moves ", "too: a plan moves an item once")
    };
    say!(f; "{}`{}` {}", before, Excerpt(item), after)
}
