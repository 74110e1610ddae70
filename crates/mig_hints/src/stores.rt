//! Status 9: which slot is not as it should be, what it holds, and where to look first.

use crate::excerpts::Piece::Excerpt;
use crate::excerpts::{Said, say};
use crate::files::{Given, Typed};
use crate::made::{SLOT, holds_made};
use crate::rows::{Key, NO_ROW, Rows, field, number_at};
use crate::slots::{SlotContent, look};
use mig_base::Name;
use std::alloc::AllocError;
use std::fs::File;
use std::rt::Files;

/// Which slot of which disk a row of NOW lists.
fn spot_of(row: &[u8]) -> Option<(Name, u32)> {
    let disk = Name::read(field(row, 1))?;
    Some((disk, u32::try_from(number_at(row, 2)).ok()?))
}

fn say_slot(f: &mut String, disk: &Name, slot: u32) -> Said {
    say!(f; "migrate: {}.disk, slot {}", Excerpt(disk.bytes()), slot)
}

/// What is at the spot of an item that isn't there; nothing where it is there by now.
pub(crate) fn say_lost<'a, R: Files<File = File> + AllocGlobal>(
    rt: &R,
    f: &mut String,
    given: &Given<'a>,
    item: &'a Name,
) -> Said {
    let row = given.find("NOW", &Key::First(item.bytes()));
    let Some((disk, slot)) = spot_of(row.unwrap_or(NO_ROW).text) else {
        return Ok(());
    };
    let mut bytes = [0; SLOT];
    let held = look(rt, &disk, slot, &mut bytes)?;
    if held.is_item(item) {
        return Ok(());
    }
    say_slot(f, &disk, slot)?;
    say!(f; ", where {} lists `{}`", given.shown("NOW"), Excerpt(item.bytes()))?;
    held.say(f)?;
    say_look(f, given)?;
    say!(f; "Is each disk mounted, and {} the layout of today?", given.shown("NOW"))
}

/// Where to look first.
fn say_look(f: &mut String, given: &Given<'_>) -> Said {
    let (disks, now) = (given.shown("DISKS"), given.shown("NOW"));
    say!(f; "\nmigrate: look first: `migrate audit {} {}` says of each item whether it is at its spot. ", disks, now)
}

/// What is in a slot that should be free; nothing where it is free by now.
pub(crate) fn say_used<R: Files<File = File> + AllocGlobal>(
    rt: &R,
    f: &mut String,
    given: &Given<'_>,
    disk: &Name,
    slot: u32,
) -> Said {
    let mut bytes = [0; SLOT];
    let held = look(rt, disk, slot, &mut bytes)?;
    if !held.is_used() {
        return Ok(());
    }
    say_slot(f, disk, slot)?;
    match given.file("NOW") {
        _ if given.command() != "fill" => say_taken(f, given, &held),
        Some(now) => say_filled(f, given, &held, count_used(rt, &now)?),
        None => held.say(f),
    }
}

/// What is in a slot to which a plan moves an item.
fn say_taken(f: &mut String, given: &Given<'_>, held: &SlotContent) -> Said {
    let now = given.shown("NOW");
    f.push_str(", to which the plan moves an item")?;
    held.say(f)?;
    say!(f; ", and {} lists none", now)?;
    say_look(f, given)?;
    say!(f; "List what is there in {} and plan again, or clear the slot", now)
}

/// What is in a slot that `fill` would write, and how many slots are used and made.
fn say_filled(f: &mut String, given: &Given<'_>, held: &SlotContent, counts: (u32, u32)) -> Said {
    let (disks, now) = (given.shown("DISKS"), given.shown("NOW"));
    let (used, made) = counts;
    held.say(f)?;
    let why = if used == made {
        "All of them hold just what `fill` writes there: a `fill` that was stopped, or done before?"
    } else {
        "Not all of them hold what `fill` writes there: the store is in use, and `fill` overwrites nothing."
    };
    say!(f; "\nmigrate: slots of {} in use: {}. {} `migrate audit {} {}` shows them", now, used, why, disks, now)
}

/// How many of the listed slots are used, and how many hold just what `fill` writes there.
fn count_used<R: Files<File = File> + AllocGlobal>(
    rt: &R,
    now: &Typed<'_>,
) -> Result<(u32, u32), AllocError> {
    let mut rows = Rows::of(now);
    let mut used = 0u32;
    let mut made = 0u32;
    let mut bytes = [0; SLOT];
    for _ in 0..now.bytes.len() {
        let Some((_, row)) = rows.take_row() else {
            break;
        };
        let (Some(item), Some((disk, slot))) = (Name::read(field(row, 0)), spot_of(row)) else {
            continue;
        };
        let held = look(rt, &disk, slot, &mut bytes)?;
        item.keeps_rules();
        let is_made = held.is_item(&item) && holds_made(&bytes, item.bytes());
        used = used.saturating_add(u32::from(held.is_used()));
        made = made.saturating_add(u32::from(is_made));
    }
    Ok((used, made))
}
