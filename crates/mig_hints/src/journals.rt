//! Status 8: what the journal says, and where to look first.

use crate::excerpts::{Said, say};
use crate::files::{Given, is_missing, read_at};
use crate::plans::{count_at, line_at};
use sha2::{Digest, Sha256};
use std::fs::File;
use std::rt::Files;

/// The journal's file.
const JOURNAL: &str = "journal.mig";

/// How many bytes of the journal's file a cell takes.
const CELL: u64 = 512;

/// The cell of the gate; that of mark N comes N cells later.
const GATE: u32 = 1;

/// Whether a cell of the journal is 1.
fn is_set<R: Files<File = File>>(rt: &R, cell: u32) -> bool {
    let mut byte = [0];
    read_at(rt, JOURNAL, u64::from(cell) * CELL, &mut byte).is_some() && byte[0] == 1
}

/// How many of so many rounds are marked as done, one after the other.
fn marked<R: Files<File = File>>(rt: &R, rounds: u32) -> u32 {
    for done in 0..rounds {
        if !is_set(rt, done.saturating_add(GATE + 1)) {
            return done;
        }
    }
    rounds
}

/// What is said where no plan is begun; nothing where one is by now.
pub(crate) fn say_idle<R: Files<File = File>>(rt: &R, f: &mut String) -> Said {
    let mut head = [0; 32];
    let is_read = is_missing(rt, JOURNAL) || read_at(rt, JOURNAL, 0, &mut head).is_some();
    if !is_read || is_set(rt, GATE) {
        return Ok(());
    }
    f.push_str(if head == [0; 32] {
        "migrate: journal.mig names no plan: none was begun in this folder. Is it the folder of the disks?"
    } else {
        "migrate: journal.mig says that no plan is under way: the last one was closed"
    })
}

/// What is said where another plan is begun.
pub(crate) fn say_other(f: &mut String, given: &Given<'_>) -> Said {
    say!(f; "migrate: {} says that another plan than {} is under way, or was carried out: ", JOURNAL, given.shown("PLAN"))?;
    f.push_str(
        "the one whose SHA-256 is the first number (`sha256sum` shows it)\nmigrate: look first, with that plan and its own three files, which give the same plan again: `after` prints where it leaves the items, and `audit` says whether they are there; `resume` goes on with it; only then `halt` closes it",
    )
}

/// What is said where a plan is begun, which is that of the command if it has one; nothing where it isn't any more.
pub(crate) fn say_begun<R: Files<File = File>>(rt: &R, f: &mut String, given: &Given<'_>) -> Said {
    if given.word("PLAN").is_none() {
        return f.push_str(
            "migrate: journal.mig says that a migration is under way here, or was carried out to its end: its items are on the disks\nmigrate: look first: `after` prints where a plan leaves the items, and `audit` says whether they are there; `resume` goes on with a plan that was stopped; only `halt` closes it",
        );
    }
    let Some(text) = given.file("PLAN") else {
        return Ok(());
    };
    let digest: [u8; 32] = Sha256::digest(text.bytes);
    let mut head = [0; 32];
    let is_read = read_at(rt, JOURNAL, 0, &mut head).is_some();
    if !is_read || head != digest || !is_set(rt, GATE) {
        return Ok(());
    }
    let rounds = count_at(line_at(text.bytes, 2).unwrap_or(&[]), 1);
    say_marks(f, given, marked(rt, rounds), rounds)
}

fn say_marks(f: &mut String, given: &Given<'_>, done: u32, rounds: u32) -> Said {
    if done >= rounds {
        return say_carried_out(f, given, rounds);
    }
    let (disks, now) = (given.shown("DISKS"), given.shown("NOW"));
    let (next, plan) = (given.shown("NEXT"), given.shown("PLAN"));
    let text = "migrate: journal.mig says that {} is under way: {} of its {} rounds are \
        marked as done\nmigrate: `migrate resume{} {} {} {} {}` goes on with it";
    say!(f; text, plan, done, rounds, kind_of(given), disks, now, next, plan)
}

/// The end of the name of each command for a plan of this kind.
fn kind_of(given: &Given<'_>) -> &'static str {
    match given.command().ends_with("-tight") {
        true => "-tight",
        false => "",
    }
}

fn say_carried_out(f: &mut String, given: &Given<'_>, rounds: u32) -> Said {
    let (disks, now) = (given.shown("DISKS"), given.shown("NOW"));
    let (next, plan) = (given.shown("NEXT"), given.shown("PLAN"));
    let text = "migrate: journal.mig says that {} was carried out: all of its {} rounds are \
        marked as done\nmigrate: look first, before `halt{}` closes it: `migrate after{} {} {} {} {}` prints \
        where the items should be now, and `migrate audit {} LAYOUT` on what it prints says whether they are";
    say!(f; text, plan, rounds, kind_of(given), kind_of(given), disks, now, next, plan, disks)
}
