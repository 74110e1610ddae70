//! Says on standard error why a command ended as it did.

use crate::commands::Forms;
use crate::excerpts::Said;
use crate::files::{Given, Stamps, load};
use crate::findings::{say_finding, say_no_file};
use crate::journals::{say_begun, say_idle, say_other};
use crate::stores::{say_lost, say_used};
use crate::wrong_words::say_words;
use mig_words::{CommandError, StoreRefusal};
use std::fs::File;
use std::rt::Files;

/// Says on standard error what the status of a command of these words means, and why it ended so where that was found. It
/// says nothing where a file has changed since it was `seen` before the command, nor where memory is refused.
pub fn hint<R: AllocGlobal + Files<File = File> + Eprint>(
    rt: &R,
    words: &[String],
    seen: &Stamps,
    status: u8,
    ending: Option<CommandError>,
) {
    let mut text = String::new(rt.alloc());
    let said = match ending {
        None if status == 2 => say_words(rt.alloc(), &mut text, words),
        Some(ending) => say_ending(rt, &mut text, words, seen, &ending),
        None => Ok(()),
    };
    if said.is_ok() && !text.is_empty() {
        let _ = eprintln!(rt; "{text}");
    }
    if status == 2 {
        let _ = eprintln!(rt; "{Forms}");
    }
}

fn say_ending<R: AllocGlobal + Files<File = File>>(
    rt: &R,
    f: &mut String,
    words: &[String],
    seen: &Stamps,
    ending: &CommandError,
) -> Said {
    let texts = load(rt, words, seen)?;
    if !seen.is_same(rt, words) {
        return Ok(());
    }
    let given = Given {
        words,
        texts: texts.as_slice(),
    };
    match ending {
        CommandError::NoFile { place } => say_no_file(f, &given, *place),
        CommandError::Found(finding) => say_finding(f, &given, finding),
        CommandError::Refusal(refusal) => say_refusal(rt, f, &given, refusal),
        _ => Ok(()),
    }
}

fn say_refusal<R: AllocGlobal + Files<File = File>>(
    rt: &R,
    f: &mut String,
    given: &Given<'_>,
    refusal: &StoreRefusal,
) -> Said {
    match refusal {
        StoreRefusal::Started => say_begun(rt, f, given),
        StoreRefusal::OtherPlan { .. } => say_other(f, given),
        StoreRefusal::NotStarted => say_idle(rt, f),
        StoreRefusal::NotThere { item: Some(item) } => say_lost(rt, f, given, item),
        StoreRefusal::Occupied {
            disk: Some(disk),
            slot,
        } => say_used(rt, f, given, disk, *slot),
        _ => Ok(()),
    }
}
