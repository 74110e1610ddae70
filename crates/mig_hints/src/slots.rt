//! What a slot of a disk holds, read from the disk's file.

use crate::excerpts::Piece::Excerpt;
use crate::excerpts::{Said, say};
use crate::files::{is_missing, read_at};
use crate::made::{HEADER, SLOT};
use mig_base::Name;
use std::alloc::AllocError;
use std::fs::File;
use std::rt::Files;

/// What a slot holds.
#[derive(Clone, Copy)]
pub(crate) enum SlotContent {
    NoFile,
    Unread,
    Zeros,
    /// The item of this name.
    Item(Name),
    /// Bytes that are no item, in a slot that is marked as used or not.
    NoItem { used: bool },
}

impl SlotContent {
    /// Says what it is.
    pub(crate) fn say(&self, f: &mut String) -> Said {
        match self {
            SlotContent::NoFile => f.push_str(": there is no such file"),
            SlotContent::Unread => f.push_str(": it can't be read"),
            SlotContent::Zeros => f.push_str(": zeros are there"),
            SlotContent::Item(name) => say!(f; ": the item `{}` is there", Excerpt(name.bytes())),
            SlotContent::NoItem { .. } => f.push_str(": bytes are there that are no item"),
        }
    }

    /// Whether the slot counts as used.
    pub(crate) fn is_used(&self) -> bool {
        matches!(
            self,
            SlotContent::Item(_) | SlotContent::NoItem { used: true }
        )
    }

    /// Whether the slot's header names the item.
    pub(crate) fn is_item(&self, name: &Name) -> bool {
        matches!(self, SlotContent::Item(found) if found.bytes() == name.bytes())
    }
}

/// Reads a slot of a disk, and says what it holds.
pub(crate) fn look<R: Files<File = File> + AllocGlobal>(
    rt: &R,
    disk: &Name,
    slot: u32,
    bytes: &mut [u8; SLOT],
) -> Result<SlotContent, AllocError> {
    let mut file = String::new(rt.alloc());
    say!(&mut file; "{}.disk", Excerpt(disk.bytes()))?;
    if is_missing(rt, file.as_str()) {
        return Ok(SlotContent::NoFile);
    }
    match read_at(rt, file.as_str(), u64::from(slot) * SLOT as u64, bytes) {
        Some(()) => Ok(held_in(bytes)),
        None => Ok(SlotContent::Unread),
    }
}

/// What the bytes of a slot are: in its header the name is followed by zeros.
fn held_in(bytes: &[u8; SLOT]) -> SlotContent {
    if bytes.iter().all(|b| *b == 0) {
        return SlotContent::Zeros;
    }
    let used = bytes[0] == 1;
    let end = (2 + bytes[1] as usize).min(HEADER);
    match Name::read(&bytes[2..end]) {
        Some(name) if used && bytes[end..HEADER].iter().all(|b| *b == 0) => SlotContent::Item(name),
        _ => SlotContent::NoItem { used },
    }
}
