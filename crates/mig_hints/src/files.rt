//! The files of a command: when each had changed before it, and what it holds where it hasn't changed since.

use crate::commands::{is_saved, row_of};
use crate::excerpts::Piece::Excerpt;
use crate::excerpts::{Piece, Said, say};
use crate::rows::{Key, NumberedRow, field, number_at};
use mig_base::MAX_FILE_BYTES;
use mig_io::read_first;
use std::alloc::AllocError;
use std::fs::{self, File};
use std::io::ErrorKind;
use std::os::unix::fs::{FileExt, FileTypeExt, MetadataExt};
use std::rt::Files;

/// How many words follow a command at most.
const MOST_WORDS: usize = 5;

/// One more byte than a file may have.
const MOST: usize = MAX_FILE_BYTES + 1;

/// Which file it is, and when it changed last. No call sets the time of a change.
#[derive(Clone, Copy, PartialEq, Eq)]
struct Stamp {
    device: u64,
    inode: u64,
    length: u64,
    seconds: i64,
    nanoseconds: i64,
}

/// That of a plain file. Others may wait for a writer when they are opened, and a pipe is not read twice.
fn stamp_at<R: Files<File = File>>(rt: &R, name: &str) -> Option<Stamp> {
    let found = fs::metadata(rt, name).ok()?;
    if !found.is_file() {
        return None;
    }
    Some(Stamp {
        device: found.dev(),
        inode: found.ino(),
        length: found.size(),
        seconds: found.ctime(),
        nanoseconds: found.ctime_nsec(),
    })
}

/// The files that a command's words led to, as they were before it.
#[derive(Clone, Copy)]
pub struct Stamps {
    words: [Option<Stamp>; MOST_WORDS],
}

impl Stamps {
    /// Looks at them, and reads none.
    pub fn of<R: Files<File = File>>(rt: &R, words: &[String]) -> Stamps {
        let mut seen = Stamps {
            words: [None; MOST_WORDS],
        };
        for place in 0..MOST_WORDS {
            if let Some(word) = words.get(place + 1) {
                seen.words[place] = stamp_at(rt, word.as_str());
            }
        }
        seen
    }

    /// Whether they are still the same.
    pub(crate) fn is_same<R: Files<File = File>>(&self, rt: &R, words: &[String]) -> bool {
        self.words == Stamps::of(rt, words).words
    }
}

/// A file as it was typed, and what it holds.
#[derive(Clone, Copy)]
pub(crate) struct Typed<'a> {
    pub(crate) word: &'a str,
    pub(crate) bytes: &'a [u8],
}

/// What a command was given: its words, and the bytes of its files that could be read once more.
#[derive(Clone, Copy)]
pub(crate) struct Given<'a> {
    pub(crate) words: &'a [String],
    pub(crate) texts: &'a [Option<Vec<u8>>],
}

impl<'a> Given<'a> {
    /// The name of the command.
    pub(crate) fn command(&self) -> &'a str {
        match self.words.first() {
            Some(word) => word.as_str(),
            None => "",
        }
    }

    /// What the words after it stand for, in their order.
    pub(crate) fn roles(&self) -> &'static [&'static str] {
        match row_of(self.command()) {
            Some(row) => row.roles,
            None => &[],
        }
    }

    fn place_of(&self, role: &str) -> Option<usize> {
        self.roles().iter().position(|it| *it == role)
    }

    /// The word with this role.
    pub(crate) fn word(&self, role: &str) -> Option<&'a str> {
        let place = self.place_of(role)?.checked_add(1)?;
        Some(self.words.get(place)?.as_str())
    }

    /// The word with this role, for what is said of it.
    pub(crate) fn shown(&self, role: &'a str) -> Piece<'a> {
        Excerpt(self.word(role).unwrap_or(role).as_bytes())
    }

    /// The file with this role.
    pub(crate) fn file(&self, role: &str) -> Option<Typed<'a>> {
        let word = self.word(role)?;
        let text = self.texts.get(self.place_of(role)?)?.as_ref()?;
        let bytes = text.as_slice();
        Some(Typed { word, bytes })
    }

    /// The first row with this key in the file with this role.
    pub(crate) fn find(&self, role: &str, key: &Key<'_>) -> Option<NumberedRow<'a>> {
        self.file(role)?.find(key)
    }

    /// How many slots the file of disks gives a disk.
    pub(crate) fn slots_of(&self, disk: &[u8]) -> Option<u64> {
        let disks = self.file("DISKS")?;
        let row = disks.find(&Key::First(disk))?;
        Some(number_at(row.text, if disks.has_sides() { 3 } else { 2 }))
    }

    /// Says that the file of disks doesn't list a disk.
    pub(crate) fn say_unlisted(&self, f: &mut String, disk: &[u8]) -> Said {
        say!(f; "{} lists no disk `{}`", self.shown("DISKS"), Excerpt(disk))?;
        match self.find("DISKS", &Key::AnyCase(disk)) {
            Some(alike) => say!(f; ", but `{}`: capitals count", Excerpt(field(alike.text, 0))),
            None => Ok(()),
        }
    }
}

/// The files that the command read, each in the place of its word. A failure is no news.
pub(crate) fn load<R: Files<File = File> + AllocGlobal>(
    rt: &R,
    words: &[String],
    seen: &Stamps,
) -> Result<Vec<Option<Vec<u8>>>, AllocError> {
    let texts = (0..MOST_WORDS).map(|place| read_again(rt, words, seen, place));
    texts.collect(rt.alloc())
}

/// The first bytes of the plain file at a place, if the command read it.
fn read_again<R: Files<File = File> + AllocGlobal>(
    rt: &R,
    words: &[String],
    seen: &Stamps,
    place: usize,
) -> Option<Vec<u8>> {
    let name = name_at(words, place)?;
    let before = seen.words.get(place)?;
    if before.is_none() || stamp_at(rt, name) != *before {
        return None;
    }
    let mut file = fs::open(rt, name).ok()?;
    read_first(rt.alloc(), &mut file, MOST).ok()
}

/// The name of the file at a place, if the command reads it.
fn name_at(words: &[String], place: usize) -> Option<&str> {
    let row = row_of(words.first()?.as_str())?;
    if is_saved(row, row.roles.get(place)?) {
        return None;
    }
    Some(words.get(place.checked_add(1)?)?.as_str())
}

/// Whether the name leads nowhere.
pub(crate) fn is_missing<R: Files<File = File>>(rt: &R, name: &str) -> bool {
    matches!(fs::metadata(rt, name), Err(error) if error.kind() == ErrorKind::NotFound)
}

/// Reads at an offset of a file, if that can be done; what lies past its end is zeros.
pub(crate) fn read_at<R: Files<File = File>>(
    rt: &R,
    name: &str,
    offset: u64,
    into: &mut [u8],
) -> Option<()> {
    let found = fs::metadata(rt, name).ok()?;
    if found.is_dir() || found.file_type().is_fifo() {
        return None;
    }
    let file = fs::open(rt, name).ok()?;
    let count = file.read_at(into, offset).ok()?;
    if let Some(rest) = into.get_mut(count..) {
        rest.fill(0);
    }
    Some(())
}
