//! The pieces of which a hint is written, and the line that it points to.

use std::alloc::AllocError;

/// How many characters of a text are shown.
const MOST: usize = 60;

/// A piece of a hint.
#[derive(Clone, Copy)]
pub(crate) enum Piece<'a> {
    Text(&'a str),
    Number(u64),
    /// The first characters of a text, each as it is or, where it is none that can be seen, as its number.
    Excerpt(&'a [u8]),
}

impl<'a> From<&'a str> for Piece<'a> {
    fn from(text: &'a str) -> Piece<'a> {
        Piece::Text(text)
    }
}

impl<'a> From<u32> for Piece<'a> {
    fn from(number: u32) -> Piece<'a> {
        Piece::Number(u64::from(number))
    }
}

impl<'a> From<u64> for Piece<'a> {
    fn from(number: u64) -> Piece<'a> {
        Piece::Number(number)
    }
}

impl<'a> From<usize> for Piece<'a> {
    fn from(number: usize) -> Piece<'a> {
        Piece::Number(number as u64)
    }
}

/// Whether a terminal shows the character with this number, and not as a blank.
fn is_plain(code: u32) -> bool {
    (code >= 0x20 && code < 0x7f)
        || (code > 0xa0 && code < 0x2000)
        || (code >= 0x2070 && code != 0xfeff)
}

fn put_one(f: &mut String, c: char) -> Said {
    let code = u32::from(c);
    if is_plain(code) {
        return f.push(c);
    }
    write!(f, "\\x{code:02x}")
}

fn put_text(f: &mut String, text: &str) -> Said {
    for c in text.chars().take(MOST) {
        put_one(f, c)?;
    }
    let is_cut = text.chars().nth(MOST).is_some();
    f.push_str(if is_cut { " .." } else { "" })
}

/// Bytes that are no UTF-8 are shown as those of Latin-1.
fn put_bytes(f: &mut String, bytes: &[u8]) -> Said {
    let part = bytes.get(..MOST).unwrap_or(bytes);
    for byte in part {
        put_one(f, char::from(*byte))?;
    }
    f.push_str(if part.len() < bytes.len() { " .." } else { "" })
}

fn put_piece(f: &mut String, piece: &Piece<'_>) -> Said {
    match piece {
        Piece::Text(text) => f.push_str(text),
        Piece::Number(number) => write!(f, "{number}"),
        Piece::Excerpt(bytes) => match std::str::from_utf8(bytes) {
            Ok(text) => put_text(f, text),
            Err(_) => put_bytes(f, bytes),
        },
    }
}

/// What comes of adding to a hint: want of memory gives none.
pub(crate) type Said = Result<(), AllocError>;

/// Adds a text with these pieces in the places of its marks `{}`.
pub(crate) fn put(f: &mut String, text: &str, pieces: &[Piece<'_>]) -> Said {
    let mut pieces = pieces.iter();
    for part in text.split("{}") {
        f.push_str(part)?;
        if let Some(piece) = pieces.next() {
            put_piece(f, piece)?;
        }
    }
    Ok(())
}

/// The same of whatever a piece is made from: one call, where `write!` makes one for each piece.
macro_rules! say {
    ($f:expr; $text:expr, $($piece:expr),+) => {
        $crate::excerpts::put($f, $text, &[$($crate::excerpts::Piece::from($piece)),+])
    };
}

pub(crate) use say;

/// Points to a line of a file. Lines count from 1.
pub(crate) fn point(f: &mut String, word: &str, line: usize, text: &[u8]) -> Said {
    let (word, text) = (Piece::Excerpt(word.as_bytes()), Piece::Excerpt(text));
    say!(f; "migrate: {}, line {}: {}\nmigrate: ", word, line, text)
}

/// Points to a file as a whole.
pub(crate) fn point_whole(f: &mut String, word: &str) -> Said {
    say!(f; "migrate: {}: ", Piece::Excerpt(word.as_bytes()))
}
