//! The rows of a CSV file, for what is said of one.

use crate::files::Typed;
use crate::lines::{line_from, line_of, row_start};
use mig_base::read_digits;

/// A row, and the line that it stands in. Lines count from 1.
#[derive(Clone, Copy)]
pub(crate) struct NumberedRow<'a> {
    pub(crate) line: usize,
    pub(crate) text: &'a [u8],
}

/// In the place of a row where there is none.
pub(crate) const NO_ROW: NumberedRow<'static> = NumberedRow { line: 0, text: &[] };

/// The bytes after the byte order mark, if there is one.
pub(crate) fn without_mark(bytes: &[u8]) -> &[u8] {
    match bytes {
        [0xef, 0xbb, 0xbf, rest @ ..] => rest,
        _ => bytes,
    }
}

fn row_at(bytes: &[u8], at: usize) -> Option<NumberedRow<'_>> {
    if at >= bytes.len() {
        return None;
    }
    Some(NumberedRow {
        line: line_of(bytes, at),
        text: line_from(bytes, at),
    })
}

impl<'a> Typed<'a> {
    /// A row, if there is such a row. Row 0 is the header.
    pub(crate) fn row(&self, number: u32) -> Option<NumberedRow<'a>> {
        let bytes = without_mark(self.bytes);
        row_at(bytes, row_start(bytes, number as usize)?)
    }

    /// The first row after the header with this key.
    pub(crate) fn find(&self, key: &Key<'_>) -> Option<NumberedRow<'a>> {
        let bytes = without_mark(self.bytes);
        let mut rows = Rows::of(self);
        for _ in 0..bytes.len() {
            let (at, text) = rows.take_row()?;
            if key.fits(text) {
                return row_at(bytes, at);
            }
        }
        None
    }

    /// The first row after the header with this key, or no row.
    pub(crate) fn listed(&self, key: &Key<'_>) -> NumberedRow<'a> {
        self.find(key).unwrap_or(NO_ROW)
    }

    /// Whether the rows have two limits, as in a disks file whose header has four fields.
    pub(crate) fn has_sides(&self) -> bool {
        matches!(self.row(0), Some(header) if width(header.text) == 4)
    }
}

/// The rows after the header that are still to come.
#[derive(Clone, Copy)]
pub(crate) struct Rows<'a> {
    bytes: &'a [u8],
    at: usize,
}

impl<'a> Rows<'a> {
    pub(crate) fn of(typed: &Typed<'a>) -> Rows<'a> {
        let bytes = without_mark(typed.bytes);
        let at = row_start(bytes, 1).unwrap_or(bytes.len());
        Rows { bytes, at }
    }

    /// The byte at which the next row begins, and the row.
    pub(crate) fn take_row(&mut self) -> Option<(usize, &'a [u8])> {
        let rest = self.bytes.get(self.at..)?;
        let start = row_start(rest, 0)?;
        let text = line_from(rest, start);
        let at = self.at.saturating_add(start);
        self.at = at.saturating_add(text.len());
        Some((at, text))
    }
}

/// What a row is looked for by.
#[derive(Clone, Copy)]
pub(crate) enum Key<'a> {
    /// Its first field.
    First(&'a [u8]),
    /// Its first field, whatever the case of its letters.
    AnyCase(&'a [u8]),
    /// Its second and its third field, a disk and a slot.
    Spot { disk: &'a [u8], slot: u64 },
}

impl<'a> Key<'a> {
    fn fits(&self, row: &[u8]) -> bool {
        match self {
            Key::First(name) => field(row, 0) == *name,
            Key::AnyCase(name) => field(row, 0).eq_ignore_ascii_case(name),
            Key::Spot { disk, slot } => {
                field(row, 1) == *disk && read_digits(field(row, 2)) == Some(*slot)
            }
        }
    }
}

/// How many fields a row has.
pub(crate) fn width(row: &[u8]) -> usize {
    parted(row, 0).0
}

/// The field at a place, without its quotes; no bytes where the row has none there.
pub(crate) fn field(row: &[u8], place: usize) -> &[u8] {
    match parted(row, place).1 {
        [b'"', inner @ .., b'"'] => inner,
        field => field,
    }
}

/// How many fields a row has, and the one at a place; no bytes where it has none there.
fn parted(row: &[u8], place: usize) -> (usize, &[u8]) {
    let (mut passed, mut start, mut quoted) = (0usize, 0, false);
    let mut found: &[u8] = &[];
    for at in 0..=row.len() {
        match row.get(at) {
            Some(b'"') => quoted = !quoted,
            Some(b',') if quoted => {}
            Some(b',') | None => {
                if passed == place {
                    found = row.get(start..at).unwrap_or(&[]);
                }
                passed = passed.saturating_add(1);
                start = at.saturating_add(1);
            }
            _ => {}
        }
    }
    (passed, found)
}

/// The number in the field at a place, or 0.
pub(crate) fn number_at(row: &[u8], place: usize) -> u64 {
    read_digits(field(row, place)).unwrap_or(0)
}
