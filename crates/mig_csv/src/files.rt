//! The header of a file, and what comes after it.
ghost use Rattle.std.specs.Prelude.{◌≡◌, ◌↔◌, ◌==◌, IfErr, IfOk, IsTrue, Some, length, map, slice_get};
ghost use Rattle.csv.specs.Records.{fields_of};
ghost use Rattle.mig_base.specs.Rows.{header_row, records_of};
ghost use Rattle.mig_csv.specs.Opened.{IsOpened};
ghost use Rattle.mig_csv.specs.Refusals.{RefusesHeader};

use crate::errors::{InputError, refused};
use crate::rows::{Records, field};
use csv::ByteRecord;
use mig_base::{FileKind, MAX_FILE_BYTES, Why};

/// Reads the header of a file, whose records these are, into `row`. Whoever reads a file owns its records, and hands them on by
/// reference: they are 33 KB of stack.
#[inline(never)]
pub(crate) fn read_header(
    file: FileKind,
    bytes: &[u8],
    records: &mut Records<'_>,
    row: &mut ByteRecord,
) -> Result<(), InputError>
    requires { records.old ≡ records_of bytes.now }
    ensures opened { IfOk result (λ _. IsOpened file bytes.now records.new) }
    ensures header { IfOk result (λ _. slice_get (records_of bytes.now) 0 ≡ Some (fields_of row.new)) }
    ensures refused { IfErr result (RefusesHeader file bytes.now) }
{
    if bytes.len() > MAX_FILE_BYTES {
        return Err(refused(file, 0, Why::TooLong));
    }
    let found = records.read(row)?;
    if !found || !is_header(file, row) {
        return Err(refused(file, 0, Why::BadHeader));
    }
    Ok(())
}

/// Whether the row has four fields: a disks file that begins so has two limits in each row.
pub(crate) fn has_sides(row: &ByteRecord) -> bool
    ensures { result ≡ (length (fields_of row.now) == 4) }
{
    row.len() == 4
}

/// Whether the row is the header of the file. A disks file has one of two.
fn is_header(file: FileKind, row: &ByteRecord) -> bool
    ensures { IsTrue result ↔ (fields_of row.now ≡ header_row file (length (fields_of row.now) == 4)) }
{
    match file {
        FileKind::Disks if has_sides(row) => has_fields(row, &[b"disk", b"out", b"in", b"slots"]),
        FileKind::Disks => has_fields(row, &[b"disk", b"limit", b"slots"]),
        FileKind::Now => has_fields(row, &[b"item", b"disk", b"slot"]),
        FileKind::Next => has_fields(row, &[b"item", b"disk"]),
    }
}

/// Whether the row has just these fields.
fn has_fields(row: &ByteRecord, fields: &[&[u8]]) -> bool
    ensures { IsTrue result ↔ (fields_of row.now ≡ map (λ f. f.now) fields.now) }
{
    if row.len() != fields.len() {
        return false;
    }
    for (i, wanted) in fields.iter().enumerate() {
        if field(row, i) != *wanted {
            return false;
        }
    }
    true
}
