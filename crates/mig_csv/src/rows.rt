//! The records of a file and their fields.
ghost use Rattle.std.specs.Prelude.{◌≡◌, ◌∷◌, [], IfErr, IfOk, MatchBool, slice_get, unwrap_or};
ghost use Rattle.csv.specs.Records.{fields_of};
ghost use Rattle.mig_base.specs.Rows.{records_of};

use crate::errors::InputError;
use csv::{ByteRecord, Reader, ReaderBuilder};
use std::alloc::Global;
use std::marker::Model;

/// The records of a text that are still to be read.
#[derive(Drop)]
pub(crate) struct Records<'a> {
    rdr: Reader<&'a [u8]>,
}

impl<'a> Model for Records<'a> {
    ghost use Rattle.std.specs.Prelude.{List, ℕ};

    ghost Value = { List (List (List ℕ)) };

    ghost use Rattle.mig_csv.specs.Unread.{unread_records, ReadsRecords};

    ghost view = { λ r. unread_records r.rdr };

    ghost invariant = { λ r. ReadsRecords r.rdr };
}

impl<'a> Records<'a> {
    /// Every record of a text, which may begin with a byte order mark.
    pub(crate) fn of(alloc: Global, text: &'a [u8]) -> Records<'a>
        ensures { result ≡ records_of text.now }
    {
        Records {
            rdr: ReaderBuilder::new()
                .has_headers(false)
                .flexible(true)
                .from_reader(alloc, text),
        }
    }

    /// The next record into `row`, and whether there was one. After an error nothing is known of the records.
    pub(crate) fn read(&mut self, row: &mut ByteRecord) -> Result<bool, InputError>
        ensures found { IfOk result (λ found. MatchBool found (self.old ≡ fields_of row.new ∷ self.new) (self.old ≡ [])) }
        ensures memory { IfErr result (λ e. e ≡ InputError.Memory) }
    {
        match self.rdr.read_byte_record(row) {
            Ok(found) => Ok(found),
            Err(_) => Err(InputError::Memory),
        }
    }
}

/// The field at a place, or no bytes where the row has none there.
pub(crate) fn field(row: &ByteRecord, i: usize) -> &[u8]
    ensures { result.now ≡ unwrap_or (slice_get (fields_of row.now) i) [] }
{
    match row.get(i) {
        Some(bytes) => bytes,
        None => &[],
    }
}
