//! Rows and lines of a text, as an editor counts them.
ghost use Rattle.std.specs.Prelude.{◌≡◌, ◌+◌, ◌-◌, ◌≤◌, ◌<◌, ◌++◌, true, false, All, IfNone, IfSome, IsTrue, drop, length, not, slice_index_or, take};
ghost use Rattle.mig_hints.specs.Lines.{is_line_end, begins_row, ends_line, rows_before, ends_before};

/// Whether the byte is at the end of a line: LF or CR.
fn is_line_end(byte: u8) -> bool
    ensures { result ≡ is_line_end byte }
{
    byte == b'\n' || byte == b'\r'
}

/// Whether a row begins at this byte: at the first byte of a line that is not empty.
fn begins_row(bytes: &[u8], at: usize) -> bool
    requires { at < length bytes.now }
    ensures { result ≡ begins_row bytes.now at }
{
    !is_line_end(bytes[at]) && (at == 0 || is_line_end(bytes[at - 1]))
}

/// Whether a line ends with this byte: CR LF ends one line.
fn ends_line(bytes: &[u8], at: usize) -> bool
    requires { at < length bytes.now }
    ensures { result ≡ ends_line bytes.now at }
{
    bytes[at] == b'\n' || (bytes[at] == b'\r' && bytes.get(at + 1) != Some(&b'\n'))
}

/// The byte at which the row with this number begins, if there is one. Rows count from 0: the lines that are not empty.
pub(crate) fn row_start(bytes: &[u8], row: usize) -> Option<usize>
    ensures begins { IfSome result (λ at. begins_row bytes.now at ≡ true) }
    ensures number { IfSome result (λ at. rows_before bytes.now at ≡ row) }
    ensures inside { IfSome result (λ at. at < length bytes.now) }
    ensures none { IfNone result (rows_before bytes.now (length bytes.now) ≤ row) }
{
    let mut rows = 0;
    for at in 0..bytes.len() {
        if begins_row(bytes, at) {
            if rows == row {
                return Some(at);
            }
            rows += 1;
        }
    }
    None
}

/// The number of the line that a byte is in. Lines count from 1.
pub(crate) fn line_of(bytes: &[u8], at: usize) -> usize
    requires { at < length bytes.now }
    ensures { result ≡ ends_before bytes.now at + 1 }
{
    let mut ends = 0;
    for k in 0..at {
        if ends_line(bytes, k) {
            ends += 1;
        }
    }
    ends + 1
}

/// The text from a byte to before the end of its line.
pub(crate) fn line_from(bytes: &[u8], at: usize) -> &[u8]
    requires { at ≤ length bytes.now }
    ensures part { result.now ≡ take (length result.now) (drop at bytes.now) }
    ensures line { All (λ b. is_line_end b ≡ false) result.now }
{
    let rest = &bytes[at..];
    match rest.iter().position(|b| is_line_end(*b)) {
        Some(end) => &rest[..end],
        None => rest,
    }
}
