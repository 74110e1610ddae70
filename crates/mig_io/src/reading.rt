//! Reading the first bytes of any reader.
ghost use Rattle.std.specs.Prelude.{◌≡◌, ◌≢◌, ◌≤◌, take, vec_len, IfOk, IfErr};
ghost use Rattle.std.specs.Option.{IfSome};
ghost use Rattle.std.specs.Io.{ReadsAtMost};
ghost use Rattle.std.specs.Io.KnownBytes.{ReadConsumes};
ghost use Rattle.std.specs.IoError.{error_kind};

use std::alloc::Global;
use std::io::{self, ErrorKind, Read};

const PIECE: usize = 4096;

/// One read. One that a signal interrupted is tried again.
fn read_some<F: Read>(file: &mut F, piece: &mut [u8]) -> io::Result<usize>
    ensures bound { ReadsAtMost result piece.new }
    ensures read { ReadConsumes (F.remaining file.old) (F.remaining file.new) result piece.new }
    ensures tried_again { IfErr result (λ e. error_kind e ≢ ErrorKind.Interrupted) }
{
    for _ in 0..u64::MAX {
        match file.read(piece) {
            Err(error) if error.kind() == ErrorKind::Interrupted => {}
            read => return read,
        }
    }
    Err(ErrorKind::TimedOut.into())
}

/// The first `most` bytes of what remained, or all where there are fewer. At least one is read in each turn; a read of no byte is the end.
pub fn read_first<F: Read>(alloc: Global, file: &mut F, most: usize) -> io::Result<Vec<u8>>
    ensures bytes { IfOk result (λ bytes. IfSome (F.remaining file.old) (λ left. bytes.items ≡ take most left)) }
    ensures most { IfOk result (λ bytes. vec_len bytes ≤ most) }
    ensures tried_again { IfErr result (λ e. error_kind e ≢ ErrorKind.Interrupted) }
{
    let mut bytes = Vec::new(alloc);
    let mut piece = [0u8; PIECE];
    while bytes.len() < most {
        let room = PIECE.min(most - bytes.len());
        let count = read_some(file, &mut piece[..room])?;
        if count == 0 {
            break;
        }
        bytes.extend_from_slice(&piece[..count])?;
    }
    Ok(bytes)
}
