//! Writing bytes whole, into any writer.
ghost use Rattle.std.specs.Prelude.{◌≢◌, OnOk, OnErr, IfErr};
ghost use Rattle.std.specs.Io.{WritesAtMost};
ghost use Rattle.std.specs.Io.KnownBytes.{Appends, WriteAppends};
ghost use Rattle.std.specs.IoError.{error_kind};
ghost use Rattle.mig_save.specs.Streams.{AppendsBeginning};

use std::io::{self, ErrorKind, Write};

/// One write. One that a signal interrupted is tried again.
pub fn write_some<W: Write>(out: &mut W, bytes: &[u8]) -> io::Result<usize>
    ensures bound { WritesAtMost result bytes.now }
    ensures written { WriteAppends (W.contents out.old) (W.contents out.new) result bytes.now }
    ensures tried_again { IfErr result (λ e. error_kind e ≢ ErrorKind.Interrupted) }
{
    for _ in 0..u64::MAX {
        match out.write(bytes) {
            Err(error) if error.kind() == ErrorKind::Interrupted => {}
            written => return written,
        }
    }
    Err(ErrorKind::TimedOut.into())
}

/// Writes all the bytes, at least one in each turn. A write of no byte is a fault; after a fault a beginning of the bytes is written.
pub fn write_whole<W: Write>(out: &mut W, bytes: &[u8]) -> io::Result<()>
    ensures whole { OnOk result (Appends (W.contents out.old) (W.contents out.new) bytes.now) }
    ensures in_part { OnErr result (AppendsBeginning (W.contents out.old) (W.contents out.new) bytes.now) }
    ensures tried_again { IfErr result (λ e. error_kind e ≢ ErrorKind.Interrupted) }
{
    let mut done = 0;
    while done < bytes.len() {
        let count = write_some(out, &bytes[done..])?;
        if count == 0 {
            return Err(ErrorKind::WriteZero.into());
        }
        done += count;
    }
    Ok(())
}
