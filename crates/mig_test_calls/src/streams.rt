//! Readers and writers that move a byte a call, are interrupted, or fail on the way.

use mig_io::read_first;
use mig_save::write_whole;
use std::alloc::Global;
use std::io::{self, ErrorKind, Read, Write};
use std::panic::Expect;

/// A reader and a writer that moves at most one byte a call, and does at each call what the script says: `1` moves one, `0` none,
/// `i` is interrupted, `x` fails. After the script each call moves one.
#[derive(Drop)]
struct Scripted {
    script: &'static [u8],
    calls: usize,
    bytes: Vec<u8>,
    read: usize,
}

impl Scripted {
    fn new(script: &'static [u8], bytes: Vec<u8>) -> Self {
        Scripted {
            script,
            calls: 0,
            bytes,
            read: 0,
        }
    }

    /// Whether this call moves a byte.
    fn moves(&mut self) -> io::Result<bool> {
        let step = self.script.get(self.calls).copied();
        self.calls = self.calls.saturating_add(1);
        match step {
            Some(b'i') => Err(ErrorKind::Interrupted.into()),
            Some(b'x') => Err(ErrorKind::Other.into()),
            Some(b'0') => Ok(false),
            _ => Ok(true),
        }
    }
}

impl Read for Scripted {
    fn read(&mut self, buf: &mut [u8]) -> io::Result<usize> {
        if !self.moves()? || buf.is_empty() {
            return Ok(0);
        }
        let Some(byte) = self.bytes.get(self.read) else {
            return Ok(0);
        };
        buf[0] = *byte;
        self.read = self.read.saturating_add(1);
        Ok(1)
    }
}

impl Write for Scripted {
    fn write(&mut self, buf: &[u8]) -> io::Result<usize> {
        if !self.moves()? || buf.is_empty() {
            return Ok(0);
        }
        self.bytes.push(buf[0])?;
        Ok(1)
    }

    fn flush(&mut self) -> io::Result<()> {
        Ok(())
    }
}

/// Scripts, and what is read by them of five bytes, so many at most; None where the reader fails.
static READS: [(&[u8], usize, Option<&[u8]>); 8] = [
    (b"", 10, Some(b"abcde")),
    (b"", 5, Some(b"abcde")),
    (b"", 3, Some(b"abc")),
    (b"", 0, Some(b"")),
    (b"1ii1i", 10, Some(b"abcde")),
    (b"110", 10, Some(b"ab")),
    (b"11x", 2, Some(b"ab")),
    (b"11x", 10, None),
];

/// Scripts, whether five bytes are written whole by them, and what is written.
static WRITES: [(&[u8], bool, &[u8]); 5] = [
    (b"", true, b"abcde"),
    (b"i1ii1", true, b"abcde"),
    (b"11x", false, b"ab"),
    (b"110", false, b"ab"),
    (b"0", false, b""),
];

/// Whether this is read.
fn is_read(alloc: Global, from: &mut Scripted, most: usize, wanted: Option<&[u8]>) -> bool {
    match read_first(alloc, from, most) {
        Ok(got) => wanted == Some(got.as_slice()),
        Err(_) => wanted.is_none(),
    }
}

/// Whether five bytes are written whole, and this is written.
fn is_written(out: &mut Scripted, whole: bool, wanted: &[u8]) -> bool {
    write_whole(out, b"abcde").is_ok() == whole && out.bytes.as_slice() == wanted
}

#[test]
fn one_byte_a_call(rt: HostRuntime) {
    for (script, most, wanted) in &READS {
        let bytes = Vec::from_slice(rt.alloc(), b"abcde").expect(&rt, "ample memory");
        assert!(rt;
            is_read(
                rt.alloc(),
                &mut Scripted::new(script, bytes),
                *most,
                *wanted
            )
        );
    }
    for (script, whole, wanted) in &WRITES {
        assert!(rt;
            is_written(
                &mut Scripted::new(script, Vec::new(rt.alloc())),
                *whole,
                wanted
            )
        );
    }
}
