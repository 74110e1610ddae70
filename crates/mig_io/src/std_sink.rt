//! Standard output.
ghost use Rattle.std.specs.Prelude.{◌≡◌, None, ℕ};

use crate::{Sink, SinkFailed};
use mig_save::write_whole;
use std::io::{self, ErrorKind};

/// Standard output. Of what reaches it nothing is told. What failed, and why, is said on standard error, unless it is that the other end of a pipe was closed.
pub struct StdSink<'a, R: Print + Eprint> {
    rt: &'a R,
    faults: u64,
}

impl<'a, R: Print + Eprint> Drop for StdSink<'a, R> {
    fn drop(self) {
        let StdSink { rt: _, faults: _ } = self;
    }
}

impl<'a, R: Print + Eprint> StdSink<'a, R> {
    /// The sink over this runtime's standard output, without a fault so far.
    pub fn new(rt: &'a R) -> Self
        ensures { result.faults ≡ 0 }
    {
        StdSink { rt, faults: 0 }
    }
}

impl<'a, R: Print + Eprint> Sink for StdSink<'a, R> {
    ghost state = { λ s. record { held = None; faults = s.faults } };

    fn put(&mut self, bytes: &[u8]) -> Result<(), SinkFailed> {
        let mut out = io::writer(self.rt);
        let Err(error) = write_whole(&mut out, bytes) else {
            return Ok(());
        };
        // who closes a pipe wants no more of it, and no news
        if error.kind() != ErrorKind::BrokenPipe {
            let _ = eprintln!(self.rt; "migrate: cannot write to standard output: {error}");
        }
        self.faults = self.faults.saturating_add(1);
        Err(SinkFailed)
    }
}
