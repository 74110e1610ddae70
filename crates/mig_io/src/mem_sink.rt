ghost use Rattle.std.specs.Prelude.{◌≡◌, ◌≤◌, ◌↔◌, [], IsOk, IfOk, OnOk, OnErr, IsTrue, if◌then◌else◌, length};

use crate::{Sink, SinkFailed};
use std::alloc::{AllocError, Global};
use std::marker::Model;

/// A sink in memory with room for so many bytes, which fails at the puts that it is told.
#[derive(Drop)]
pub struct MemSink {
    held: Vec<u8>,
    room: usize,
    failing: Vec<u64>,
    puts: u64,
    faults: u64,
}

impl Model for MemSink {
    ghost use Rattle.std.specs.Prelude.{◌≤◌, vec_len};
    ghost use Rattle.std.specs.Vec.{vec_capacity};
    ghost use Rattle.mig_io.specs.Held.{Kept};

    ghost Value = { Kept };

    ghost view = { λ s. record { bytes = s.held.items; room = s.room; failing = s.failing.items; puts = s.puts; faults = s.faults } };

    ghost invariant = { λ s. (s.room ≤ vec_capacity s.held) × (vec_len s.held ≤ s.room) };
}

impl MemSink {
    ghost use Rattle.mig_io.specs.Counts.{next_count};
    ghost use Rattle.mig_io.specs.Held.{put_fails};

    /// An empty sink with room for so many bytes, whose puts with these numbers, counted from 0, fail. All its memory is taken here.
    pub fn new(alloc: Global, room: usize, failing: Vec<u64>) -> Result<MemSink, AllocError>
        ensures { IfOk result (λ s. s ≡ record { bytes = []; room = room; failing = failing.items; puts = 0; faults = 0 }) }
    {
        let held = Vec::with_capacity(alloc, room)?;
        Ok(MemSink {
            held,
            room,
            failing,
            puts: 0,
            faults: 0,
        })
    }

    /// The bytes that it holds.
    pub fn held(&self) -> &[u8]
        ensures { result.now ≡ self.now.bytes }
    {
        self.held.as_slice()
    }

    // Counts a put, and says whether it is one that fails.
    fn begin(&mut self) -> bool
        ensures fails { result ≡ put_fails self.old }
        ensures counted { self.new ≡ record self.old { puts = next_count self.old.puts } }
    {
        let fails = self.failing.iter().any(|n| *n == self.puts);
        self.puts = self.puts.saturating_add(1);
        fails
    }

    // Counts a fault.
    fn fault(&mut self)
        ensures { self.new ≡ record self.old { faults = next_count self.old.faults } }
    {
        self.faults = self.faults.saturating_add(1);
    }
}

impl Sink for MemSink {
    ghost use Rattle.std.specs.Prelude.{Some};
    ghost use Rattle.mig_io.specs.Counts.{next_count};
    ghost use Rattle.mig_io.specs.Held.{PutsAll, after_put};

    ghost state = { λ s. record { held = Some s.bytes; faults = s.faults } };

    /// Fails exactly at the numbers that were given, which add nothing, and where the piece is longer than the room that is left, which is then filled.
    fn put(&mut self, bytes: &[u8]) -> Result<(), SinkFailed>
        ensures succeeds { IsOk result ↔ PutsAll self.old bytes.now }
        ensures put { OnOk result (self.new ≡ after_put self.old bytes.now self.old.faults) }
        ensures failed { OnErr result (self.new ≡ after_put self.old bytes.now (next_count self.old.faults)) }
    {
        if self.begin() {
            self.fault();
            return Err(SinkFailed);
        }
        let part = bytes.len().min(self.room - self.held.len());
        let _ = self.held.extend_from_slice(&bytes[..part]);
        if part < bytes.len() {
            self.fault();
            return Err(SinkFailed);
        }
        Ok(())
    }
}
