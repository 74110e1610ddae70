//! The text of one call.
ghost use Rattle.std.specs.Prelude.{◌≡◌, ◌≢◌, ◌↔◌, [], IsTrue, Some};

use mig_io::{Sink, SinkFailed};
use std::alloc::Global;

/// A text in memory. Its only faults are puts for which memory was refused.
#[derive(Drop)]
pub struct ByteSink {
    held: Vec<u8>,
    faults: u64,
}

impl ByteSink {
    /// No text.
    pub fn new(alloc: Global) -> Self
        ensures held { result.held.items ≡ [] }
        ensures faults { result.faults ≡ 0 }
    {
        ByteSink {
            held: Vec::new(alloc),
            faults: 0,
        }
    }

    /// The text.
    pub fn held(&self) -> &[u8]
        ensures { result.now ≡ self.now.held.items }
    {
        self.held.as_slice()
    }

    /// Whether memory was refused for a part of the text.
    pub fn has_failed(&self) -> bool
        ensures { IsTrue result ↔ self.now.faults ≢ 0 }
    {
        self.faults != 0
    }
}

impl Sink for ByteSink {
    ghost state = { λ s. record { held = Some s.held.items; faults = s.faults } };

    fn put(&mut self, bytes: &[u8]) -> Result<(), SinkFailed> {
        match self.held.extend_from_slice(bytes) {
            Ok(()) => Ok(()),
            Err(_) => {
                self.faults = self.faults.saturating_add(1);
                Err(SinkFailed)
            }
        }
    }
}
