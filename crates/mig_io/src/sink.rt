ghost use Rattle.std.specs.Prelude.{◌≤◌, OnOk, OnErr};
ghost use Rattle.mig_base.specs.FaultCounts.{Rose};
ghost use Rattle.mig_io.specs.Held.{SinkState, Extends, ExtendsInPart};

/// A piece was not put, or not whole.
#[derive(Clone, Copy, PartialEq, Eq)]
pub struct SinkFailed;

/// What the program's texts are put into, with a count of its faults that never falls.
pub trait Sink {
    /// The bytes that it holds, where it tells them, and how often it has failed.
    ghost state: { Self → SinkState };

    /// Extends what is held by the piece. Where it fails, what is held is extended by a prefix of the piece.
    fn put(&mut self, bytes: &[u8]) -> Result<(), SinkFailed>
        ensures extended { OnOk result (Extends bytes.now (state self.old) (state self.new)) }
        ensures in_part { OnErr result (ExtendsInPart bytes.now (state self.old) (state self.new)) }

        ensures later { (state self.old).faults ≤ (state self.new).faults }
        ensures failed { OnErr result (Rose (state self.old).faults (state self.new).faults) };
}
