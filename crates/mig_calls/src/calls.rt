//! What the store asks of the system: a few calls on files by their place.
ghost use Rattle.std.specs.Prelude.{◌≡◌, ◌≤◌, ◌<◌, ℕ, IsTrue, IsFalse, IfOk, OnOk, length};
ghost use Rattle.mig_base.specs.FaultCounts.{Rose};
ghost use Rattle.mig_calls.specs.Files.{FilesState, IsFilesState, FilesLook, FilesWrite, KeepsFlags, KeepsRights, TouchesFile, HasBytes, EndsAt, len_of, HasCallCause, StaysUsable};
ghost use Rattle.mig_calls.specs.Refusals.{IsRefusalCause, counted, is_found};

use crate::places::Place;
use crate::refusals::Refusal;

/// Why a call gave nothing.
#[derive(Clone, Copy, PartialEq, Eq)]
pub enum CallError {
    /// A signal came first. Nothing was done, and the same call may be made again.
    Interrupted,
    /// Too many files are open to open this one. Nothing was done, and the same call may be made again once another file is closed.
    Full,
    /// The call failed, and the count of faults rose.
    Failed,
}

/// What a write did.
#[derive(Clone, Copy, PartialEq, Eq)]
pub struct Written {
    /// How many bytes were written.
    pub count: usize,
    /// The file was made for it.
    pub made: bool,
}

/// How many bytes a file has.
#[derive(Clone, Copy, PartialEq, Eq)]
pub enum Extent {
    /// The file isn't there.
    Absent,
    /// A plain file, which grows where it is written past its end.
    File { len: u64 },
    /// A device, which can't grow.
    Device { len: u64 },
}

impl Extent {
    /// How many bytes there are; none where the file isn't there.
    pub fn len(&self) -> u64
        ensures { result ≡ len_of self.now }
    {
        match self {
            Extent::Absent => 0,
            Extent::File { len } | Extent::Device { len } => *len,
        }
    }
}

/// The calls on the store's files.
///
/// A sync that failed may have lost bytes that reads still give, and no later sync brings them back. So from then on no process may write, until the files are mounted anew.
///
/// A file is named by its place, and opened by the first call on it. One that isn't there reads as one of no bytes, and the first write makes it.
pub trait Calls {
    /// What the files tell of themselves.
    ghost state: { Self → FilesState };

    /// Takes the right to write for this process alone, until it ends. The journal is made for it where it isn't there. It fails where a sync has failed since the files were mounted.
    fn claim(&mut self) -> Result<(), CallError>
        ensures usable { (state self.new).usable ≡ (state self.old).usable }
        ensures claimed { OnOk result (IsTrue (state self.new).claimed) }
        ensures kept { IsTrue (state self.old).claimed → IsTrue (state self.new).claimed }
        ensures flushed { (state self.new).flushed ≡ (state self.old).flushed }
        ensures change { FilesLook (state self.old) (state self.new) }
        ensures cause { HasCallCause (state self.old) (state self.new) result };

    /// Reads some bytes from an offset on; none only at the file's end.
    fn read_at(&mut self, place: &Place, offset: u64, into: &mut [u8]) -> Result<usize, CallError>
        ensures count { IfOk result (λ n. n ≤ length into.old) }
        ensures bytes { IfOk result (λ n. IsTrue ((state self.old).told place.now) → HasBytes ((state self.old).reads place.now) offset n into.new) }
        ensures end { IfOk result (λ n. n ≡ 0 → 0 < length into.old → IsTrue ((state self.old).told place.now) → EndsAt ((state self.old).reads place.now) offset) }
        ensures flags { KeepsFlags (state self.old) (state self.new) }
        ensures change { FilesLook (state self.old) (state self.new) }
        ensures cause { HasCallCause (state self.old) (state self.new) result };

    /// How many bytes a file has; what lies behind them reads as zeros.
    fn len(&mut self, place: &Place) -> Result<Extent, CallError>
        ensures end { IfOk result (λ found. IsTrue ((state self.old).told place.now) → EndsAt ((state self.old).reads place.now) (len_of found)) }
        ensures flags { KeepsFlags (state self.old) (state self.new) }
        ensures change { FilesLook (state self.old) (state self.new) }
        ensures cause { HasCallCause (state self.old) (state self.new) result };

    /// Writes some of the bytes from an offset on, at least one where there are some, and makes the file where it isn't there. Until it and the names are synced a crash may leave any bytes where they were to go, also where the call failed.
    fn write_at(&mut self, place: &Place, offset: u64, bytes: &[u8]) -> Result<Written, CallError>
        requires { IsTrue (state self.old).claimed }
        ensures rights { KeepsRights (state self.old) (state self.new) }
        ensures count { IfOk result (λ written. written.count ≤ length bytes.now) }
        ensures some { IfOk result (λ written. 0 < length bytes.now → 0 < written.count) }
        ensures written { IfOk result (λ written. IsTrue ((state self.new).told place.now) → HasBytes ((state self.new).reads place.now) offset written.count bytes.now) }
        ensures named { IfOk result (λ written. IsFalse written.made → IsTrue (state self.old).named → IsTrue (state self.new).named) }
        ensures flags { TouchesFile place.now (state self.old) (state self.new) }
        ensures change { FilesWrite place.now offset (length bytes.now) (state self.old) (state self.new) }
        ensures cause { HasCallCause (state self.old) (state self.new) result };

    /// Brings all that was written to a file to the device, unless a sync has failed.
    fn sync(&mut self, place: &Place) -> Result<(), CallError>
        ensures usable { StaysUsable (state self.old) (state self.new) result }
        ensures flushed { OnOk result (IsTrue ((state self.new).flushed place.now)) }
        ensures named { (state self.new).named ≡ (state self.old).named }
        ensures flags { TouchesFile place.now (state self.old) (state self.new) }
        ensures change { FilesLook (state self.old) (state self.new) }
        ensures cause { HasCallCause (state self.old) (state self.new) result };

    /// Brings the names of all files to the device.
    fn sync_names(&mut self) -> Result<(), CallError>
        ensures usable { StaysUsable (state self.old) (state self.new) result }
        ensures done { OnOk result (IsTrue (state self.new).named) }
        ensures flushed { (state self.new).flushed ≡ (state self.old).flushed }
        ensures change { FilesLook (state self.old) (state self.new) }
        ensures cause { HasCallCause (state self.old) (state self.new) result };

    /// Closes a file, which the next call on it opens again. Only who has a file open is told of a write that came to nothing, so the device has to have all of it.
    fn close(&mut self, place: &Place)
        requires flushed { IsTrue ((state self.old).flushed place.now) }
        ensures flags { KeepsFlags (state self.old) (state self.new) }
        ensures change { FilesLook (state self.old) (state self.new) }
        ensures later { (state self.old).faults ≤ (state self.new).faults }
        ensures more { (state self.old).unmade ≤ (state self.new).unmade };

    /// Counts that the store refuses, and says why to whom it may concern. It needs a cause. What the store found is no fault of a call.
    fn refuse(&mut self, why: &Refusal)
        requires { IsRefusalCause (state self.old) why.now }
        ensures flags { KeepsFlags (state self.old) (state self.new) }
        ensures change { FilesLook (state self.old) (state self.new) }
        ensures rose { Rose (counted why.now (state self.old)) (counted why.now (state self.new)) }
        ensures found { IsTrue (is_found why.now) → (state self.new).faults ≡ (state self.old).faults }
        ensures later { (state self.old).faults ≤ (state self.new).faults }
        ensures more { (state self.old).unmade ≤ (state self.new).unmade };

    ghost is_state: { (calls : Self) → IsFilesState (state calls) };
}
