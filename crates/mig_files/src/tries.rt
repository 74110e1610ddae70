//! Calls that are made again where they were interrupted.
#![tactic(auto, using(crate::proofs::Errs::err_any, crate::proofs::TaskSteps::leaves_then, crate::proofs::TaskSteps::quiet_leaves))]

ghost use Rattle.std.specs.Prelude.{◌≡◌, ◌≤◌, ◌<◌, ◌+◌, ◌^◌, IsTrue, IfOk, OnOk, OnErr, length};
ghost use Rattle.mig_base.specs.FaultCounts.{Rose};
ghost use Rattle.mig_calls.specs.Files.{EndsAt, HasBytes, HasCallCause, len_of};
ghost use Rattle.mig_calls.specs.Refusals.{IsRefusalCause, counted};
ghost use Rattle.mig_files.specs.Tracking.{IsQuiet};
ghost use Rattle.mig_files.specs.Tasks.{file_of_retried, IsDone, Leaves, KeepsClaim, StaysClaimed};

use mig_calls::{CallError, Calls, Extent, Place, Refusal};
use mig_store::StoreFailed;

/// Says why the store refuses, which is counted.
pub fn refuse<C: Calls>(calls: &mut C, why: &Refusal) -> StoreFailed
    requires { IsRefusalCause (C.Calls.state calls.old) why.now }
    ensures quiet { IsQuiet (C.Calls.state calls.old) (C.Calls.state calls.new) }
    ensures rose { Rose (counted why.now (C.Calls.state calls.old)) (counted why.now (C.Calls.state calls.new)) }
{
    calls.refuse(why);
    StoreFailed
}

/// A call that is made again where it was interrupted.
#[derive(Clone, Copy)]
pub enum RetriedCall {
    /// Takes the right to write.
    Claim,
    /// Brings a file to the device.
    Sync { place: Place },
    /// Brings the names of all files to the device.
    SyncNames,
}

impl RetriedCall {
    /// The file that it is about.
    fn place(&self) -> Place
        ensures { result ≡ file_of_retried self.now }
    {
        match self {
            RetriedCall::Sync { place } => *place,
            RetriedCall::Claim | RetriedCall::SyncNames => Place::Journal,
        }
    }
}

/// Makes the call once.
fn try_once<C: Calls>(calls: &mut C, task: &RetriedCall) -> Result<(), CallError>
    ensures done { OnOk result (IsDone task.now (C.Calls.state calls.new)) }
    ensures leaves { Leaves task.now (C.Calls.state calls.old) (C.Calls.state calls.new) }
    ensures claimed { StaysClaimed (C.Calls.state calls.old) (C.Calls.state calls.new) result }
    ensures cause { HasCallCause (C.Calls.state calls.old) (C.Calls.state calls.new) result }
{
    match task {
        RetriedCall::Claim => calls.claim(),
        RetriedCall::Sync { place } => calls.sync(place),
        RetriedCall::SyncNames => calls.sync_names(),
    }
}

/// Makes the call until it is not interrupted.
pub fn make<C: Calls>(calls: &mut C, task: &RetriedCall) -> Result<(), StoreFailed>
    ensures done { OnOk result (IsDone task.now (C.Calls.state calls.new)) }
    ensures leaves { Leaves task.now (C.Calls.state calls.old) (C.Calls.state calls.new) }
    ensures claimed { OnOk result (KeepsClaim (C.Calls.state calls.old) (C.Calls.state calls.new)) }
    ensures cause { OnErr result (Rose (C.Calls.state calls.old).faults (C.Calls.state calls.new).faults) }
{
    let place = task.place();
    'tries: for _ in 0..u64::MAX {
        match try_once(calls, task) {
            Ok(()) => return Ok(()),
            Err(CallError::Interrupted) => {}
            Err(CallError::Full) => return Err(refuse(calls, &Refusal::Full { place })),
            Err(CallError::Failed) => return Err(StoreFailed),
        }
    }
    Err(refuse(calls, &Refusal::Interrupted { place }))
}

/// Reads more bytes of a file, behind those that were read, and answers how many were read by now. What lies past the end is zeros.
fn read_more<C: Calls>(
    calls: &mut C,
    place: &Place,
    offset: u64,
    into: &mut [u8],
    done: usize,
) -> Result<usize, StoreFailed>
    requires within { done < length into.old }
    requires room { offset + length into.old < 2 ^ 64 }
    requires read { IsTrue ((C.Calls.state calls.old).told place.now) → HasBytes ((C.Calls.state calls.old).reads place.now) offset done into.old }
    ensures count { IfOk result (λ n. n ≤ length into.old) }
    ensures bytes { IfOk result (λ n. IsTrue ((C.Calls.state calls.old).told place.now) → HasBytes ((C.Calls.state calls.old).reads place.now) offset n into.new) }
    ensures progress { IfOk result (λ n. Rose (done + (C.Calls.state calls.old).unmade) (n + (C.Calls.state calls.new).unmade)) }
    ensures quiet { IsQuiet (C.Calls.state calls.old) (C.Calls.state calls.new) }
    ensures cause { OnErr result (Rose (C.Calls.state calls.old).faults (C.Calls.state calls.new).faults) }
{
    match calls.read_at(place, offset + done as u64, &mut into[done..]) {
        Ok(0) => {
            into[done..].fill(0);
            Ok(into.len())
        }
        Ok(count) => Ok(done + count),
        Err(CallError::Interrupted) => Ok(done),
        Err(CallError::Full) => Err(refuse(calls, &Refusal::Full { place: *place })),
        Err(CallError::Failed) => Err(StoreFailed),
    }
}

/// Reads so many bytes from an offset on. What lies past the file's end is zeros.
pub fn read_all<C: Calls>(
    calls: &mut C,
    place: &Place,
    offset: u64,
    into: &mut [u8],
) -> Result<(), StoreFailed>
    requires room { offset + length into.old < 2 ^ 64 }
    requires short { length into.old < 2 ^ 62 }
    ensures bytes { OnOk result (IsTrue ((C.Calls.state calls.old).told place.now) → HasBytes ((C.Calls.state calls.old).reads place.now) offset (length into.old) into.new) }
    ensures quiet { IsQuiet (C.Calls.state calls.old) (C.Calls.state calls.new) }
    ensures cause { OnErr result (Rose (C.Calls.state calls.old).faults (C.Calls.state calls.new).faults) }
{
    let mut done = 0;
    'tries: for _ in 0..u64::MAX {
        if done >= into.len() {
            return Ok(());
        }
        done = read_more(calls, place, offset, into, done)?;
    }
    Err(refuse(calls, &Refusal::Interrupted { place: *place }))
}

/// The same where it is known how many bytes the file has: past its end it isn't read. One that isn't there is: it may be a link that leads nowhere, which is refused.
pub fn read_found<C: Calls>(
    calls: &mut C,
    place: &Place,
    offset: u64,
    found: &Extent,
    into: &mut [u8],
) -> Result<(), StoreFailed>
    requires room { offset + length into.old < 2 ^ 64 }
    requires short { length into.old < 2 ^ 62 }
    requires end { IsTrue ((C.Calls.state calls.old).told place.now) → EndsAt ((C.Calls.state calls.old).reads place.now) (len_of found.now) }
    ensures bytes { OnOk result (IsTrue ((C.Calls.state calls.old).told place.now) → HasBytes ((C.Calls.state calls.old).reads place.now) offset (length into.old) into.new) }
    ensures quiet { IsQuiet (C.Calls.state calls.old) (C.Calls.state calls.new) }
    ensures cause { OnErr result (Rose (C.Calls.state calls.old).faults (C.Calls.state calls.new).faults) }
{
    match found {
        Extent::File { len } if *len <= offset => {
            into.fill(0);
            Ok(())
        }
        _ => read_all(calls, place, offset, into),
    }
}
