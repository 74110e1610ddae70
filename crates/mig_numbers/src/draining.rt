//! Next disks that empty a disk, over numbers.
ghost use Rattle.std.specs.Prelude.{◌≡◌, ◌≢◌, ◌↔◌, ◌⊎◌, ◌<◌, ◌≤◌, IfErr, IfOk, length};
ghost use Rattle.mig_drain.specs.Causes.{IsDrainCause};
ghost use Rattle.mig_numbers.specs.Drains.{CantDrain, HandsDrain, IsUndrained, drain_of};
ghost use Rattle.mig_numbers.specs.Numbers.{input_of};
ghost use Rattle.mig_numbers.specs.Refusals.{AreThere, RefusesUnfit};

use crate::numbers::{DiskNumbers, DrainNumbers, ItemNumbers, NumbersRefusal, Refused, Unmade};
use crate::reading::read_any;
use crate::writing::{refusal, refused_in, write_ids};
use mig_base::DiskId;
use mig_drain::{DrainError, Shown, drain};
use std::alloc::Global;

/// The numbers of what shows that no fewer rounds are enough.
fn shown_in(rounds: u32, shown: Shown) -> DrainNumbers
    ensures { result ≡ drain_of rounds shown }
{
    let (shown, count, limit) = match shown {
        Shown::Nothing => (0, 0, 0),
        Shown::Own { load, limit } => (1, load, limit),
        Shown::Others { room } => (2, room, 0),
    };
    DrainNumbers {
        rounds,
        shown,
        count,
        limit,
    }
}

/// Why a disk isn't emptied.
fn undrained(
    split: bool,
    disks: &[DiskNumbers],
    items: &[ItemNumbers],
    disk: u32,
    error: DrainError,
) -> Unmade
    requires there { AreThere split disks.now items.now }
    requires cause { IsDrainCause (input_of split disks.now items.now) disk error }
    ensures { IsUndrained split disks.now items.now disk result }
{
    match error {
        DrainError::NoRoom { items, free } => Unmade::Impossible(Refused {
            cause: 8,
            place: disk,
            needs: items,
            has: free,
        }),
        DrainError::Memory => Unmade::Unfit(NumbersRefusal::Memory),
    }
}

/// Puts next disks that empty a disk, where there is room for them.
fn drain_into(
    alloc: Global,
    split: bool,
    disks: &[DiskNumbers],
    items: &[ItemNumbers],
    disk: u32,
    next: &mut [u32],
) -> Result<DrainNumbers, Unmade>
    ensures drained { IfOk result (HandsDrain split disks.now items.now disk next.old next.new) }
    ensures undrained { IfErr result (IsUndrained split disks.now items.now disk) }
    ensures kept { IfErr result (λ _. next.new ≡ next.old) }
{
    let input = match read_any(alloc, split, disks, items) {
        Ok(input) => input,
        Err(why) => return Err(Unmade::Unfit(why)),
    };
    if disk as usize >= input.disks().len() {
        return Err(Unmade::Impossible(refusal(4, disk)));
    }
    match drain(alloc, &input, DiskId(disk)) {
        Ok(drained) => {
            write_ids(next, drained.next.ids());
            Ok(shown_in(drained.rounds, drained.shown))
        }
        Err(error) => Err(undrained(split, disks, items, disk, error)),
    }
}

/// Finds next disks that empty a disk in the fewest rounds: that of each item, in how many rounds, and what shows that no fewer are
/// enough; or why there are none. The next disks that items have aren't looked at, but must be there.
///
/// Statuses: 0, 3 where the numbers are refused, 7 where memory is wanting, 14 where the disk isn't there or the others lack free
/// slots, 100 where there is room for fewer next disks than items.
pub fn drain_numbers(
    alloc: Global,
    split: bool,
    disks: &[DiskNumbers],
    items: &[ItemNumbers],
    disk: u32,
    next: &mut [u32],
    drained: &mut DrainNumbers,
    refused: &mut Refused,
) -> u32
    ensures done { result ≡ 0 → HandsDrain split disks.now items.now disk next.old next.new drained.new }
    ensures short { (result ≡ 100) ↔ (length next.old < length items.now) }
    ensures refused { result ≡ 3 → RefusesUnfit split disks.now items.now refused.new }
    ensures undrained { result ≡ 14 → AreThere split disks.now items.now × CantDrain (input_of split disks.now items.now) disk refused.new }
    ensures kept { result ≢ 0 → next.new ≡ next.old }
    ensures statuses { (result ≡ 0) ⊎ (result ≡ 3) ⊎ (result ≡ 7) ⊎ (result ≡ 14) ⊎ (result ≡ 100) }
{
    if next.len() < items.len() {
        return 100;
    }
    match drain_into(alloc, split, disks, items, disk, next) {
        Ok(done) => {
            *drained = done;
            0
        }
        Err(Unmade::Impossible(why)) => {
            *refused = why;
            14
        }
        Err(Unmade::Unfit(NumbersRefusal::Memory)) => 7,
        Err(Unmade::Unfit(why)) => {
            *refused = refused_in(why);
            3
        }
    }
}
