//! The checks of a round's shifts one after another, and what carrying them out does to the tables.
ghost use Rattle.std.specs.Prelude.{◌≡◌, ◌≢◌, ◌<◌, ◌≤◌, ◌&&◌, All, AllPairs, IfNone, IfOk, IfSome, Some, length, not};
ghost use Rattle.mig_base.specs.declared.ids.Spot.{Spot};
ghost use Rattle.mig_base.specs.Checks.{Free, Leaves, Passes, Single};
ghost use Rattle.mig_base.specs.Judging.{IsFirstShift, LacksSlot, LeavesElsewhere, RepeatsItem};
ghost use Rattle.mig_base.specs.Running.{ShiftFits};
ghost use Rattle.mig_check.specs.SpotSets.{has_spot};
ghost use Rattle.mig_check.specs.Tables.{IsTakenSet, HaveRoom, LacksSlotIn, after_round, is_source, layout_of};

use crate::taken::Taken;
use mig_base::{Disk, Input, ItemId, Shift, Spot};
use std::alloc::AllocError;

/// The item of the first shift that does not leave its item's spot.
pub fn find_elsewhere(spots: &[Spot], round: &[Shift]) -> Option<ItemId>
    requires { All (λ s. s.item.0 < length spots.now) round.now }
    ensures none { IfNone result (All (λ s. layout_of spots.now s.item.0 ≡ Some s.from) round.now) }
    ensures some { IfSome result (λ item. IsFirstShift round.now (LeavesElsewhere (layout_of spots.now) round.now) item.0) }
{
    for s in round {
        if spots[s.item.0 as usize] != s.from {
            return Some(s.item);
        }
    }
    None
}

/// The item of the first shift whose item an earlier one has. Items that this round shifts get its number.
pub fn find_repeat(seen: &mut [u32], number: u32, round: &[Shift]) -> Option<ItemId>
    requires items { All (λ s. s.item.0 < length seen.old) round.now }
    requires earlier { All (λ n. n < number) seen.old }
    ensures later { All (λ n. n ≤ number) seen.new }
    ensures none { IfNone result (AllPairs (λ s t. s.item ≢ t.item) round.now) }
    ensures some { IfSome result (λ item. IsFirstShift round.now (RepeatsItem round.now) item.0) }
{
    for s in round {
        let at = s.item.0 as usize;
        if seen[at] == number {
            return Some(s.item);
        }
        seen[at] = number;
    }
    None
}

/// The item of the first shift whose target is no free slot. The targets before it are taken.
fn find_no_room(
    disks: &[Disk],
    taken: &mut Taken,
    round: &[Shift],
) -> Result<Option<ItemId>, AllocError>
    requires { All (λ s. s.to.disk.0 < length disks.now) round.now }
    ensures none { IfOk result (λ r. IfNone r (HaveRoom disks.now (has_spot taken.old) round.now (length round.now) (has_spot taken.new))) }
    ensures some { IfOk result (λ r. IfSome r
        (λ item. IsFirstShift round.now (LacksSlotIn disks.now (has_spot taken.old) round.now) item.0)) }
{
    for s in round {
        if s.to.slot >= disks[s.to.disk.0 as usize].slots {
            return Ok(Some(s.item));
        }
        let free = taken.insert(s.to)?;
        if !free {
            return Ok(Some(s.item));
        }
    }
    Ok(None)
}

/// The item of the first shift of the round that lacks a free slot in the layout.
pub fn check_room(
    input: &Input,
    spots: &[Spot],
    taken: &mut Taken,
    round: &[Shift],
) -> Result<Option<ItemId>, AllocError>
    requires fits { All (ShiftFits input.now) round.now }
    requires are { IsTakenSet (has_spot taken.old) (layout_of spots.now) }
    ensures room { IfOk result (λ r. IfNone r (HaveRoom input.now.disks (has_spot taken.old) round.now (length round.now) (has_spot taken.new))) }
    ensures none { IfOk result (λ r. IfNone r (Passes input.now (layout_of spots.now) round.now Free)) }
    ensures some { IfOk result (λ r. IfSome r
        (λ item. IsFirstShift round.now (LacksSlot input.now (layout_of spots.now) round.now) item.0)) }
{
    find_no_room(input.disks(), taken, round)
}

/// Gives each shifted item its new spot.
pub fn move_items(spots: &mut [Spot], round: &[Shift])
    requires { All (λ s. s.item.0 < length spots.old) round.now }
    ensures { spots.new ≡ after_round spots.old round.now }
{
    for s in round {
        spots[s.item.0 as usize] = s.to;
    }
}

/// Frees the spots that a round leaves.
pub fn free_sources(taken: &mut Taken, round: &[Shift])
    ensures { (t : Spot) → has_spot taken.new t ≡ (not (is_source round.now t) && has_spot taken.old t) }
{
    for s in round {
        taken.remove(s.from);
    }
}
