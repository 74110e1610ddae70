//! The names of items and disks.
ghost use Rattle.std.specs.Prelude.{◌≡◌, ℕ, List, slice_get};
ghost use Rattle.mig_words.specs.Outcomes.{blamed_name, disk_listed, fault_outcome, outcome_of};

use crate::endings::{CommandError, StoreRefusal};
use mig_base::{Blame, DiskId, Input, ItemId, Name};
use mig_mover::MoveFault;

/// An item's name.
fn item_in(input: &Input, item: ItemId) -> Option<Name>
    ensures { result ≡ slice_get input.now.items item.0 }
{
    input.items().get(item.0 as usize).copied()
}

/// A disk's name.
pub fn disk_in(input: &Input, disk: DiskId) -> Option<Name>
    ensures { result ≡ disk_listed input.now disk.0 }
{
    match input.disks().get(disk.0 as usize) {
        Some(disk) => Some(disk.name),
        None => None,
    }
}

/// The name of the item or the disk that a blame names, if it names one.
pub fn name_in(input: &Input, blame: &Blame) -> Option<Name>
    ensures { result ≡ blamed_name input.now blame.now }
{
    match blame {
        Blame::NotHere { round: _, item } => item_in(input, *item),
        Blame::TwiceInRound { round: _, item } => item_in(input, *item),
        Blame::SlotNotFree { round: _, item } => item_in(input, *item),
        Blame::OverLimit {
            round: _,
            disk,
            count: _,
        } => disk_in(input, *disk),
        Blame::WrongEnd { item } => item_in(input, *item),
        Blame::MovedTooOften { item, count: _ } => item_in(input, *item),
        _ => None,
    }
}

/// The ending that a mover's fault is, with the names that its text shows.
pub fn fault_ending(input: &Input, fault: MoveFault) -> CommandError
    ensures { (names : List (List ℕ)) → outcome_of names result ≡ fault_outcome input.now fault }
{
    match fault {
        MoveFault::Store => CommandError::StoreFault,
        MoveFault::Started => CommandError::Refusal(StoreRefusal::Started),
        MoveFault::OtherPlan { kept, ours } => {
            CommandError::Refusal(StoreRefusal::OtherPlan { kept, ours })
        }
        MoveFault::NotStarted => CommandError::Refusal(StoreRefusal::NotStarted),
        MoveFault::NotThere { item } => CommandError::Refusal(StoreRefusal::NotThere {
            item: item_in(input, item),
        }),
        MoveFault::Occupied { disk, slot } => CommandError::Refusal(StoreRefusal::Occupied {
            disk: disk_in(input, disk),
            slot,
        }),
    }
}
