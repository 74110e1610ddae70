//! Emptying a disk.
ghost use Rattle.std.specs.Prelude.{◌≡◌, ℕ, ◌<◌, ◌≤◌, length, IfErr, IfOk, IsErr};
ghost use Rattle.mig_base.specs.Transfers.{div_ceil, transfer_graph};
ghost use Rattle.mig_base.specs.Targets.{present};
ghost use Rattle.mig_base.specs.Bounding.{quotient};
ghost use Rattle.mig_base.specs.DiskNumbers.{numbers};
ghost use Rattle.mig_base.specs.Draining.{AreDealt, AreFewest, Empties, NeedsToEmpty, PlansHave, free_elsewhere, places, with_next};
ghost use Rattle.mig_drain.specs.Causes.{IsDrainCause};
ghost use Rattle.mig_drain.specs.Receivers.{AreDiskCounts, AreSmall, all_free, all_take, receivers_of};
ghost use Rattle.mig_drain.specs.Showing.{IsShown, IsShownBy};

use crate::drained::{Drained, Shown, Targets};
use crate::errors::DrainError;
use crate::receivers::{
    Receiver, first_places, least_rounds, other_disks, side_limit, total_free, total_takes,
};
use mig_base::{DiskId, Input, Side};
use std::alloc::{AllocError, Global};

/// How many items each disk has now.
fn count_items(alloc: Global, input: &Input) -> Result<Vec<u32>, AllocError>
    ensures { IfOk result (λ v. AreDiskCounts (length input.now.disks) input.now.spots v.items) }
{
    let mut counts = vec![in alloc; 0; input.disks().len()]?;
    for spot in input.now() {
        counts[spot.disk.0 as usize] += 1;
    }
    Ok(counts)
}

/// Next disks: the items of the disk go to these places, in the order of both, and all other items stay.
fn deal(
    alloc: Global,
    input: &Input,
    disk: DiskId,
    places: &[DiskId],
) -> Result<Targets, AllocError>
    requires { present input.now disk.0 ≤ length places.now }
    ensures { IfOk result (AreDealt input.now disk.0 (numbers places.now)) }
{
    let now = input.now();
    let mut next = Vec::with_capacity(alloc, now.len())?;
    let mut rank = 0;
    for item in 0..now.len() {
        if now[item].disk == disk {
            next.push(places[rank])?;
            rank += 1;
        } else {
            next.push(now[item].disk)?;
        }
    }
    Ok(Targets::of(next))
}

/// What shows that fewer rounds are too few.
fn show(receivers: &[Receiver], items: u32, limit: u32, rounds: u32) -> Shown
    requires small { AreSmall receivers.now }
    requires some { 1 ≤ limit }
    requires rounds { rounds ≤ 65536 }
    requires low { div_ceil items limit ≤ rounds }
    requires least { (q : ℕ) → div_ceil items limit ≤ q → items ≤ all_take q receivers.now → rounds ≤ q }
    ensures { IsShownBy receivers.now items limit rounds result }
{
    if items == 0 {
        return Shown::Nothing;
    }
    if rounds == items.div_ceil(limit) {
        return Shown::Own { load: items, limit };
    }
    Shown::Others {
        room: total_takes(receivers, rounds - 1),
    }
}

/// Next disks that empty the disk, where the others have room for its items.
fn drain_into(
    alloc: Global,
    input: &Input,
    disk: DiskId,
    receivers: &[Receiver],
    items: u32,
) -> Result<Drained, AllocError>
    requires there { disk.0 < length input.now.disks }
    requires receivers { receivers.now ≡ receivers_of input.now disk.0 }
    requires small { AreSmall receivers.now }
    requires items { items ≡ present input.now disk.0 }
    requires room { items ≤ all_free receivers.now }
    ensures fewest { IfOk result (λ d. AreFewest input.now disk.0 d.rounds) }
    ensures dealt { IfOk result (λ d. AreDealt input.now disk.0 (places input.now disk.0 d.rounds) d.next) }
    ensures shown { IfOk result (λ d. IsShown input.now disk.0 d.rounds d.shown) }
{
    let limit = side_limit(Side::Outgoing, input.disks()[disk.0 as usize].limits);
    let rounds = least_rounds(receivers, items, items.div_ceil(limit));
    let places = first_places(alloc, receivers, rounds, items)?;
    let next = deal(alloc, input, disk, &places)?;
    Ok(Drained {
        next,
        rounds,
        shown: show(receivers, items, limit, rounds),
    })
}

/// Next disks that empty a disk, or why there are none.
fn find_drain(alloc: Global, input: &Input, disk: DiskId) -> Result<Drained, DrainError>
    requires { disk.0 < length input.now.disks }
    ensures fewest { IfOk result (λ d. AreFewest input.now disk.0 d.rounds) }
    ensures dealt { IfOk result (λ d. AreDealt input.now disk.0 (places input.now disk.0 d.rounds) d.next) }
    ensures shown { IfOk result (λ d. IsShown input.now disk.0 d.rounds d.shown) }
    ensures cause { IfErr result (IsDrainCause input.now disk.0) }
{
    let counts = count_items(alloc, input)?;
    let receivers = other_disks(alloc, input, disk, &counts)?;
    let items = counts[disk.0 as usize];
    let free = total_free(&receivers);
    if free < items {
        return Err(DrainError::NoRoom { items, free });
    }
    Ok(drain_into(alloc, input, disk, &receivers, items)?)
}

/// Next disks that empty a disk in the fewest rounds.
///
/// The items of the disk, in their order, go to the other disks in the order of their ids. Each of these takes as many as
/// it has free slots, and at most as many as may reach it in all rounds. All other items stay where they are. `rounds` is
/// the greatest quotient of the moves, and each plan that is made for them has as many rounds. For no other next disks that
/// empty the disk does a schedule have fewer. `shown` says why: the disk's own limit decides, or what the others can take.
/// A joint limit holds for what leaves a disk and for what reaches it. The time is linear in the items, and in the disks
/// times the digits of the items' number.
///
/// # Errors
///
/// `NoRoom` comes exactly where the disk has more items than the other disks have free slots together, and carries both
/// numbers. `Memory` is want of memory.
pub fn drain(alloc: Global, input: &Input, disk: DiskId) -> Result<Drained, DrainError>
    requires { disk.0 < length input.now.disks }
    ensures empties { IfOk result (λ d. Empties input.now disk.0 d.next) }
    ensures rounds { IfOk result (λ d. quotient (transfer_graph (with_next input.now d.next)) ≡ d.rounds) }
    ensures planned { IfOk result (λ d. PlansHave (with_next input.now d.next) d.rounds) }
    ensures needed { IfOk result (λ d. NeedsToEmpty input.now disk.0 d.rounds) }
    ensures fewest { IfOk result (λ d. AreFewest input.now disk.0 d.rounds) }
    ensures dealt { IfOk result (λ d. AreDealt input.now disk.0 (places input.now disk.0 d.rounds) d.next) }
    ensures shown { IfOk result (λ d. IsShown input.now disk.0 d.rounds d.shown) }
    ensures cause { IfErr result (IsDrainCause input.now disk.0) }
    ensures no_room { free_elsewhere input.now disk.0 < present input.now disk.0 → IsErr result }
{
    input.keeps_rules();
    find_drain(alloc, input, disk)
}
