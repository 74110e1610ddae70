//! The other disks, with what each can take.
ghost use Rattle.std.specs.Prelude.{◌≡◌, ◌++◌, ◌<◌, ◌≤◌, ℕ, length, map, replicate, take, IfOk, OnOk};
ghost use Rattle.mig_base.specs.InputLists.{IsInRange};
ghost use Rattle.mig_base.specs.Transfers.{side_limit};
ghost use Rattle.mig_drain.specs.Receivers.{AreDiskCounts, AreSmall, all_free, all_take, receiver_places, receivers_of, takes};

use mig_base::{DiskId, Input, Limits, Side};
use std::alloc::{AllocError, Global};

/// A disk that items may come to: its free slots, and how many items may reach it in one round.
#[derive(Clone, Copy, Debug, PartialEq, Eq)]
pub struct Receiver {
    pub disk: DiskId,
    pub free: u32,
    pub limit: u32,
}

impl Receiver {
    /// How many items the disk can take in so many rounds.
    fn can_take(self, rounds: u32) -> u32
        requires limit { self.limit ≤ 1024 }
        requires rounds { rounds ≤ 65536 }
        ensures { result ≡ takes rounds self }
    {
        self.free.min(rounds * self.limit)
    }
}

/// The limit on a side. A joint limit holds for each.
pub fn side_limit(side: Side, limits: Limits) -> u32
    requires { IsInRange limits }
    ensures limit { result ≡ side_limit side limits }
    ensures least { 1 ≤ result }
    ensures most { result ≤ 1024 }
{
    match limits {
        Limits::Joint { limit } => limit,
        Limits::Split { outgoing, incoming } => match side {
            Side::Outgoing => outgoing,
            Side::Incoming => incoming,
        },
    }
}

/// The other disks, in the order of their ids.
pub fn other_disks(
    alloc: Global,
    input: &Input,
    disk: DiskId,
    counts: &[u32],
) -> Result<Vec<Receiver>, AllocError>
    requires { AreDiskCounts (length input.now.disks) input.now.spots counts.now }
    ensures receivers { IfOk result (λ v. v.items ≡ receivers_of input.now disk.0) }
    ensures small { IfOk result (λ v. AreSmall v.items) }
{
    let disks = input.disks();
    let mut receivers = Vec::with_capacity(alloc, disks.len())?;
    for v in 0..disks.len() {
        if v != disk.0 as usize {
            receivers.push(Receiver {
                disk: DiskId(v as u32),
                free: disks[v].slots - counts[v],
                limit: side_limit(Side::Incoming, disks[v].limits),
            })?;
        }
    }
    Ok(receivers)
}

/// The free slots of all of them together.
pub fn total_free(receivers: &[Receiver]) -> u32
    requires { AreSmall receivers.now }
    ensures { result ≡ all_free receivers.now }
{
    let mut total = 0;
    for receiver in receivers {
        total += receiver.free;
    }
    total
}

/// How many items they can take together in so many rounds.
pub fn total_takes(receivers: &[Receiver], rounds: u32) -> u32
    requires small { AreSmall receivers.now }
    requires rounds { rounds ≤ 65536 }
    ensures { result ≡ all_take rounds receivers.now }
{
    let mut total = 0;
    for receiver in receivers {
        total += receiver.can_take(rounds);
    }
    total
}

/// The least number of rounds, from `low` on, in which they can take so many items: found by halving, since in more rounds
/// they can take as many or more.
pub fn least_rounds(receivers: &[Receiver], items: u32, low: u32) -> u32
    requires small { AreSmall receivers.now }
    requires room { items ≤ all_free receivers.now }
    requires few { items ≤ 65536 }
    requires low { low ≤ items }
    ensures from { low ≤ result }
    ensures most { result ≤ items }
    ensures enough { items ≤ all_take result receivers.now }
    ensures least { (q : ℕ) → low ≤ q → items ≤ all_take q receivers.now → result ≤ q }
{
    let mut from = low;
    let mut upto = items;
    while from < upto {
        let middle = from + (upto - from) / 2;
        if total_takes(receivers, middle) >= items {
            upto = middle;
        } else {
            from = middle + 1;
        }
    }
    from
}

/// Adds a disk so many times.
fn push_times(list: &mut Vec<DiskId>, disk: DiskId, times: u32) -> Result<(), AllocError>
    ensures { OnOk result (list.new.items ≡ list.old.items ++ replicate times disk) }
{
    for _time in 0..times {
        list.push(disk)?;
    }
    Ok(())
}

/// The first places for so many items: each disk in turn, as often as it can take an item in so many rounds.
pub fn first_places(
    alloc: Global,
    receivers: &[Receiver],
    rounds: u32,
    items: u32,
) -> Result<Vec<DiskId>, AllocError>
    requires small { AreSmall receivers.now }
    requires rounds { rounds ≤ 65536 }
    ensures { IfOk result (λ v. v.items ≡ take items (receiver_places rounds receivers.now)) }
{
    let mut places = Vec::with_capacity(alloc, items as usize)?;
    for receiver in receivers {
        let left = items - places.len() as u32;
        push_times(
            &mut places,
            receiver.disk,
            receiver.can_take(rounds).min(left),
        )?;
    }
    Ok(places)
}
