//! Ends of edges, dealt to copies of their disks.
ghost use Rattle.std.specs.Prelude.{◌≡◌, ◌<◌, ◌≤◌, ◌^◌, length, map, sum, All, IfOk};
ghost use Rattle.mig_base.specs.Transfers.{div_ceil};
ghost use Rattle.mig_split.specs.Dealing.{AreFewCopies, IsDealt, IsDealtBy, IsEnough};

use crate::decks::{after, count_disks, make_decks};
use mig_base::{CopyId, DiskId, MAX_DISKS};
use std::alloc::{AllocError, Global};

/// The disk of each copy, and the copy of each end.
#[derive(Drop)]
pub struct Dealt {
    pub homes: Vec<DiskId>,
    pub copies: Vec<CopyId>,
}

/// These numbers over q, rounded up.
fn ceils_of(alloc: Global, counts: &[u32], q: u32) -> Result<Vec<u32>, AllocError>
    requires { 1 ≤ q }
    ensures { IfOk result (λ v. v.items ≡ map (λ n. div_ceil n q) counts.now) }
{
    counts.iter().map(|count| count.div_ceil(q)).collect(alloc)
}

/// For each disk its ends over q, rounded up: as few copies as can have them, q each.
pub fn few_numbers(
    alloc: Global,
    disks: u32,
    stops: &[DiskId],
    q: u32,
) -> Result<Vec<u32>, AllocError>
    requires q { 1 ≤ q }
    requires there { All (λ d. d.0 < disks) stops.now }
    requires few { length stops.now ≤ 2 ^ 17 }
    ensures { IfOk result (λ v. AreFewCopies q disks stops.now v.items) }
{
    let counts = count_disks(alloc, disks as usize, stops)?;
    ceils_of(alloc, &counts, q)
}

/// Deals each end a copy of its disk, of which it has so many, the disk's copies in turn.
///
/// The turns that end with one of the first `level` ends begin with the disk's first copy. From then on each turn begins
/// one copy later than the one before it.
pub fn deal_by(
    alloc: Global,
    numbers: &[u32],
    stops: &[DiskId],
    q: u32,
    level: usize,
) -> Result<Dealt, AllocError>
    requires disks { length numbers.now ≤ MAX_DISKS }
    requires few_copies { sum numbers.now ≤ 2 ^ 17 }
    requires there { All (λ d. d.0 < length numbers.now) stops.now }
    requires enough { IsEnough q stops.now numbers.now }
    ensures { IfOk result (λ r. IsDealtBy q numbers.now stops.now r.homes.items r.copies.items) }
{
    let (mut decks, homes) = make_decks(alloc, numbers)?;
    let mut copies = Vec::with_capacity(alloc, stops.len())?;
    for stop in stops {
        let deck = decks[stop.0 as usize];
        let is_later = level <= copies.len();
        copies.push(CopyId(deck.first + deck.next))?;
        decks[stop.0 as usize] = after(deck, is_later);
    }
    Ok(Dealt { homes, copies })
}

/// Deals each end a copy of its disk, the disk's copies in turn, of which it has as few as q ends for each allow.
pub fn deal(
    alloc: Global,
    disks: u32,
    stops: &[DiskId],
    q: u32,
    level: usize,
) -> Result<Dealt, AllocError>
    requires q { 1 ≤ q }
    requires disks { disks ≤ MAX_DISKS }
    requires there { All (λ d. d.0 < disks) stops.now }
    requires few { length stops.now ≤ 2 ^ 17 }
    ensures { IfOk result (λ r. IsDealt q disks stops.now r.homes.items r.copies.items) }
{
    let numbers = few_numbers(alloc, disks, stops, q)?;
    deal_by(alloc, &numbers, stops, q, level)
}
