//! The copies of each disk, in one row.
ghost use Rattle.std.specs.Prelude.{◌≡◌, ◌<◌, ◌≤◌, ◌^◌, length, All, IfOk, sum};
ghost use Rattle.mig_split.specs.Decks.{AreCounts, AreDecks, AreFresh, IsAfter, place_after};

use mig_base::{DiskId, MAX_DISKS};
use std::alloc::{AllocError, Global};

/// A disk's copies, dealt in turns, in each of which each copy is dealt once.
///
/// `first` is the first copy and `count` how many there are. How far from the first one are the copy with which this
/// turn began, `start`, and the one to deal next.
#[derive(Clone, Copy)]
pub struct Deck {
    pub first: u32,
    pub count: u32,
    pub start: u32,
    pub next: u32,
}

/// How often each of so many disks stands in a list. Errs for want of memory only.
pub fn count_disks(alloc: Global, disks: usize, stops: &[DiskId]) -> Result<Vec<u32>, AllocError>
    requires there { All (λ d. d.0 < disks) stops.now }
    requires few { length stops.now ≤ 2 ^ 17 }
    ensures { IfOk result (λ v. AreCounts disks stops.now v.items) }
{
    let mut counts = vec![in alloc; 0; disks]?;
    for stop in stops {
        counts[stop.0 as usize] += 1;
    }
    Ok(counts)
}

/// The decks of the disks, of so many copies each, and the disk of each copy.
pub fn make_decks(alloc: Global, numbers: &[u32]) -> Result<(Vec<Deck>, Vec<DiskId>), AllocError>
    requires few { sum numbers.now ≤ 2 ^ 17 }
    requires disks { length numbers.now ≤ MAX_DISKS }
    ensures decks { IfOk result (λ r. AreDecks numbers.now r.0.items r.1.items) }
    ensures fresh { IfOk result (λ r. AreFresh r.0.items) }
{
    let mut decks = Vec::new(alloc);
    let mut homes = Vec::new(alloc);
    for disk in 0..numbers.len() {
        let first = homes.len();
        let count = numbers[disk];
        decks.push(Deck {
            first: first as u32,
            count,
            start: 0,
            next: 0,
        })?;
        homes.resize(first + count as usize, DiskId(disk as u32))?;
    }
    Ok((decks, homes))
}

/// The place after one, and after the last the first.
fn following(place: u32, count: u32) -> u32
    requires { place < count }
    ensures { result ≡ place_after place count }
{
    if place + 1 == count { 0 } else { place + 1 }
}

/// The deck after one copy is dealt: the one after it is next. Where that ends a turn, the next turn begins with the
/// copy with which this one began, or with the one after that.
pub fn after(deck: Deck, later: bool) -> Deck
    requires start { deck.start < deck.count }
    requires next { deck.next < deck.count }
    ensures { IsAfter deck later result }
{
    let next = following(deck.next, deck.count);
    if next != deck.start {
        return Deck { next, ..deck };
    }
    let start = if later {
        following(next, deck.count)
    } else {
        next
    };
    Deck {
        start,
        next: start,
        ..deck
    }
}
