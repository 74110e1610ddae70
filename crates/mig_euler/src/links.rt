//! The edges at a disk, from one to the next.
ghost use Rattle.std.specs.Prelude.{◌≡◌, ◌⊎◌, ◌+◌, ◌<◌, ◌≤◌, length, All, IfOk, OnOk, MatchBool, None};
ghost use Rattle.mig_euler.specs.Balance.{IsWaiting, PassedBelow, AllInRange};
ghost use Rattle.mig_euler.specs.Links.{AreLinks, IsNextAt, AreFirst};

use mig_base::DiskId;
use std::alloc::{AllocError, Global};

/// Links each edge to the next one at each of its ends, and leaves the first edge of each disk.
pub fn link_ends(
    alloc: Global,
    ends: &[(DiskId, DiskId)],
    first: &mut [usize],
) -> Result<Vec<(usize, usize)>, AllocError>
    requires in_range { AllInRange ends.now (length first.old) }
    requires none { All (λ n. n ≡ length ends.now) first.old }
    ensures len { length first.new ≡ length first.old }
    ensures links { IfOk result (λ v. AreLinks ends.now v.items) }
    ensures first { OnOk result (AreFirst ends.now 0 first.new) }
{
    let count = ends.len();
    let mut links = vec![in alloc; (count, count); count]?;
    let mut place = count;
    while place > 0 {
        place -= 1;
        let (one, two) = ends[place];
        links[place] = (first[one.0 as usize], first[two.0 as usize]);
        first[one.0 as usize] = place;
        first[two.0 as usize] = place;
    }
    Ok(links)
}

/// The next place after an edge where there may be an edge at the disk.
pub fn next_place(
    ends: &[(DiskId, DiskId)],
    links: &[(usize, usize)],
    place: usize,
    disk: DiskId,
) -> usize
    requires links { AreLinks ends.now links.now }
    requires place { place < length ends.now }
    ensures { IsNextAt ends.now disk (place + 1) result }
{
    let (first, second) = ends[place];
    if first == disk {
        links[place].0
    } else if second == disk {
        links[place].1
    } else {
        place + 1
    }
}

/// Whether an edge has no direction yet and has the disk as an end.
pub fn waits_at(ends: (DiskId, DiskId), direction: Option<bool>, disk: DiskId) -> bool
    ensures { MatchBool result ((direction ≡ None) × ((ends.0 ≡ disk) ⊎ (ends.1 ≡ disk))) ((direction ≡ None) × ((ends.0 ≡ disk) ⊎ (ends.1 ≡ disk)) → ⊥) }
{
    let (first, second) = ends;
    direction.is_none() && (first == disk || second == disk)
}

/// The first place, from one on, of an edge at the disk that has no direction yet; else the number of edges.
pub fn waiting_edge(
    ends: &[(DiskId, DiskId)],
    directions: &[Option<bool>],
    links: &[(usize, usize)],
    from: usize,
    disk: DiskId,
) -> usize
    requires lengths { length directions.now ≡ length ends.now }
    requires links { AreLinks ends.now links.now }
    requires bound { from ≤ length ends.now }
    requires passed { PassedBelow ends.now directions.now disk from }
    ensures bound { result ≤ length ends.now }
    ensures passed { PassedBelow ends.now directions.now disk result }
    ensures found { result < length ends.now → IsWaiting ends.now directions.now disk (record { 0 = result }) }
{
    let mut place = from;
    while place < ends.len() {
        if waits_at(ends[place], directions[place], disk) {
            return place;
        }
        place = next_place(ends, links, place, disk);
    }
    place
}
