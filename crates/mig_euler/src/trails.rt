//! Trails of edges, each directed away from the disk that the trail has come to.
ghost use Rattle.std.specs.Prelude.{◌≡◌, ◌≢◌, ◌⊎◌, ◌<◌, ◌≤◌, ◌%◌, ◌^◌, length, All, MatchBool};
ghost use Rattle.mig_base.specs.declared.ids.DiskId.{DiskId};
ghost use Rattle.mig_euler.specs.Balance.{pair_tail, pair_head, PassedBelow, AllPassed, AllInRange};
ghost use Rattle.mig_euler.specs.Links.{AreLinks};
ghost use Rattle.mig_euler.specs.Ready.{IsBalancedSoFar};
ghost use Rattle.mig_euler.specs.Trails.{EndsTrail, total, waits};

use crate::links::{next_place, waiting_edge, waits_at};
use mig_base::DiskId;

/// The direction in which an edge leaves a disk, and the disk that it enters.
fn step_from(ends: (DiskId, DiskId), disk: DiskId) -> (bool, DiskId)
    requires { (ends.0 ≡ disk) ⊎ (ends.1 ≡ disk) }
    ensures tail { pair_tail ends result.0 ≡ disk }
    ensures head { pair_head ends result.0 ≡ result.1 }
{
    let (first, second) = ends;
    if first == disk {
        (true, second)
    } else {
        (false, first)
    }
}

/// Directs edges along a trail from a disk, until no edge waits where it has come to.
fn follow(
    ends: &[(DiskId, DiskId)],
    links: &[(usize, usize)],
    directions: &mut [Option<bool>],
    from: &mut [usize],
    start: DiskId,
)
    requires links { AreLinks ends.now links.now }
    requires lengths { length directions.old ≡ length ends.now }
    requires in_range { AllInRange ends.now (length from.old) }
    requires no_loop { All (λ p. p.0 ≢ p.1) ends.now }
    requires start { start.0 < length from.old }
    requires passed { AllPassed ends.now directions.old from.old }
    ensures trail { EndsTrail ends.now directions.old directions.new start }
    ensures lengths { length from.new ≡ length from.old }
    ensures passed { AllPassed ends.now directions.new from.new }
{
    let mut at = start;
    loop {
        let edge = waiting_edge(ends, directions, links, from[at.0 as usize], at);
        from[at.0 as usize] = edge;
        if edge == ends.len() {
            return;
        }
        let step = step_from(ends[edge], at);
        directions[edge] = Some(step.0);
        at = step.1;
    }
}

/// Whether an odd number of edges waits at a disk.
fn is_odd(
    ends: &[(DiskId, DiskId)],
    links: &[(usize, usize)],
    directions: &[Option<bool>],
    from: usize,
    disk: DiskId,
) -> bool
    requires lengths { length directions.now ≡ length ends.now }
    requires links { AreLinks ends.now links.now }
    requires no_loop { All (λ p. p.0 ≢ p.1) ends.now }
    requires bound { from ≤ length ends.now }
    requires passed { PassedBelow ends.now directions.now disk from }
    ensures { MatchBool result (total (waits disk) ends.now directions.now % 2 ≡ 1) (total (waits disk) ends.now directions.now % 2 ≡ 0) }
{
    let mut odd = false;
    let mut place = from;
    while place < ends.len() {
        if waits_at(ends[place], directions[place], disk) {
            odd = !odd;
        }
        place = next_place(ends, links, place, disk);
    }
    odd
}

/// Follows a trail from each disk where an odd number of edges waits.
pub fn follow_odd(
    ends: &[(DiskId, DiskId)],
    links: &[(usize, usize)],
    directions: &mut [Option<bool>],
    from: &mut [usize],
)
    requires links { AreLinks ends.now links.now }
    requires ready { IsBalancedSoFar ends.now directions.old from.old }
    requires no_loop { All (λ p. p.0 ≢ p.1) ends.now }
    requires few { length from.old < 2 ^ 32 }
    ensures ready { IsBalancedSoFar ends.now directions.new from.new }
    ensures even { (v : DiskId) → total (waits v) ends.now directions.new % 2 ≡ 0 }
{
    for disk in 0..from.len() as u32 {
        if is_odd(ends, links, directions, from[disk as usize], DiskId(disk)) {
            follow(ends, links, directions, from, DiskId(disk));
        }
    }
}

/// Follows the trails that are left, each of which comes back.
pub fn follow_rest(
    ends: &[(DiskId, DiskId)],
    links: &[(usize, usize)],
    directions: &mut [Option<bool>],
    from: &mut [usize],
)
    requires links { AreLinks ends.now links.now }
    requires ready { IsBalancedSoFar ends.now directions.old from.old }
    requires no_loop { All (λ p. p.0 ≢ p.1) ends.now }
    requires few { length from.old < 2 ^ 32 }
    requires even { (v : DiskId) → total (waits v) ends.now directions.old % 2 ≡ 0 }
    ensures ready { IsBalancedSoFar ends.now directions.new from.new }
    ensures none { (v : DiskId) → total (waits v) ends.now directions.new ≡ 0 }
{
    for disk in 0..from.len() as u32 {
        follow(ends, links, directions, from, DiskId(disk));
    }
}
