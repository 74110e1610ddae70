//! The disks that a search has reached, each but the first from another one.
ghost use Rattle.std.specs.Prelude.{◌≡◌, ◌+◌, ◌<◌, ◌^◌, length, All, IsSome, MatchOption, OnOk, Some};
ghost use Rattle.mig_sides.specs.Trees.{node_at};
ghost use Rattle.mig_sides.specs.Reaching.{AreAllApart, AreAllReachedOf, IsMet, Reaches};

use mig_base::DiskId;
use std::alloc::{AllocError, Global};

/// How a search has reached a disk.
#[derive(Clone, Copy)]
pub struct Node {
    /// The disk from which it was reached; where the search began, the disk itself.
    pub parent: DiskId,
    /// The disk where the search began.
    pub root: DiskId,
    /// Over how many edges it was reached from there. Disks are on one side where this is even, and on the other where it
    /// is odd.
    pub rank: u32,
}

/// How a disk was reached that a search has reached.
pub fn node_of(nodes: &[Option<Node>], disk: DiskId) -> Node
    requires { IsSome (node_at nodes.now disk.0) }
    ensures { node_at nodes.now disk.0 ≡ Some result }
{
    let Some(node) = nodes[disk.0 as usize] else {
        unreachable!()
    };
    node
}

/// Reaches the neighbours of a disk that were not reached before, and queues them.
pub fn reach(
    near: &[DiskId],
    disk: DiskId,
    node: Node,
    nodes: &mut [Option<Node>],
    queue: &mut Vec<DiskId>,
) -> Result<(), AllocError>
    requires there { All (λ w. w.0 < length nodes.old) near.now }
    requires fits { node.rank + 1 < 2 ^ 32 }
    ensures reaches { OnOk result (Reaches disk node near.now nodes.old nodes.new queue.old.items queue.new.items) }
    ensures all { OnOk result (AreAllReachedOf near.now nodes.new) }
{
    for other in near {
        if nodes[other.0 as usize].is_none() {
            nodes[other.0 as usize] = Some(Node {
                parent: disk,
                root: node.root,
                rank: node.rank + 1,
            });
            queue.push(*other)?;
        }
    }
    Ok(())
}

/// A neighbour of a disk that is on the disk's own side, if there is one.
pub fn met(near: &[DiskId], node: Node, nodes: &[Option<Node>]) -> Option<DiskId>
    requires { AreAllReachedOf near.now nodes.now }
    ensures { MatchOption result (AreAllApart node near.now nodes.now) (IsMet node near.now nodes.now) }
{
    for other in near {
        if node_of(nodes, *other).rank % 2 == node.rank % 2 {
            return Some(*other);
        }
    }
    None
}
