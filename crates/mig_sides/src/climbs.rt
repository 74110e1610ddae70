//! Walks from a disk up to where its search began, and down to another disk.
ghost use Rattle.std.specs.Prelude.{IfOk, IsSome};
ghost use Rattle.mig_sides.specs.Trees.{AreTogether, IsRooted, node_at};
ghost use Rattle.mig_sides.specs.Climbs.{IsClimb, IsWalkBetween};

use crate::trees::{Node, node_of};
use mig_base::DiskId;
use std::alloc::{AllocError, Global};

/// The disks from one up to where its search began.
fn climb(alloc: Global, nodes: &[Option<Node>], disk: DiskId) -> Result<Vec<DiskId>, AllocError>
    requires rooted { IsRooted nodes.now }
    requires reached { IsSome (node_at nodes.now disk.0) }
    ensures { IfOk result (λ way. IsClimb nodes.now disk.0 way.items) }
{
    let node = node_of(nodes, disk);
    let mut way = Vec::new(alloc);
    way.push(disk)?;
    let mut at = disk;
    for _step in 0..node.rank {
        at = node_of(nodes, at).parent;
        way.push(at)?;
    }
    Ok(way)
}

/// The disks from one up to where its search began, and down to another one that was reached from there and is on the same
/// side.
pub fn walk_between(
    alloc: Global,
    nodes: &[Option<Node>],
    one: DiskId,
    other: DiskId,
) -> Result<Vec<DiskId>, AllocError>
    requires rooted { IsRooted nodes.now }
    requires together { AreTogether nodes.now one.0 other.0 }
    ensures { IfOk result (λ walk. IsWalkBetween nodes.now one.0 other.0 walk.items) }
{
    let mut walk = climb(alloc, nodes, one)?;
    let down = climb(alloc, nodes, other)?;
    let mut left = down.len() - 1;
    while left > 0 {
        left -= 1;
        walk.push(down[left])?;
    }
    Ok(walk)
}
