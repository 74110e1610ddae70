//! Searches from one disk after the other, until each disk is reached.
ghost use Rattle.std.specs.Prelude.{◌≡◌, ◌<◌, length, IfOk, MatchOption, None};
ghost use Rattle.mig_sides.specs.Neighbours.{AreNeighbours};
ghost use Rattle.mig_sides.specs.Trees.{node_at};
ghost use Rattle.mig_sides.specs.Searches.{AreAllReached, AreExplored, AreOnOneSide, HasGrown};

use crate::trees::{Node, met, node_of, reach};
use mig_base::DiskId;
use mig_graph::Graph;
use std::alloc::{AllocError, Global};

/// Searches from a disk that was not reached before, breadth first. An edge whose two ends are on one side ends this, and its
/// ends are given.
fn grow(
    alloc: Global,
    graph: &Graph,
    near: &[Vec<DiskId>],
    nodes: &mut [Option<Node>],
    root: DiskId,
) -> Result<Option<(DiskId, DiskId)>, AllocError>
    requires near { AreNeighbours graph.now near.now }
    requires settled { AreExplored graph.now nodes.old }
    requires root { root.0 < length nodes.old }
    requires plain { node_at nodes.old root.0 ≡ None }
    ensures { IfOk result (λ o. MatchOption o (HasGrown graph.now nodes.old nodes.new root.0) (λ ends. AreOnOneSide graph.now nodes.new ends.0.0 ends.1.0)) }
{
    graph.keeps_rules();
    nodes[root.0 as usize] = Some(Node {
        parent: root,
        root,
        rank: 0,
    });
    let mut queue = Vec::new(alloc);
    queue.push(root)?;
    let mut next = 0;
    while next < queue.len() {
        let disk = queue[next];
        let node = node_of(nodes, disk);
        reach(&near[disk.0 as usize], disk, node, nodes, &mut queue)?;
        if let Some(other) = met(&near[disk.0 as usize], node, nodes) {
            return Ok(Some((disk, other)));
        }
        next += 1;
    }
    Ok(None)
}

/// Searches until each disk is reached. An edge whose two ends are on one side ends this, and its ends are given.
pub fn search(
    alloc: Global,
    graph: &Graph,
    near: &[Vec<DiskId>],
    nodes: &mut [Option<Node>],
) -> Result<Option<(DiskId, DiskId)>, AllocError>
    requires near { AreNeighbours graph.now near.now }
    requires settled { AreExplored graph.now nodes.old }
    ensures { IfOk result (λ o. MatchOption o (AreAllReached graph.now nodes.new) (λ ends. AreOnOneSide graph.now nodes.new ends.0.0 ends.1.0)) }
{
    for disk in 0..graph.disks() {
        if nodes[disk as usize].is_none() {
            let met = grow(alloc, graph, near, nodes, DiskId(disk))?;
            if met.is_some() {
                return Ok(met);
            }
        }
    }
    Ok(None)
}
