//! The moves of an input as edges.
ghost use Rattle.std.specs.Prelude.{◌≡◌, IfOk, map};
ghost use Rattle.mig_base.specs.Transfers.{moves, transfers};
ghost use Rattle.mig_graph.specs.Edges.{edge_item, edge_transfer};

use mig_base::{DiskId, Input, ItemId};
use std::alloc::{AllocError, Global};

/// A move: its item, and the disks that it leaves and reaches.
#[derive(Clone, Copy)]
pub struct Edge {
    pub item: ItemId,
    pub from: DiskId,
    pub to: DiskId,
}

/// An edge for each relocated item, in item order.
pub fn edges_of(alloc: Global, input: &Input) -> Result<Vec<Edge>, AllocError>
    ensures items { IfOk result (λ v. map edge_item v.items ≡ moves input.now) }
    ensures transfers { IfOk result (λ v. map edge_transfer v.items ≡ transfers input.now) }
{
    let mut edges = Vec::new(alloc);
    let spots = input.now();
    let next = input.next();
    for item in 0..spots.len() {
        let from = spots[item].disk;
        let to = next[item];
        if from.0 != to.0 {
            edges.push(Edge {
                item: ItemId(item as u32),
                from,
                to,
            })?;
        }
    }
    Ok(edges)
}
