//! The neighbours of each disk.
ghost use Rattle.std.specs.Prelude.{◌≡◌, [], vec_len, All, IfOk};
ghost use Rattle.mig_sides.specs.Neighbours.{AreNeighbours};

use mig_base::{DiskId, EdgeId};
use mig_graph::Graph;
use std::alloc::{AllocError, Global};

/// So many empty lists.
fn empty_lists(alloc: Global, count: u32) -> Result<Vec<Vec<DiskId>>, AllocError>
    ensures len { IfOk result (λ v. vec_len v ≡ count) }
    ensures empty { IfOk result (λ v. All (λ list. list.items ≡ []) v.items) }
{
    let mut lists = Vec::with_capacity(alloc, count as usize)?;
    for _list in 0..count {
        lists.push(Vec::new(alloc))?;
    }
    Ok(lists)
}

/// For each disk, the disk at the other end of each of its edges.
pub fn neighbours_of(alloc: Global, graph: &Graph) -> Result<Vec<Vec<DiskId>>, AllocError>
    ensures { IfOk result (λ v. AreNeighbours graph.now v.items) }
{
    let mut near = empty_lists(alloc, graph.disks())?;
    for edge in 0..graph.edges() {
        let (from, to) = graph.ends(EdgeId(edge));
        near[from.0 as usize].push(to)?;
        near[to.0 as usize].push(from)?;
    }
    Ok(near)
}
