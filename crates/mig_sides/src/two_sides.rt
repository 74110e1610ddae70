//! The sides of a graph.
ghost use Rattle.std.specs.Prelude.{◌≡◌, length, map, vec_len, IfErr, IfOk};
ghost use Rattle.mig_base.specs.Sides.{Separates};
ghost use Rattle.mig_sides.specs.Walks.{ShowsNone, side_of};
ghost use Rattle.mig_sides.specs.Trees.{is_odd_node};

use crate::climbs::walk_between;
use crate::neighbours::neighbours_of;
use crate::searches::search;
use crate::trees::Node;
use crate::walks::Walk;
use mig_graph::Graph;
use std::alloc::{AllocError, Global};

/// Why no sides were found.
#[derive(Debug, Drop)]
pub enum SidesError {
    /// There are none: the walk is closed and has an odd number of disks, and an edge joins each with the next.
    OddWalk { walk: Walk },
    /// Want of memory.
    Memory,
}

impl From<AllocError> for SidesError {
    ghost use Rattle.std.specs.Prelude.{◌≡◌};
    ghost use Rattle.mig_sides.specs.declared.two_sides.SidesError.TheVariants as sides_error;

    ghost from_gives = { λ _ e. e ≡ sides_error.Memory };

    fn from(_error: AllocError) -> Self {
        SidesError::Memory
    }
}

/// Whether a disk was reached over an odd number of edges.
fn is_odd(node: Option<Node>) -> bool
    ensures { result ≡ is_odd_node node }
{
    match node {
        Some(node) => node.rank % 2 == 1,
        None => false,
    }
}

/// The side of each disk.
fn sides_of(alloc: Global, nodes: &[Option<Node>]) -> Result<Vec<bool>, AllocError>
    ensures { IfOk result (λ sides. sides.items ≡ map is_odd_node nodes.now) }
{
    nodes.iter().map(|node| is_odd(*node)).collect(alloc)
}

/// A side for each disk, so that the two ends of each edge are on different sides.
///
/// `OddWalk` comes exactly where there are no such sides. Each component is searched breadth first (König 1916: a graph has
/// two sides where no closed walk is odd), in time linear in the disks and edges.
pub fn sides(alloc: Global, graph: &Graph) -> Result<Vec<bool>, SidesError>
    ensures one_each { IfOk result (λ sides. vec_len sides ≡ length graph.now.disks) }
    ensures apart { IfOk result (λ sides. Separates (side_of sides.items) graph.now) }
    ensures none { IfErr result (ShowsNone graph.now) }
{
    let near = neighbours_of(alloc, graph)?;
    let mut nodes = vec![in alloc; None; graph.disks() as usize]?;
    if let Some((one, other)) = search(alloc, graph, &near, &mut nodes)? {
        let disks = walk_between(alloc, &nodes, one, other)?;
        return Err(SidesError::OddWalk {
            walk: Walk::of(disks),
        });
    }
    Ok(sides_of(alloc, &nodes)?)
}
