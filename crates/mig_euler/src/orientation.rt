//! The directions of all edges of a transfer graph.
ghost use Rattle.std.specs.Prelude.{◌≡◌, ◌≢◌, length, vec_len, map, All, IfOk};
ghost use Rattle.mig_base.specs.Directions.{Balances};
ghost use Rattle.mig_euler.specs.Balance.{AllInRange};
ghost use Rattle.mig_euler.specs.Pairs.{ArePairs, pair_transfer};
ghost use Rattle.mig_euler.specs.Trails.{points_forward};

use crate::links::link_ends;
use crate::trails::{follow_odd, follow_rest};
use mig_base::{DiskId, EdgeId};
use mig_graph::Graph;
use std::alloc::{AllocError, Global};

/// The directions of edges that all have one.
fn settled(alloc: Global, directions: &[Option<bool>]) -> Result<Vec<bool>, AllocError>
    ensures { IfOk result (λ v. v.items ≡ map points_forward directions.now) }
{
    directions.iter().map(|d| *d == Some(true)).collect(alloc)
}

/// A direction for each edge, so that at each disk the numbers of leaving and of entering edges differ by at most 1.
fn orient_ends(
    alloc: Global,
    disks: u32,
    ends: &[(DiskId, DiskId)],
) -> Result<Vec<bool>, AllocError>
    requires in_range { AllInRange ends.now disks }
    requires no_loop { All (λ p. p.0 ≢ p.1) ends.now }
    ensures one_each { IfOk result (λ d. vec_len d ≡ length ends.now) }
    ensures balance { IfOk result (λ d. Balances (map pair_transfer ends.now) d.items) }
{
    let mut directions = vec![in alloc; None; ends.len()]?;
    let mut from = vec![in alloc; ends.len(); disks as usize]?;
    let links = link_ends(alloc, ends, &mut from)?;
    follow_odd(ends, &links, &mut directions, &mut from);
    follow_rest(ends, &links, &mut directions, &mut from);
    settled(alloc, &directions)
}

/// The ends of the edges.
fn ends_of(alloc: Global, graph: &Graph) -> Result<Vec<(DiskId, DiskId)>, AllocError>
    ensures { IfOk result (λ v. ArePairs graph.now.transfers v.items) }
{
    let mut ends = Vec::new(alloc);
    for edge in 0..graph.edges() {
        ends.push(graph.ends(EdgeId(edge)))?;
    }
    Ok(ends)
}

/// A direction for each edge: true leads from the edge's first end to its second.
///
/// At each disk the numbers of outgoing and of incoming edges differ by at most 1. The direction of an edge isn't the
/// direction of its transfer. Trails are followed first from each disk with an odd number of edges and then from every
/// disk, as in Euler's argument; each edge is passed a few times, so the time is linear in the edges and disks. Errs
/// for want of memory only.
pub fn orient(alloc: Global, graph: &Graph) -> Result<Vec<bool>, AllocError>
    ensures one_each { IfOk result (λ d. vec_len d ≡ length graph.now.transfers) }
    ensures balance { IfOk result (λ d. Balances graph.now.transfers d.items) }
{
    graph.keeps_rules();
    let ends = ends_of(alloc, graph)?;
    orient_ends(alloc, graph.disks(), &ends)
}
