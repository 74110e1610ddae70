//! The ends of edges, by the edges' directions.
ghost use Rattle.std.specs.Prelude.{◌≡◌, ◌+◌, ◌<◌, ◌^◌, length, All, IfOk};
ghost use Rattle.mig_split.specs.Copies.{AreTails, AreHeads, AreCopyPairs, AreEndDisks};

use mig_base::{CopyId, DiskId, EdgeId};
use mig_graph::Graph;
use std::alloc::{AllocError, Global};

/// The disk that each edge leaves by its direction.
pub fn tails_of(
    alloc: Global,
    graph: &Graph,
    directions: &[bool],
) -> Result<Vec<DiskId>, AllocError>
    requires { length directions.now ≡ length graph.now.transfers }
    ensures { IfOk result (λ v. AreTails graph.now.transfers directions.now v.items) }
{
    let mut disks = Vec::with_capacity(alloc, directions.len())?;
    for edge in 0..graph.edges() {
        let (source, target) = graph.ends(EdgeId(edge));
        let forward = directions[edge as usize];
        disks.push(if forward { source } else { target })?;
    }
    Ok(disks)
}

/// The disk that each edge enters by its direction.
pub fn heads_of(
    alloc: Global,
    graph: &Graph,
    directions: &[bool],
) -> Result<Vec<DiskId>, AllocError>
    requires { length directions.now ≡ length graph.now.transfers }
    ensures { IfOk result (λ v. AreHeads graph.now.transfers directions.now v.items) }
{
    let mut disks = Vec::with_capacity(alloc, directions.len())?;
    for edge in 0..graph.edges() {
        let (source, target) = graph.ends(EdgeId(edge));
        let forward = directions[edge as usize];
        disks.push(if forward { target } else { source })?;
    }
    Ok(disks)
}

/// The disks at which the edges end: those that they leave by their directions, and then those that they enter.
pub fn stops_of(
    alloc: Global,
    graph: &Graph,
    directions: &[bool],
) -> Result<Vec<DiskId>, AllocError>
    requires { length directions.now ≡ length graph.now.transfers }
    ensures { IfOk result (λ v. AreEndDisks graph.now.transfers directions.now v.items) }
{
    let mut stops = tails_of(alloc, graph, directions)?;
    let heads = heads_of(alloc, graph, directions)?;
    stops.extend_from_slice(&heads)?;
    Ok(stops)
}

/// Pairs of copies; the second ones are counted from a first number on.
pub fn pair_up(
    alloc: Global,
    firsts: &[CopyId],
    seconds: &[CopyId],
    from: u32,
) -> Result<Vec<(CopyId, CopyId)>, AllocError>
    requires same { length firsts.now ≡ length seconds.now }
    requires fits { All (λ c. from + c.0 < 2 ^ 32) seconds.now }
    ensures { IfOk result (λ v. AreCopyPairs firsts.now seconds.now from v.items) }
{
    let mut ends = Vec::with_capacity(alloc, firsts.len())?;
    for place in 0..firsts.len() {
        ends.push((firsts[place], CopyId(from + seconds[place].0)))?;
    }
    Ok(ends)
}
