ghost use Rattle.std.specs.Prelude.{◌≡◌, ◌+◌, ◌<◌, ◌≤◌, ◌^◌, false, length, sum, vec_len, All, IfOk};
ghost use Rattle.mig_base.specs.InputLists.{is_duplex};
ghost use Rattle.mig_base.specs.Bounding.{quotient};
ghost use Rattle.mig_split.specs.Copies.{AreCopies, AreJoined, AreShared, AreShares, AreSides};
ghost use Rattle.mig_split.specs.Dealing.{IsEnough};

use crate::dealing::{deal, deal_by, few_numbers};
use crate::ends::{heads_of, pair_up, stops_of, tails_of};
use mig_base::{CopyId, DiskId, MAX_DISKS};
use mig_graph::Graph;
use std::alloc::{AllocError, Global};

/// Copies of disks on two sides, and the two copies of each edge.
///
/// The copies below `left` hold the ends by which edges go out, the others the ends by which they come in. `nodes` is
/// the number of all copies, and `homes` has the disk of each.
#[derive(Drop)]
pub struct Sides {
    pub left: u32,
    pub nodes: u32,
    pub ends: Vec<(CopyId, CopyId)>,
    pub homes: Vec<DiskId>,
}

/// Copies of disks, and the two copies of each edge. `nodes` is the number of all copies, and `homes` has the disk of
/// each.
#[derive(Drop)]
pub struct Copies {
    pub nodes: u32,
    pub ends: Vec<(CopyId, CopyId)>,
    pub homes: Vec<DiskId>,
}

/// Splits disks into copies on two sides, so that no copy has more than q ends.
///
/// An edge's first copy is one of the disk that it leaves by its direction, the second one of the disk that it enters.
/// A disk has as many copies on a side as its ends there over q, rounded up; it deals them its ends in turn. The time
/// is linear in the edges and disks. Errs for want of memory only.
pub fn split_sides(
    alloc: Global,
    graph: &Graph,
    directions: &[bool],
    q: u32,
) -> Result<Sides, AllocError>
    requires q { 1 ≤ q }
    requires directions { length directions.now ≡ length graph.now.transfers }
    ensures nodes { IfOk result (λ s. s.nodes ≡ vec_len s.homes) }
    ensures sides { IfOk result (λ s. AreSides q graph.now directions.now s.left s.ends.items s.homes.items) }
{
    let disks = graph.disks();
    let tails = tails_of(alloc, graph, directions)?;
    let heads = heads_of(alloc, graph, directions)?;
    let out = deal(alloc, disks, &tails, q, tails.len())?;
    let enter = deal(alloc, disks, &heads, q, heads.len())?;
    let left = out.homes.len() as u32;
    let ends = pair_up(alloc, &out.copies, &enter.copies, left)?;
    let mut homes = out.homes;
    homes.extend_from_slice(&enter.homes)?;
    Ok(Sides {
        left,
        nodes: homes.len() as u32,
        ends,
        homes,
    })
}

/// Joins the copies that stops are dealt: an edge for each of the first stops and the one at its place of the others.
/// Each disk has so many copies, and no copy has more than q ends.
fn join(
    alloc: Global,
    numbers: &[u32],
    stops: &[DiskId],
    q: u32,
    edges: usize,
) -> Result<Copies, AllocError>
    requires disks { length numbers.now ≤ MAX_DISKS }
    requires few { sum numbers.now ≤ 2 ^ 17 }
    requires there { All (λ d. d.0 < length numbers.now) stops.now }
    requires enough { IsEnough q stops.now numbers.now }
    requires halves { length stops.now ≡ edges + edges }
    ensures nodes { IfOk result (λ s. s.nodes ≡ vec_len s.homes) }
    ensures joined { IfOk result (λ s. AreJoined q edges numbers.now stops.now s.ends.items s.homes.items) }
{
    let dealt = deal_by(alloc, numbers, stops, q, edges)?;
    let (firsts, seconds) = dealt.copies.split_at(edges);
    let ends = pair_up(alloc, firsts, seconds, 0)?;
    let homes = dealt.homes;
    Ok(Copies {
        nodes: homes.len() as u32,
        ends,
        homes,
    })
}

/// Splits disks into copies, so that no copy has more than q ends.
///
/// The two copies of an edge are copies of its two ends, in order. A disk has as many copies as its edges over q,
/// rounded up; it deals them its ends in turn. The turns of the ends by which edges come in begin with one copy after
/// the other, so that edges between two disks join all their copies. The time is linear in the edges and disks. Errs for
/// want of memory only.
pub fn split_nodes(alloc: Global, graph: &Graph, q: u32) -> Result<Copies, AllocError>
    requires { 1 ≤ q }
    ensures nodes { IfOk result (λ s. s.nodes ≡ vec_len s.homes) }
    ensures copies { IfOk result (λ s. AreCopies q graph.now s.ends.items s.homes.items) }
{
    let edges = graph.edges() as usize;
    let forward = vec![in alloc; true; edges]?;
    let stops = stops_of(alloc, graph, &forward)?;
    let numbers = few_numbers(alloc, graph.disks(), &stops, q)?;
    join(alloc, &numbers, &stops, q, edges)
}

/// For each disk as many copies as its joint limit, but no more than its edges over a share, rounded up.
fn shared_numbers(alloc: Global, graph: &Graph, share: u32) -> Result<Vec<u32>, AllocError>
    requires share { 1 ≤ share }
    requires joint { is_duplex graph.now.disks ≡ false }
    ensures { IfOk result (λ v. AreShared graph.now share v.items) }
{
    let mut numbers = Vec::with_capacity(alloc, graph.disks() as usize)?;
    for disk in 0..graph.disks() {
        let copies = graph.load(DiskId(disk)).div_ceil(share);
        numbers.push(graph.limit(DiskId(disk)).min(copies))?;
    }
    Ok(numbers)
}

/// Splits disks into at most as many copies as their joint limits, so that no copy has more ends than the quotient.
///
/// A disk has as many copies as its limit, but no more than its edges over a share, rounded up: the less the share, the
/// freer its edges are, and the more copies there are. An edge's first copy is one of the disk that it leaves by its
/// direction, the second one of the disk that it enters; the ends are dealt in turn, as `split_nodes` deals them. So
/// other directions give other copies to the same edges. The time is linear in the edges and disks. Errs for want of
/// memory only.
pub fn split_limits(
    alloc: Global,
    graph: &Graph,
    directions: &[bool],
    share: u32,
) -> Result<Copies, AllocError>
    requires joint { is_duplex graph.now.disks ≡ false }
    requires directions { length directions.now ≡ length graph.now.transfers }
    requires some { 1 ≤ share }
    requires most { share ≤ quotient graph.now }
    ensures nodes { IfOk result (λ s. s.nodes ≡ vec_len s.homes) }
    ensures copies { IfOk result (λ s. AreShares graph.now directions.now share s.ends.items s.homes.items) }
{
    let edges = graph.edges() as usize;
    let stops = stops_of(alloc, graph, directions)?;
    let numbers = shared_numbers(alloc, graph, share)?;
    join(alloc, &numbers, &stops, graph.quotient(), edges)
}
