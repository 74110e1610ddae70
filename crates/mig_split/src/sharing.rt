//! Copies that share nodes: copies with few ends are one node of a board, which needs fewer nodes then.
ghost use Rattle.std.specs.Prelude.{◌≡◌, ℕ, ◌+◌, ◌<◌, ◌≤◌, ◌^◌, length, vec_len, All, IfOk};
ghost use Rattle.mig_base.specs.declared.ids.CopyId.{CopyId};
ghost use Rattle.mig_base.specs.Ends.{ends_at};
ghost use Rattle.mig_split.specs.Copies.{second_of, AreCopyPairs};
ghost use Rattle.mig_split.specs.Dealing.{copy_at, count_at};
ghost use Rattle.mig_split.specs.Sharing.{AreCopyCounts, AreFilled, AreNodes, AreNodesOf, AreOnSides, IsFilledBy, IsShared};

use crate::copies::Sides;
use crate::ends::pair_up;
use mig_base::{CopyId, MAX_ITEMS};
use std::alloc::{AllocError, Global};

/// Nodes on two sides, and the two nodes of each edge.
///
/// The nodes below `left` stand for the copies of the first side, the others for those of the second one. `nodes` is
/// the number of all nodes.
#[derive(Drop)]
pub struct Nodes {
    pub left: u32,
    pub nodes: u32,
    pub ends: Vec<(CopyId, CopyId)>,
}

/// The node of each end, and how many nodes there are.
#[derive(Drop)]
struct Shared {
    nodes: u32,
    stops: Vec<CopyId>,
}

/// The last node that is in use, and how many ends it has.
#[derive(Clone, Copy)]
struct Last {
    node: u32,
    ends: u32,
}

/// How often each of so many copies stands in a list.
fn count_copies(alloc: Global, copies: usize, stops: &[CopyId]) -> Result<Vec<u32>, AllocError>
    requires there { All (λ c. c.0 < copies) stops.now }
    requires few { length stops.now ≤ 2 ^ 17 }
    ensures { IfOk result (λ v. AreCopyCounts copies stops.now v.items) }
{
    let mut counts = vec![in alloc; 0; copies]?;
    for stop in stops {
        counts[stop.0 as usize] += 1;
    }
    Ok(counts)
}

/// The last node after a copy with so many ends: the same one takes the copy, or where it would have more than q ends,
/// the next one does.
fn filled_by(last: Last, count: u32, q: u32) -> Last
    requires count { count ≤ q }
    requires ends { last.ends ≤ q }
    requires fits { last.node + 1 < 2 ^ 32 }
    ensures { IsFilledBy q last count result }
{
    if count <= q - last.ends {
        Last {
            node: last.node,
            ends: last.ends + count,
        }
    } else {
        Last {
            node: last.node + 1,
            ends: count,
        }
    }
}

/// The node of each copy, and how many nodes there are. Copies that follow one another share a node as long as they have
/// at most q ends together.
fn fill(
    alloc: Global,
    copies: usize,
    stops: &[CopyId],
    q: u32,
) -> Result<(Vec<CopyId>, u32), AllocError>
    requires q { 1 ≤ q }
    requires there { All (λ c. c.0 < copies) stops.now }
    requires few { length stops.now ≤ 2 ^ 17 }
    requires most { (k : ℕ) → k < copies → count_at k stops.now ≤ q }
    ensures { IfOk result (λ r. AreFilled q copies stops.now r.0.items r.1) }
{
    let counts = count_copies(alloc, copies, stops)?;
    let mut nodes = Vec::with_capacity(alloc, copies)?;
    let mut last = Last { node: 0, ends: 0 };
    for copy in 0..copies {
        let count = counts[copy];
        last = filled_by(last, count, q);
        nodes.push(CopyId(last.node))?;
    }
    Ok((nodes, last.node + 1))
}

/// The node of each end, by the node of each copy.
fn nodes_of(alloc: Global, nodes: &[CopyId], stops: &[CopyId]) -> Result<Vec<CopyId>, AllocError>
    requires { All (λ c. c.0 < length nodes.now) stops.now }
    ensures { IfOk result (λ v. AreNodesOf nodes.now stops.now v.items) }
{
    let mut ends = Vec::with_capacity(alloc, stops.len())?;
    for stop in stops {
        ends.push(nodes[stop.0 as usize])?;
    }
    Ok(ends)
}

/// Gives the ends of one side their nodes, so that no node has more than q ends.
fn share(alloc: Global, copies: usize, stops: &[CopyId], q: u32) -> Result<Shared, AllocError>
    requires q { 1 ≤ q }
    requires there { All (λ c. c.0 < copies) stops.now }
    requires few { length stops.now ≤ 2 ^ 17 }
    requires most { (k : ℕ) → k < copies → count_at k stops.now ≤ q }
    ensures { IfOk result (λ s. IsShared q stops.now s.nodes s.stops.items) }
{
    let (nodes, number) = fill(alloc, copies, stops, q)?;
    Ok(Shared {
        nodes: number,
        stops: nodes_of(alloc, &nodes, stops)?,
    })
}

/// The copies of each side, those of the second counted from a first number on.
fn unpair(
    alloc: Global,
    ends: &[(CopyId, CopyId)],
    from: u32,
) -> Result<(Vec<CopyId>, Vec<CopyId>), AllocError>
    requires { (e : ℕ) → e < length ends.now → from ≤ second_of ends.now e }
    ensures same { IfOk result (λ r. vec_len r.0 ≡ vec_len r.1) }
    ensures pairs { IfOk result (λ r. AreCopyPairs r.0.items r.1.items from ends.now) }
{
    let mut firsts = Vec::with_capacity(alloc, ends.len())?;
    let mut seconds = Vec::with_capacity(alloc, ends.len())?;
    for (first, second) in ends {
        firsts.push(*first)?;
        seconds.push(CopyId(second.0 - from))?;
    }
    Ok((firsts, seconds))
}

/// Lets copies on two sides share nodes, so that no node has more than q ends.
///
/// The copies of a side are taken in order. One shares the node of the copy before it, if that node has at most q ends
/// then, and else takes the next node. So two nodes of a side that follow one another have more than q ends together,
/// and there are few nodes, however many copies there are. A colouring in which no two edges of one colour share a node
/// is one in which no two share a copy. The time is linear in the edges and copies. Errs for want of memory only.
pub fn share_nodes(alloc: Global, sides: &Sides, q: u32) -> Result<Nodes, AllocError>
    requires q { 1 ≤ q }
    requires left { sides.now.left ≤ sides.now.nodes }
    requires sides { AreOnSides sides.now.left sides.now.nodes sides.now.ends.items }
    requires most { (k : CopyId) → k.0 < sides.now.nodes → ends_at k sides.now.ends.items ≤ q }
    requires few { vec_len sides.now.ends ≤ MAX_ITEMS }
    ensures { IfOk result (λ s. AreNodes q sides.now.ends.items s.left s.nodes s.ends.items) }
{
    let (firsts, seconds) = unpair(alloc, &sides.ends, sides.left)?;
    let out = share(alloc, sides.left as usize, &firsts, q)?;
    let enter = share(alloc, (sides.nodes - sides.left) as usize, &seconds, q)?;
    let ends = pair_up(alloc, &out.stops, &enter.stops, out.nodes)?;
    Ok(Nodes {
        left: out.nodes,
        nodes: out.nodes + enter.nodes,
        ends,
    })
}
