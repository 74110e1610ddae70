//! Directions of the edges by which as few colours do as the quotient.
ghost use Rattle.std.specs.Prelude.{◌≡◌, ◌<◌, false, length, vec_len, IfNone, IfOk, IfSome};
ghost use Rattle.mig_base.specs.InputLists.{is_duplex};
ghost use Rattle.mig_base.specs.Bounding.{quotient};
ghost use Rattle.mig_base.specs.MadePlans.{Because, Reason};
ghost use Rattle.mig_base.specs.Sides.{IsTwoSided, Separates};
ghost use Rattle.mig_sides.specs.Walks.{side_of};
ghost use Rattle.mig_plan.specs.Coloured.{LeadsAcross, SidesFit};

use mig_base::EdgeId;
use mig_euler::orient;
use mig_graph::Graph;
use mig_sides::{SidesError, sides};
use std::alloc::{AllocError, Global};

/// A side for each disk, so that each edge joins the two sides. None comes exactly where there are no such sides.
fn two_sides(alloc: Global, graph: &Graph) -> Result<Option<Vec<bool>>, AllocError>
    ensures one_each { IfOk result (λ o. IfSome o (λ s. vec_len s ≡ length graph.now.disks)) }
    ensures apart { IfOk result (λ o. IfSome o (λ s. Separates (side_of s.items) graph.now)) }
    ensures none { IfOk result (λ o. IfNone o (¬ IsTwoSided graph.now)) }
{
    match sides(alloc, graph) {
        Ok(sides) => Ok(Some(sides)),
        Err(SidesError::OddWalk { .. }) => Ok(None),
        Err(SidesError::Memory) => Err(AllocError),
    }
}

/// Directions by which each edge leads from the one side to the other.
fn across(alloc: Global, graph: &Graph, sides: &[bool]) -> Result<Vec<bool>, AllocError>
    requires { length sides.now ≡ length graph.now.disks }
    ensures one_each { IfOk result (λ d. vec_len d ≡ length graph.now.transfers) }
    ensures leads { IfOk result (λ d. LeadsAcross (side_of sides.now) graph.now.transfers d.items) }
{
    let mut directions = Vec::with_capacity(alloc, graph.edges() as usize)?;
    for edge in 0..graph.edges() {
        let (from, _) = graph.ends(EdgeId(edge));
        directions.push(sides[from.0 as usize])?;
    }
    Ok(directions)
}

/// Directions of the edges by which each disk's joint limit covers the copies that it needs on its two sides, of as many
/// ends as the quotient at most: where limits are even, directions that balance at each disk; where each transfer goes
/// from one side of the disks to the other, all from the one side. None comes exactly where neither is so.
pub fn directions_for(alloc: Global, graph: &Graph) -> Result<Option<Vec<bool>>, AllocError>
    requires joint { is_duplex graph.now.disks ≡ false }
    requires some { 0 < length graph.now.transfers }
    ensures one_each { IfOk result (λ o. IfSome o (λ d. vec_len d ≡ length graph.now.transfers)) }
    ensures fit { IfOk result (λ o. IfSome o (λ d. SidesFit graph.now (quotient graph.now) d.items)) }
    ensures none { IfOk result (λ o. IfNone o ((why : Reason) → ¬ Because why graph.now)) }
{
    graph.keeps_rules();
    if graph.all_even() {
        return Ok(Some(orient(alloc, graph)?));
    }
    if let Some(sides) = two_sides(alloc, graph)? {
        return Ok(Some(across(alloc, graph, &sides)?));
    }
    Ok(None)
}
