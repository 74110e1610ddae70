ghost use Rattle.std.specs.Prelude.{◌≡◌, ◌≤◌, true, length, IfOk};
ghost use Rattle.mig_base.specs.InputLists.{is_duplex};
ghost use Rattle.mig_base.specs.Bounding.{quotient};
ghost use Rattle.mig_base.specs.Colourings.{IsLimited};
ghost use Rattle.mig_board.specs.Growth.{IsComplete};
ghost use Rattle.mig_duplex.specs.Coloured.{AreColours, IsSpread};

use mig_base::{Colour, EdgeId};
use mig_board::Board;
use mig_graph::Graph;
use mig_koenig::colour_sides;
use mig_split::{share_nodes, split_sides};
use std::alloc::{AllocError, Global};

/// The colour of each edge of a board on which all are coloured.
pub fn colours_of(alloc: Global, board: &Board) -> Result<Vec<Colour>, AllocError>
    requires { IsComplete board.now }
    ensures { IfOk result (λ v. AreColours board.now v.items) }
{
    let edges = board.edges();
    let mut colours = Vec::with_capacity(alloc, edges as usize)?;
    for edge in 0..edges {
        let Some(colour) = board.colour_of(EdgeId(edge)) else {
            unreachable!()
        };
        colours.push(colour)?;
    }
    Ok(colours)
}

/// Colours the edges with q colours, so that the edges that leave a disk by their directions are spread over the
/// colours, and so are those that enter it: of each colour at most as many as all of them over q, rounded up.
///
/// Each disk is split into copies on two sides, for edges that go out and for edges that come in. Copies share the nodes
/// of a board, whose edges have q colours (König 1916): so its table is linear in the edges, however many copies there
/// are. Errs for want of memory only.
pub fn colour_spread(
    alloc: Global,
    graph: &Graph,
    directions: &[bool],
    q: u32,
) -> Result<Vec<Colour>, AllocError>
    requires some { 1 ≤ q }
    requires few { q ≤ length graph.now.transfers }
    requires directions { length directions.now ≡ length graph.now.transfers }
    ensures { IfOk result (λ v. IsSpread graph.now q directions.now v.items) }
{
    graph.keeps_rules();
    let sides = split_sides(alloc, graph, directions, q)?;
    let shared = share_nodes(alloc, &sides, q)?;
    let left = shared.left;
    let mut board = Board::new(alloc, shared.nodes, shared.ends, q)?;
    colour_sides(&mut board, left);
    colours_of(alloc, &board)
}

/// Colours the edges of a graph with split limits with as many colours as the quotient, so that of each colour at each
/// disk at most its outgoing limit of edges leave it, and at most its incoming limit reach it.
///
/// The edges are spread by the directions of the transfers. No schedule has fewer rounds than there are colours. Errs
/// for want of memory only.
pub fn colour_duplex(alloc: Global, graph: &Graph) -> Result<Vec<Colour>, AllocError>
    requires { is_duplex graph.now.disks ≡ true }
    ensures { IfOk result (λ v. IsLimited graph.now (quotient graph.now) v.items) }
{
    if graph.edges() == 0 {
        return Ok(Vec::new(alloc));
    }
    let forward = vec![in alloc; true; graph.edges() as usize]?;
    colour_spread(alloc, graph, &forward, graph.quotient())
}
