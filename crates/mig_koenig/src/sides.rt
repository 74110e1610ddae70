ghost use Rattle.std.specs.Prelude.{◌≡◌, ◌*◌, ◌/◌, ◌%◌, ◌^◌, ◌<◌, ◌≤◌, length, MatchOption};
ghost use Rattle.mig_base.specs.declared.ids.CopyId.{CopyId};
ghost use Rattle.mig_board.specs.Colouring.{IsFull, IsMissing, IsProper, degree_of};
ghost use Rattle.mig_board.specs.Growth.{IsPlain, IsBlank, IsComplete, SameGraph, PaintsOne, IsSplitAt};

use mig_base::{Colour, CopyId, EdgeId};
use mig_board::Board;

/// 2^32 over the golden ratio: its multiples lie far apart.
const SPREAD: u32 = 2654435761;

/// The colour from which an edge's ends look for a missing one. Edges that follow one another look far apart, so that
/// few look where others have been.
fn first_colour(edge: EdgeId, colours: u32) -> Colour
    ensures { result.0 ≡ edge.0 * SPREAD % 2 ^ 32 * colours / 2 ^ 32 }
{
    let part = edge.0.wrapping_mul(SPREAD);
    Colour((part as u64 * colours as u64 / (1 << 32)) as u32)
}

/// A colour that is missing at the node: the next one from a given one on, or else the first. None comes exactly where
/// there is none.
fn missing_near(board: &Board, node: CopyId, from: Colour) -> Option<Colour>
    requires { node.0 < board.now.nodes }
    ensures { MatchOption result (IsFull board.now node) (IsMissing board.now node) }
{
    if let Some(colour) = board.missing_from(node, from) {
        return Some(colour);
    }
    if let Some(colour) = board.missing(node) {
        return Some(colour);
    }
    None
}

/// Colours one edge.
///
/// Where a colour that is missing at the second end is not missing at the first one, it comes free there by an
/// exchange. The walk from there cannot end at the second end, since it enters that end's side by the other colour.
fn colour_edge(board: &mut Board, edge: EdgeId, left: u32)
    requires in_range { edge.0 < length board.old.ends }
    requires plain { IsPlain board.old edge }
    requires sides { IsSplitAt board.old left }
    requires few { (v : CopyId) → v.0 < board.old.nodes → degree_of board.old v ≤ board.old.colours }
    ensures { PaintsOne board.old board.new edge }
{
    let (first, second) = board.ends(edge);
    let from = first_colour(edge, board.colours());
    let Some(lacks) = missing_near(board, first, from) else {
        unreachable!()
    };
    let Some(has) = missing_near(board, second, from) else {
        unreachable!()
    };
    if board.is_missing(first, has) {
        board.paint(edge, has);
        return;
    }
    board.exchange(first, lacks, has);
    board.paint(edge, has);
}

/// Colours each edge of a board on which nothing is coloured, and whose edges all join a node below `left` with one
/// that is not below it. No node may be an end of more edges than there are colours.
///
/// Takes no memory and refuses nothing. The colouring follows König (1916), who showed that a two-sided multigraph
/// needs no more colours than its greatest degree.
pub fn colour_sides(board: &mut Board, left: u32)
    requires blank { IsBlank board.old }
    requires sides { IsSplitAt board.old left }
    requires few { (v : CopyId) → v.0 < board.old.nodes → degree_of board.old v ≤ board.old.colours }
    ensures coloured { IsComplete board.new }
    ensures graph { SameGraph board.old board.new }
    ensures proper { IsProper board.new }
{
    for edge in 0..board.edges() {
        colour_edge(board, EdgeId(edge), left);
    }
    board.keeps_rules();
}
