ghost use Rattle.std.specs.Prelude.{◌+◌, ◌*◌, ◌<◌, ◌≤◌, length};
ghost use Rattle.mig_base.specs.declared.ids.CopyId.{CopyId};
ghost use Rattle.mig_board.specs.Colouring.{degree_of};
ghost use Rattle.mig_board.specs.Growth.{IsPlain, IsComplete, SameGraph, PaintsOne};
ghost use Rattle.mig_shannon.specs.Ways.{CanRepaint};

use mig_base::{Colour, EdgeId};
use mig_board::Board;

/// Repaints an edge, and gives its old colour to another one.
pub fn repaint_beside(
    board: &mut Board,
    edge: EdgeId,
    beside: EdgeId,
    lacks: Colour,
    colour: Colour,
)
    requires { CanRepaint board.old edge beside lacks colour }
    ensures { PaintsOne board.old board.new edge }
{
    board.repaint(beside, colour);
    board.paint(edge, lacks);
}

/// Colours one edge by Shannon's steps.
///
/// Let `lacks` be missing at the first end and `has` at the second one, and let the edge of colour `lacks` at the
/// second end lead to the third node. Counting what is missing at the three nodes shows that some colour is missing at
/// the third one and at one of the others. At the second one, the edge beside takes it. At the first one, a walk of
/// this colour and `has` from the first or from the third node ends at none of the others.
pub fn colour_edge(board: &mut Board, edge: EdgeId, degree: u32)
    requires in_range { edge.0 < length board.old.ends }
    requires plain { IsPlain board.old edge }
    requires few { (v : CopyId) → v.0 < board.old.nodes → degree_of board.old v ≤ degree }
    requires enough { degree ≤ board.old.colours }
    requires half { 3 * degree ≤ 2 * board.old.colours + 1 }
    ensures { PaintsOne board.old board.new edge }
{
    let (first, second) = board.ends(edge);
    if let Some(colour) = board.common(first, second) {
        board.paint(edge, colour);
        return;
    }
    let Some(lacks) = board.missing(first) else {
        unreachable!()
    };
    let Some(has) = board.missing(second) else {
        unreachable!()
    };
    let Some(beside) = board.edge_at(second, lacks) else {
        unreachable!()
    };
    let third = board.across(beside, second);
    if let Some(colour) = board.common(second, third) {
        repaint_beside(board, edge, beside, lacks, colour);
        return;
    }
    let Some(colour) = board.common(first, third) else {
        unreachable!()
    };
    if board.far(first, colour, has) == second {
        board.exchange(third, colour, has);
        repaint_beside(board, edge, beside, lacks, has);
    } else {
        board.exchange(first, colour, has);
        board.paint(edge, has);
    }
}

/// Colours each edge that has no colour, one after the other.
pub fn colour_rest(board: &mut Board, degree: u32)
    requires few { (v : CopyId) → v.0 < board.old.nodes → degree_of board.old v ≤ degree }
    requires enough { degree ≤ board.old.colours }
    requires half { 3 * degree ≤ 2 * board.old.colours + 1 }
    ensures coloured { IsComplete board.new }
    ensures graph { SameGraph board.old board.new }
{
    for edge in 0..board.edges() {
        if board.colour_of(EdgeId(edge)).is_none() {
            colour_edge(board, EdgeId(edge), degree);
        }
    }
}
