//! Walks that free a colour for an edge.
ghost use Rattle.std.specs.Prelude.{◌≡◌, ◌<◌, length, IfSome, MatchBool};
ghost use Rattle.mig_board.specs.Colouring.{IsMissing, IsProper};
ghost use Rattle.mig_board.specs.Growth.{IsPlain, PaintsOne, Recolours};
ghost use Rattle.mig_shannon.specs.Ways.{CanWalk, IsOpen};

use crate::palettes::Effort;
use mig_base::{Colour, CopyId, EdgeId};
use mig_board::Board;

/// How many colours are looked at after each walk that failed, and how often a node beside another one is drawn.
const LOOKS: u32 = 64;

const DRAWS: u32 = 8;

/// A node lacks many colours where it lacks so many of 64.
const MANY: u32 = 25;

/// The next colour of the palette that is missing at the node, from a number on, or else the first one.
fn missing_after(board: &Board, node: CopyId, from: u32, size: u32) -> Option<Colour>
    requires { node.0 < board.now.nodes }
    ensures missing { IfSome result (IsMissing board.now node) }
    ensures below { IfSome result (λ colour. colour.0 < size) }
{
    if let Some(colour) = board.missing_from(node, Colour(from)) {
        if colour.0 < size {
            return Some(colour);
        }
    }
    if let Some(colour) = board.missing(node) {
        if colour.0 < size {
            return Some(colour);
        }
    }
    None
}

/// Colours of the palette for a walk from an edge's first end: one that is missing there, and one that is missing at
/// the second end.
fn draw_pair(
    board: &Board,
    first: CopyId,
    second: CopyId,
    size: u32,
    effort: &mut Effort,
) -> Option<(Colour, Colour)>
    requires first { first.0 < board.now.nodes }
    requires second { second.0 < board.now.nodes }
    ensures lacks { IfSome result (λ pair. IsMissing board.now first pair.0) }
    ensures has { IfSome result (λ pair. IsMissing board.now second pair.1) }
{
    let lacks = missing_after(board, first, effort.draw(size), size)?;
    let has = missing_after(board, second, effort.draw(size), size)?;
    Some((lacks, has))
}

/// Paints an edge after an exchange along the walk from its first end, unless that walk ends at its second one.
fn try_walk(
    board: &mut Board,
    edge: EdgeId,
    first: CopyId,
    second: CopyId,
    lacks: Colour,
    has: Colour,
) -> bool
    requires { CanWalk board.old edge first second lacks has }
    ensures tried { MatchBool result (PaintsOne board.old board.new edge) (Recolours board.old board.new) }
    ensures proper { IsProper board.new }
{
    if board.is_missing(first, has) {
        board.paint(edge, has);
        return true;
    }
    if board.exchange(first, lacks, has) == second {
        return false;
    }
    board.paint(edge, has);
    true
}

/// A drawn colour of the palette.
fn draw_colour(board: &Board, size: u32, effort: &mut Effort) -> Colour
    requires { 0 < board.now.colours }
    ensures { result.0 < board.now.colours }
{
    Colour(effort.draw(size.min(board.colours())))
}

/// Whether a node lacks many colours, by those near a given one.
fn lacks_many(board: &Board, node: CopyId, near: Colour) -> bool
    requires { node.0 < board.now.nodes }
{
    match board.free_words(node).get(near.0 as usize / 64) {
        Some(word) => word.count_ones() >= MANY,
        None => false,
    }
}

/// Whether a colour can be spared at the node: it is missing there, or its edge there leads to a node that lacks many.
fn is_spare(board: &Board, node: CopyId, near: Colour, colour: Colour) -> bool
    requires node { node.0 < board.now.nodes }
    requires near { near.0 < board.now.colours }
    requires colour { colour.0 < board.now.colours }
{
    board.keeps_rules();
    let Some(edge) = board.edge_at(node, colour) else {
        return true;
    };
    let far = board.across(edge, node);
    board.is_missing(far, near) && lacks_many(board, far, near)
}

/// A node beside one, other than a given node, that doesn't lack many colours; or else the node itself.
fn beside(
    board: &Board,
    node: CopyId,
    other: CopyId,
    near: Colour,
    size: u32,
    effort: &mut Effort,
) -> CopyId
    requires node { node.0 < board.now.nodes }
    requires near { near.0 < board.now.colours }
    ensures { result.0 < board.now.nodes }
{
    for _draw in 0..DRAWS {
        if let Some(edge) = board.edge_at(node, draw_colour(board, size, effort)) {
            let far = board.across(edge, node);
            if far != other && !lacks_many(board, far, near) {
                return far;
            }
        }
    }
    node
}

/// A colour of the palette that can be spared at a node beside the first one and at a node beside the second one.
fn find_spare(
    board: &Board,
    first: CopyId,
    second: CopyId,
    size: u32,
    effort: &mut Effort,
) -> Option<Colour>
    requires first { first.0 < board.now.nodes }
    requires second { second.0 < board.now.nodes }
    requires some { 0 < board.now.colours }
    ensures { IfSome result (λ colour. colour.0 < board.now.colours) }
{
    let near = draw_colour(board, size, effort);
    let here = beside(board, first, first, near, size, effort);
    let there = beside(board, second, here, near, size, effort);
    let most = size.min(board.colours());
    let end = effort.draw(most.saturating_add(LOOKS));
    for number in end.saturating_sub(LOOKS)..end.min(most) {
        let colour = Colour(number);
        if is_spare(board, here, near, colour) && is_spare(board, there, near, colour) {
            return Some(colour);
        }
    }
    None
}

/// Exchanges the colour `lacks` with another one at the node, where the one is missing there and the other is not.
fn let_lack(board: &mut Board, node: CopyId, lacks: Colour, colour: Colour)
    requires node { node.0 < board.old.nodes }
    requires lacks { lacks.0 < board.old.colours }
    requires colour { colour.0 < board.old.colours }
    ensures recolours { Recolours board.old board.new }
    ensures proper { IsProper board.new }
{
    board.keeps_rules();
    if board.is_missing(node, lacks) && !board.is_missing(node, colour) {
        board.exchange(node, lacks, colour);
    }
}

/// Tries to colour an edge by a walk from its first end with a colour that can be spared beside both ends.
///
/// Where a palette is tight, few colours have fewer edges among nodes that lack little than they could have. Such a colour
/// is missing at several of these nodes, or goes from them to nodes that lack many. Drawn walks rarely find it.
fn try_spare(
    board: &mut Board,
    edge: EdgeId,
    ends: (CopyId, CopyId),
    lacks: (Colour, Colour),
    size: u32,
    effort: &mut Effort,
) -> bool
    requires open { IsOpen board.old edge ends.0 ends.1 }
    requires first { lacks.0.0 < board.old.colours }
    requires second { lacks.1.0 < board.old.colours }
    ensures tried { MatchBool result (PaintsOne board.old board.new edge) (Recolours board.old board.new) }
    ensures proper { IsProper board.new }
{
    let (first, second) = ends;
    let Some(colour) = find_spare(board, first, second, size, effort) else {
        return false;
    };
    let_lack(board, first, lacks.0, colour);
    if !board.is_missing(first, colour) || !board.is_missing(second, lacks.1) {
        return false;
    }
    try_walk(board, edge, first, second, colour, lacks.1)
}

/// Exchanges a colour of the palette that is missing at the node with another one.
fn stir(board: &mut Board, node: CopyId, size: u32, effort: &mut Effort)
    requires { node.0 < board.old.nodes }
    ensures recolours { Recolours board.old board.new }
    ensures proper { IsProper board.new }
{
    board.keeps_rules();
    let Some(lacks) = missing_after(board, node, effort.draw(size), size) else {
        return;
    };
    let colour = draw_colour(board, size, effort);
    let_lack(board, node, lacks, colour);
}

/// Tries to colour an edge within the palette.
///
/// A walk that does not end at the edge's other end leaves both ends with one colour missing. After a walk that does, the
/// ends have exchanged the colours that they lack: a colour is looked for that can be spared beside them, then another walk
/// changes what is missing at the first end, and the ends change their parts.
pub fn try_edge(board: &mut Board, edge: EdgeId, size: u32, effort: &mut Effort) -> bool
    requires in_range { edge.0 < length board.old.ends }
    requires plain { IsPlain board.old edge }
    ensures tried { MatchBool result (PaintsOne board.old board.new edge) (Recolours board.old board.new) }
    ensures proper { IsProper board.new }
{
    let (mut first, mut second) = board.ends(edge);
    for _try in 0..effort.tries {
        if effort.is_spent() {
            return false;
        }
        let Some((lacks, has)) = draw_pair(board, first, second, size, effort) else {
            effort.pay();
            return false;
        };
        if try_walk(board, edge, first, second, lacks, has) {
            return true;
        }
        effort.pay();
        if try_spare(board, edge, (first, second), (has, lacks), size, effort) {
            return true;
        }
        stir(board, first, size, effort);
        (first, second) = (second, first);
    }
    false
}
