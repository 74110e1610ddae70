ghost use Rattle.std.specs.Prelude.{◌≡◌, ◌+◌, ◌*◌, ◌/◌, ◌<◌, ◌≤◌, ◌↔◌, IsTrue, false, true, length};
ghost use Rattle.mig_base.specs.declared.ids.CopyId.{CopyId};
ghost use Rattle.mig_board.specs.Colouring.{IsProper, degree_of};
ghost use Rattle.mig_board.specs.Growth.{IsBlank, IsComplete, SameGraph};
ghost use Rattle.mig_shannon.specs.Left.{edges_left};
ghost use Rattle.mig_shannon.specs.Ways.{Grows};

use crate::palettes::{Effort, Palette};
use crate::steps::colour_rest;
use crate::walks::try_edge;
use mig_base::EdgeId;
use mig_board::Board;

/// How often all edges are tried at most.
const PASSES: u32 = 1 << 16;

/// Tries each edge that has no colour, and counts those that stay without one.
fn try_all(board: &mut Board, size: u32, effort: &mut Effort) -> u32
    ensures left { result ≡ edges_left board.new }
    ensures grows { Grows board.old board.new }
    ensures proper { IsProper board.new }
{
    let mut left = 0;
    for edge in 0..board.edges() {
        let edge = EdgeId(edge);
        if board.colour_of(edge).is_none() && !try_edge(board, edge, size, effort) {
            left += 1;
            effort.hurry(left);
        }
    }
    board.keeps_rules();
    left
}

/// Whether another pass is worth its time after one that left so many edges. Where many walks have brought nothing, the
/// palette has to grow for it, up to the board's colours.
fn can_go_on(palette: &mut Palette, effort: &mut Effort, left: u32, colours: u32) -> bool
    ensures spent { effort.old.left ≡ 0 → result ≡ false }
    ensures room { 0 < effort.old.left → palette.old.size < colours → result ≡ true }
    ensures better { 0 < effort.old.left → left + left / 16 < effort.old.least → result ≡ true }
    ensures kept { left + left / 16 < effort.old.least → palette.new ≡ palette.old }
{
    if effort.is_spent() {
        return false;
    }
    if effort.is_better(left) {
        effort.begin(left);
        return true;
    }
    if !effort.is_stuck(left) {
        effort.deepen();
        return true;
    }
    let has_room = palette.size < colours;
    palette.grow(left, colours);
    effort.begin(left);
    has_room
}

/// Colours edges by walks alone, within a palette that begins with the first `start` colours and grows, up to the
/// board's colours, where many walks bring nothing. Tells whether each edge has a colour then.
///
/// Takes no memory and refuses nothing. Walks are tried a bounded number of times, by numbers that are the same each
/// time.
pub fn colour_within(board: &mut Board, start: u32) -> bool
    ensures tells { IsTrue result ↔ IsComplete board.new }
    ensures grows { Grows board.old board.new }
    ensures proper { IsProper board.new }
{
    let colours = board.colours();
    let mut palette = Palette::new(start, board.nodes());
    let mut effort = Effort::new(board.nodes(), colours);
    let mut left = try_all(board, palette.size, &mut effort);
    for _pass in 1..PASSES {
        if left == 0 || !can_go_on(&mut palette, &mut effort, left, colours) {
            break;
        }
        left = try_all(board, palette.size, &mut effort);
    }
    left == 0
}

/// Colours each edge of a board on which nothing is coloured, with few colours in practice.
///
/// The palette of `colour_within` begins with the first `start` colours: a bound on the number of colours that every
/// colouring needs is a good start. What walks leave, Shannon's steps colour. No node may be an end of more than
/// `degree` edges, there have to be at least `degree` colours, and twice the colours have to be at least three times
/// the degree, less one. What is promised is only that the board's colours are enough.
///
/// Takes no memory and refuses nothing.
pub fn colour_few(board: &mut Board, degree: u32, start: u32)
    requires blank { IsBlank board.old }
    requires few { (v : CopyId) → v.0 < board.old.nodes → degree_of board.old v ≤ degree }
    requires enough { degree ≤ board.old.colours }
    requires half { 3 * degree ≤ 2 * board.old.colours + 1 }
    requires start { start ≤ board.old.colours }
    ensures coloured { IsComplete board.new }
    ensures graph { SameGraph board.old board.new }
    ensures proper { IsProper board.new }
{
    colour_within(board, start);
    colour_rest(board, degree);
    board.keeps_rules();
}

/// Colours each edge of a board on which nothing is coloured.
///
/// No node may be an end of more than `degree` edges, there have to be at least `degree` colours, and twice the
/// colours have to be at least three times the degree, less one. Takes no memory and refuses nothing.
///
/// Shannon (1949) showed that so many colours are enough for a multigraph without loops, and his steps colour each
/// edge that walks leave.
pub fn colour_all(board: &mut Board, degree: u32)
    requires blank { IsBlank board.old }
    requires few { (v : CopyId) → v.0 < board.old.nodes → degree_of board.old v ≤ degree }
    requires enough { degree ≤ board.old.colours }
    requires half { 3 * degree ≤ 2 * board.old.colours + 1 }
    ensures coloured { IsComplete board.new }
    ensures graph { SameGraph board.old board.new }
    ensures proper { IsProper board.new }
{
    colour_few(board, degree, degree);
}
