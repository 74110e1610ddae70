//! Colourings of a transfer graph, so that the edges of one colour keep each disk's limit.
ghost use Rattle.std.specs.Prelude.{◌≡◌, ◌<◌, ◌≤◌, ◌+◌, ◌*◌, false, length, vec_len, IfOk, IfSome};
ghost use Rattle.mig_base.specs.InputLists.{is_duplex};
ghost use Rattle.mig_base.specs.Bounding.{quotient};
ghost use Rattle.mig_base.specs.Colourings.{IsLimited};
ghost use Rattle.mig_base.specs.Lowered.{lowered_quotient, IsLowerable};
ghost use Rattle.mig_base.specs.MadePlans.{Because, Reason};
ghost use Rattle.mig_plan.specs.Coloured.{IsDealtBoard, SidesFit};

use crate::directions::directions_for;
use crate::lowered::lowered_quotient;
use mig_base::Colour;
use mig_board::Board;
use mig_duplex::{colour_duplex, colour_spread, colours_of};
use mig_euler::orient;
use mig_graph::Graph;
use mig_shannon::{colour_few, colour_within};
use mig_split::split_limits;
use std::alloc::{AllocError, Global};

/// A disk below its limit has so many copies, or nearly, for each one that it needs.
const SHARES: u32 = 16;

/// Up to so many rounds other dealings are tried too: as many as deal so many edges in all, but between these two numbers.
const FEW_ROUNDS: u32 = 4;

const DEALT: u32 = 1 << 17;

const FEW_DEALINGS: u32 = 8;

const MOST_DEALINGS: u32 = 64;

/// The first board has one more colour for so many of its first ones.
const MORE: u32 = 32;

/// Colours the edges by q colours, where each disk's joint limit covers the copies that these directions of the edges
/// need on its two sides, of at most q ends each.
fn colour_directed(
    alloc: Global,
    graph: &Graph,
    directions: &[bool],
    q: u32,
) -> Result<Vec<Colour>, AllocError>
    requires some { 1 ≤ q }
    requires few { q ≤ length graph.now.transfers }
    requires joint { is_duplex graph.now.disks ≡ false }
    requires directions { length directions.now ≡ length graph.now.transfers }
    requires fit { SidesFit graph.now q directions.now }
    ensures { IfOk result (λ v. IsLimited graph.now q v.items) }
{
    graph.keeps_rules();
    colour_spread(alloc, graph, directions, q)
}

/// Colours the edges by joint limits that are lowered to even ones: as many colours do as the greatest quotient by
/// these. The edges are directed so that they balance at each disk.
pub fn colour_lowered(alloc: Global, graph: &Graph, q: u32) -> Result<Vec<Colour>, AllocError>
    requires lowerable { IsLowerable graph.now }
    requires quotient { q ≡ lowered_quotient graph.now }
    ensures { IfOk result (λ v. IsLimited graph.now q v.items) }
{
    graph.keeps_rules();
    if graph.edges() == 0 {
        return Ok(Vec::new(alloc));
    }
    let directions = orient(alloc, graph)?;
    colour_directed(alloc, graph, &directions, q)
}

/// Directions of so many edges for a dealing: those of the transfers for the first one, and others for each other
/// dealing, the same ones each time.
fn directions_of(alloc: Global, edges: u32, dealing: u32) -> Result<Vec<bool>, AllocError>
    ensures { IfOk result (λ v. vec_len v ≡ edges) }
{
    let mut directions = Vec::with_capacity(alloc, edges as usize)?;
    let mut state = dealing;
    for _edge in 0..edges {
        state = state.wrapping_mul(1664525).wrapping_add(1013904223);
        directions.push(dealing == 0 || state < 1 << 31)?;
    }
    Ok(directions)
}

/// A board of so many colours on which nothing is coloured: its nodes are the copies of disks in a dealing.
fn dealt_board(
    alloc: Global,
    graph: &Graph,
    dealing: u32,
    colours: u32,
) -> Result<Board, AllocError>
    requires joint { is_duplex graph.now.disks ≡ false }
    requires some { 0 < length graph.now.transfers }
    requires room { 2 * colours ≤ 3 * quotient graph.now }
    ensures { IfOk result (IsDealtBoard graph.now colours) }
{
    let directions = directions_of(alloc, graph.edges(), dealing)?;
    let share = graph.quotient().div_ceil(SHARES);
    let copies = split_limits(alloc, graph, &directions, share)?;
    Board::new(alloc, copies.nodes, copies.ends, colours)
}

/// Colours the edges by so many colours, from `start` on, in a dealing. None comes where walks leave an edge without a
/// colour.
fn colour_within_few(
    alloc: Global,
    graph: &Graph,
    dealing: u32,
    colours: u32,
    start: u32,
) -> Result<Option<Vec<Colour>>, AllocError>
    requires joint { is_duplex graph.now.disks ≡ false }
    requires some { 0 < length graph.now.transfers }
    requires room { 2 * colours ≤ 3 * quotient graph.now }
    ensures { IfOk result (λ o. IfSome o (λ v. IsLimited graph.now colours v.items)) }
{
    graph.keeps_rules();
    let mut board = dealt_board(alloc, graph, dealing, colours)?;
    if !colour_within(&mut board, start) {
        return Ok(None);
    }
    Ok(Some(colours_of(alloc, &board)?))
}

/// Colours the edges by so many colours, from `start` on, whatever the limits are: three halves of the quotient, rounded
/// down, are enough (Shannon 1949).
fn colour_surely(
    alloc: Global,
    graph: &Graph,
    colours: u32,
    start: u32,
) -> Result<Vec<Colour>, AllocError>
    requires joint { is_duplex graph.now.disks ≡ false }
    requires some { 0 < length graph.now.transfers }
    requires enough { 3 * quotient graph.now ≤ 2 * colours + 1 }
    requires room { 2 * colours ≤ 3 * quotient graph.now }
    requires start { start ≤ colours }
    ensures { IfOk result (λ v. IsLimited graph.now colours v.items) }
{
    graph.keeps_rules();
    let q = graph.quotient();
    let mut board = dealt_board(alloc, graph, 0, colours)?;
    colour_few(&mut board, q, start);
    colours_of(alloc, &board)
}

/// Colours the edges by `most` colours at most, which are three halves of the quotient, and gives the number of colours.
///
/// Colours from `start` on are tried first, on a board with few more: so its table is no greater than it has to be. Where
/// few rounds are needed, how ends are dealt to copies decides whether one more is left over, and other dealings are
/// tried too.
fn colour_general(
    alloc: Global,
    graph: &Graph,
    most: u32,
    start: u32,
) -> Result<(Vec<Colour>, u32), AllocError>
    requires joint { is_duplex graph.now.disks ≡ false }
    requires some { 0 < length graph.now.transfers }
    requires enough { 3 * quotient graph.now ≤ 2 * most + 1 }
    requires room { 2 * most ≤ 3 * quotient graph.now }
    requires start { start ≤ most }
    ensures limited { IfOk result (λ r. IsLimited graph.now r.1 r.0.items) }
    ensures most { IfOk result (λ r. r.1 ≤ most) }
{
    let is_small = start <= FEW_ROUNDS;
    let few = if is_small {
        start
    } else {
        most.min(start.saturating_add(start / MORE + 1))
    };
    let dealings = if is_small {
        (DEALT / graph.edges().max(1))
            .min(MOST_DEALINGS)
            .max(FEW_DEALINGS)
    } else {
        1
    };
    for dealing in 0..dealings {
        if let Some(colours) = colour_within_few(alloc, graph, dealing, few, start)? {
            return Ok((colours, few));
        }
    }
    Ok((colour_surely(alloc, graph, most, few)?, most))
}

/// Colours the edges whatever joint limits are, by `most` colours at most, which are three halves of the quotient, and
/// gives the number of colours: where limits can be lowered to even ones and `start` colours are enough for these, that
/// many at once.
fn colour_any(
    alloc: Global,
    graph: &Graph,
    most: u32,
    start: u32,
) -> Result<(Vec<Colour>, u32), AllocError>
    requires joint { is_duplex graph.now.disks ≡ false }
    requires some { 0 < length graph.now.transfers }
    requires enough { 3 * quotient graph.now ≤ 2 * most + 1 }
    requires room { 2 * most ≤ 3 * quotient graph.now }
    requires start { start ≤ most }
    ensures limited { IfOk result (λ r. IsLimited graph.now r.1 r.0.items) }
    ensures most { IfOk result (λ r. r.1 ≤ most) }
{
    if let Some(q) = lowered_quotient(graph) {
        if q <= start {
            return Ok((colour_lowered(alloc, graph, q)?, q));
        }
    }
    colour_general(alloc, graph, most, start)
}

/// Colours the edges so that those of one colour keep each disk's limits, and gives the number of colours too: the
/// quotient where limits are split, where they are even, and where each transfer goes from one side of the disks to the
/// other; else three halves of it at most. There fewer colours are tried first, from `start` on.
pub fn colour_moves(
    alloc: Global,
    graph: &Graph,
    start: u32,
) -> Result<(Vec<Colour>, u32), AllocError>
    ensures limited { IfOk result (λ r. IsLimited graph.now r.1 r.0.items) }
    ensures tight { IfOk result (λ r. (why : Reason) → Because why graph.now → r.1 ≤ quotient graph.now) }
    ensures most { IfOk result (λ r. 2 * r.1 ≤ 3 * quotient graph.now) }
{
    if graph.edges() == 0 {
        return Ok((Vec::new(alloc), 0));
    }
    let q = graph.quotient();
    if graph.duplex() {
        return Ok((colour_duplex(alloc, graph)?, q));
    }
    if let Some(directions) = directions_for(alloc, graph)? {
        return Ok((colour_directed(alloc, graph, &directions, q)?, q));
    }
    let most = 3 * q / 2;
    colour_any(alloc, graph, most, start.max(q).min(most))
}
