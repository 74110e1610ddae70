//! The shifts of the moves, by colour.
ghost use Rattle.std.specs.Prelude.{◌≡◌, ◌<◌, ◌≤◌, [], length, vec_len, All, IfOk};
ghost use Rattle.mig_base.specs.Transfers.{transfer_graph};
ghost use Rattle.mig_base.specs.Planned.{move_shift};
ghost use Rattle.mig_plan.specs.ColourRows.{AreColourRows};

use mig_base::{Colour, EdgeId, Input, MAX_ITEMS, Shift, Spot};
use mig_graph::Graph;
use std::alloc::{AllocError, Global};

/// The shift of a move.
fn shift_of(input: &Input, graph: &Graph, targets: &[Spot], edge: u32) -> Shift
    requires graph { graph.now ≡ transfer_graph input.now }
    requires edge { edge < length graph.now.transfers }
    requires targets { length targets.now ≡ length graph.now.transfers }
    ensures { result ≡ move_shift input.now targets.now edge }
{
    let item = graph.item(EdgeId(edge));
    Shift {
        item,
        from: input.now()[item.0 as usize],
        to: targets[edge as usize],
    }
}

/// How many edges each colour has.
fn sizes_of(alloc: Global, colours: &[Colour], count: u32) -> Result<Vec<u32>, AllocError>
    requires few { length colours.now ≤ MAX_ITEMS }
    requires below { All (λ c. c.0 < count) colours.now }
    ensures { IfOk result (λ v. vec_len v ≡ count) }
{
    let mut sizes = vec![in alloc; 0; count as usize]?;
    for colour in colours {
        sizes[colour.0 as usize] += 1;
    }
    Ok(sizes)
}

/// Empty rows, with room for so many shifts each.
fn empty_rows(alloc: Global, sizes: &[u32]) -> Result<Vec<Vec<Shift>>, AllocError>
    ensures len { IfOk result (λ v. vec_len v ≡ length sizes.now) }
    ensures empty { IfOk result (λ v. All (λ row. row.items ≡ []) v.items) }
{
    let mut rows = Vec::with_capacity(alloc, sizes.len())?;
    for size in sizes {
        rows.push(Vec::with_capacity(alloc, *size as usize)?)?;
    }
    Ok(rows)
}

/// The shifts of each colour's edges, in the order of the edges.
pub fn rows_of(
    alloc: Global,
    input: &Input,
    graph: &Graph,
    targets: &[Spot],
    colours: &[Colour],
    count: u32,
) -> Result<Vec<Vec<Shift>>, AllocError>
    requires graph { graph.now ≡ transfer_graph input.now }
    requires targets { length targets.now ≡ length graph.now.transfers }
    requires colours { length colours.now ≡ length graph.now.transfers }
    requires below { All (λ c. c.0 < count) colours.now }
    ensures len { IfOk result (λ v. vec_len v ≡ count) }
    ensures rows { IfOk result (λ v. AreColourRows input.now targets.now colours.now (length colours.now) v.items) }
{
    let edges = graph.edges();
    let sizes = sizes_of(alloc, colours, count)?;
    let mut rows = empty_rows(alloc, &sizes)?;
    for edge in 0..edges {
        let shift = shift_of(input, graph, targets, edge);
        rows[colours[edge as usize].0 as usize].push(shift)?;
    }
    Ok(rows)
}
