//! Labels of disks, by components.
ghost use Rattle.std.specs.Prelude.{◌≡◌, ◌+◌, ◌<◌, length, IfOk};
ghost use Rattle.mig_graph.specs.Graphs.{IsGraph};
ghost use Rattle.mig_bounds.specs.Labels.{IsLabelling, Relabels};

use mig_base::EdgeId;
use mig_graph::Graph;
use std::alloc::{AllocError, Global};

/// For each disk, the least disk of its component.
pub fn labels_of(alloc: Global, graph: &Graph) -> Result<Vec<u32>, AllocError>
    ensures { IfOk result (λ labels. IsLabelling graph.now labels.items (length graph.now.transfers)) }
{
    let mut labels = own_labels(alloc, graph)?;
    for edge in 0..graph.edges() {
        join_ends(graph, &mut labels, edge);
    }
    Ok(labels)
}

/// Each disk as its own label.
fn own_labels(alloc: Global, graph: &Graph) -> Result<Vec<u32>, AllocError>
    ensures { IfOk result (λ labels. IsLabelling graph.now labels.items 0) }
{
    (0..graph.disks()).collect(alloc)
}

/// Gives the lesser of the labels of an edge's ends to all disks that have the greater. Of n disks at most n - 1
/// are told apart in this way, so that all edges take no more than n * n steps.
fn join_ends(graph: &Graph, labels: &mut [u32], edge: u32)
    requires valid { IsGraph graph.now }
    requires there { edge < length graph.now.transfers }
    requires before { IsLabelling graph.now labels.old edge }
    ensures { IsLabelling graph.now labels.new (edge + 1) }
{
    let (a, b) = graph.ends(EdgeId(edge));
    let x = labels[a.0 as usize];
    let y = labels[b.0 as usize];
    if x < y {
        relabel(labels, y, x);
    } else if y < x {
        relabel(labels, x, y);
    }
}

/// Gives one label to all disks that have another.
fn relabel(labels: &mut [u32], from: u32, to: u32)
    ensures { Relabels from to labels.old labels.new }
{
    for label in labels {
        if *label == from {
            *label = to;
        }
    }
}
