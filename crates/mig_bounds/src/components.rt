//! Components, and the best of them.
ghost use Rattle.std.specs.Prelude.{◌≡◌, ◌+◌, ◌<◌, ◌∷◌, [], length, IfOk, false};
ghost use Rattle.mig_base.specs.InputLists.{is_duplex};
ghost use Rattle.mig_graph.specs.Graphs.{IsGraph};
ghost use Rattle.mig_bounds.specs.Labels.{IsLabelling};
ghost use Rattle.mig_bounds.specs.Search.{IsBestSmall};

use crate::best::{BestSmall, BestWitness, Witness};
use crate::labels::labels_of;
use mig_base::{DiskId, EdgeId};
use mig_graph::Graph;
use std::alloc::{AllocError, Global};

/// The components of a graph: for each disk the least disk of its component as its label, and for each label the
/// sum of the limits of its disks and how many edges they have.
#[derive(Drop)]
pub struct Components {
    pub labels: Vec<u32>,
    pub sums: Vec<u32>,
    pub insides: Vec<u32>,
}

impl Components {
    ghost use Rattle.mig_bounds.specs.Components.{AreComponents};

    /// The components of the graph.
    pub fn of(alloc: Global, graph: &Graph) -> Result<Components, AllocError>
        requires joint { is_duplex graph.now.disks ≡ false }
        requires valid { IsGraph graph.now }
        ensures { IfOk result (λ components. AreComponents graph.now components) }
    {
        let labels = labels_of(alloc, graph)?;
        let sums = limit_sums(alloc, graph, &labels)?;
        let insides = insides_of(alloc, graph, &labels)?;
        Ok(Components {
            labels,
            sums,
            insides,
        })
    }
}

ghost use Rattle.mig_bounds.specs.Components.{AreLimitSums, AreInsides, AreComponents, IsBestOf};

/// For each label, the sum of the limits of the disks that have it.
fn limit_sums(alloc: Global, graph: &Graph, labels: &[u32]) -> Result<Vec<u32>, AllocError>
    requires joint { is_duplex graph.now.disks ≡ false }
    requires labelling { IsLabelling graph.now labels.now (length graph.now.transfers) }
    ensures { IfOk result (λ sums. AreLimitSums graph.now labels.now (length graph.now.disks) sums.items) }
{
    let mut sums = vec![in alloc; 0; labels.len()]?;
    for disk in 0..graph.disks() {
        sums[labels[disk as usize] as usize] += graph.limit(DiskId(disk));
    }
    Ok(sums)
}

/// For each label, how many edges leave the disks that have it.
fn insides_of(alloc: Global, graph: &Graph, labels: &[u32]) -> Result<Vec<u32>, AllocError>
    requires valid { IsGraph graph.now }
    requires labelling { IsLabelling graph.now labels.now (length graph.now.transfers) }
    ensures { IfOk result (λ insides. AreInsides labels.now graph.now.transfers insides.items) }
{
    let mut insides = vec![in alloc; 0; labels.len()]?;
    for edge in 0..graph.edges() {
        let (from, _) = graph.ends(EdgeId(edge));
        insides[labels[from.0 as usize] as usize] += 1;
    }
    Ok(insides)
}

/// The first best component, if it is better.
pub fn best_component(graph: &Graph, components: &Components, best: BestSmall) -> BestWitness
    requires components { AreComponents graph.now components.now }
    requires before { IsBestSmall graph.now best (2 ∷ []) }
    ensures { IsBestOf graph.now components.now result (3 ∷ []) }
{
    let mut best = BestWitness {
        witness: Witness::Small(best.set),
        value: best.value,
    };
    for root in 0..graph.disks() {
        best = better_component(graph, components, root, best);
    }
    best
}

/// The component with this label, if there is one and it is better.
fn better_component(
    graph: &Graph,
    components: &Components,
    root: u32,
    best: BestWitness,
) -> BestWitness
    requires valid { IsGraph graph.now }
    requires components { AreComponents graph.now components.now }
    requires there { root < length graph.now.disks }
    requires before { IsBestOf graph.now components.now best (2 ∷ root ∷ []) }
    ensures { IsBestOf graph.now components.now result (2 ∷ (root + 1) ∷ []) }
{
    if components.labels[root as usize] != root || graph.load(DiskId(root)) == 0 {
        return best;
    }
    let sum = components.sums[root as usize];
    let half = sum / 2;
    if sum % 2 == 0 || half == 0 {
        return best;
    }
    let inside = components.insides[root as usize];
    if u64::from(inside) <= u64::from(best.value) * u64::from(half) {
        return best;
    }
    BestWitness {
        witness: Witness::Component(DiskId(root)),
        value: inside.div_ceil(half),
    }
}
