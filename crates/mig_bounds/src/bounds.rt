//! The best bound.
ghost use Rattle.std.specs.Prelude.{◌≡◌, ◌<◌, ◌∷◌, [], length, map, IfOk, true, false};
ghost use Rattle.mig_base.specs.InputLists.{is_duplex};
ghost use Rattle.mig_base.specs.Bounding.{Best};
ghost use Rattle.mig_base.specs.DiskNumbers.{IsDiskSet, numbers};
ghost use Rattle.mig_bounds.specs.Labels.{labelled};
ghost use Rattle.mig_bounds.specs.Pairs.{IsPairTable};
ghost use Rattle.mig_bounds.specs.Components.{AreComponents, IsBestOf};
ghost use Rattle.mig_bounds.specs.Search.{IsBestSmall};

use crate::best::{BestSmall, BestWitness, SmallSet, Witness};
use crate::components::{Components, best_component};
use crate::disks::best_disk;
use crate::pairs::{pairs_of, tops_of};
use crate::sides::best_side;
use crate::triples::{best_triple, inside_three};
use mig_base::{Bound, DiskId, DiskSet};
use mig_graph::Graph;
use std::alloc::{AllocError, Global};

/// The best lower bound on the rounds of every schedule of the graph's moves.
///
/// Of split limits the candidates are the sides of disks with a load: disk by disk, the outgoing before the incoming
/// one. Of joint limits they are the disks with a load, the triples of such disks with an odd sum of limits, and the
/// components with an odd sum of limits, in this order. The first of the greatest value is given, and `Nothing` where
/// there is no move. Errs for want of memory only.
///
/// A side needs a round for each `limit` of its moves, and so does a disk; a set of disks needs one for each half of its
/// limits, rounded down, of the moves inside it (Shannon 1949; Kari, Kim and Russell 2011).
pub fn best_bound(alloc: Global, graph: &Graph) -> Result<Bound, AllocError>
    ensures { IfOk result (λ bound. Best graph.now bound) }
{
    if graph.duplex() {
        return Ok(side_bound(graph));
    }
    joint_bound(alloc, graph)
}

/// The best bound of split limits.
fn side_bound(graph: &Graph) -> Bound
    requires { is_duplex graph.now.disks ≡ true }
    ensures { Best graph.now result }
{
    let Some(best) = best_side(graph) else {
        return Bound::Nothing;
    };
    Bound::OfSide {
        disk: best.disk,
        side: best.side,
        load: best.load,
        value: best.value,
    }
}

/// The best bound of joint limits.
fn joint_bound(alloc: Global, graph: &Graph) -> Result<Bound, AllocError>
    requires { is_duplex graph.now.disks ≡ false }
    ensures { IfOk result (λ bound. Best graph.now bound) }
{
    let Some(disk) = best_disk(graph) else {
        return Ok(Bound::Nothing);
    };
    let pairs = pairs_of(alloc, graph)?;
    let tops = tops_of(alloc, graph, &pairs)?;
    let triple = best_triple(graph, &pairs, &tops, disk);
    let components = Components::of(alloc, graph)?;
    let best = best_component(graph, &components, triple);
    bound_of(alloc, graph, &pairs, &components, best)
}

/// The bound that the best candidate shows.
fn bound_of(
    alloc: Global,
    graph: &Graph,
    pairs: &[u32],
    components: &Components,
    best: BestWitness,
) -> Result<Bound, AllocError>
    requires joint { is_duplex graph.now.disks ≡ false }
    requires table { IsPairTable graph.now pairs.now }
    requires components { AreComponents graph.now components.now }
    requires best { IsBestOf graph.now components.now best (3 ∷ []) }
    ensures { IfOk result (λ bound. Best graph.now bound) }
{
    graph.keeps_rules();
    match best.witness {
        Witness::Small(set) => {
            let value = best.value;
            small_bound(alloc, graph, pairs, BestSmall { set, value })
        }
        Witness::Component(root) => Ok(Bound::OfSet {
            disks: DiskSet::of(disks_labelled(alloc, &components.labels, root.0)?),
            inside: components.insides[root.0 as usize],
            value: best.value,
        }),
    }
}

/// The bound that the best disk or triple shows.
fn small_bound(
    alloc: Global,
    graph: &Graph,
    pairs: &[u32],
    best: BestSmall,
) -> Result<Bound, AllocError>
    requires joint { is_duplex graph.now.disks ≡ false }
    requires table { IsPairTable graph.now pairs.now }
    requires best { IsBestSmall graph.now best (3 ∷ []) }
    ensures { IfOk result (λ bound. Best graph.now bound) }
{
    graph.keeps_rules();
    let value = best.value;
    match best.set {
        SmallSet::Disk(disk) => Ok(Bound::OfDisk {
            disk,
            load: graph.load(disk),
            value,
        }),
        SmallSet::Triple(a, b, c) => Ok(Bound::OfSet {
            disks: DiskSet::of(vec![in alloc; a, b, c]?),
            inside: inside_three(graph, pairs, a.0, b.0, c.0),
            value,
        }),
    }
}

/// The disks with this label, in the order of their ids.
fn disks_labelled(alloc: Global, labels: &[u32], root: u32) -> Result<Vec<DiskId>, AllocError>
    requires { length labels.now < 4294967296 }
    ensures disks { IfOk result (λ disks. numbers disks.items ≡ labelled labels.now root) }
    ensures increasing { IfOk result (λ disks. IsDiskSet disks.items) }
{
    let mut disks = Vec::new(alloc);
    for disk in 0..labels.len() {
        if labels[disk] == root {
            disks.push(DiskId(disk as u32))?;
        }
    }
    Ok(disks)
}
