//! Loads in lists, and what follows from them.
ghost use Rattle.std.specs.Prelude.{◌≡◌, ◌+◌, ◌<◌, ◌≤◌, IfOk, MatchBool, length, map, All};
ghost use Rattle.mig_base.specs.InputLists.{IsDiskInRange, IsInRange};
ghost use Rattle.mig_graph.specs.Edges.{edge_transfer};
ghost use Rattle.mig_graph.specs.Loads.{AreLoads, AreFewLoads, EvenBy, IsEvenBy, end_on, quotient_by, rounds_by};

use crate::edges::Edge;
use mig_base::{Disk, DiskId, Limits, MAX_ITEMS, Side};
use std::alloc::{AllocError, Global};

/// The disk at which an edge counts on a side: the one that it leaves, or the one that it reaches.
fn end_of(edge: Edge, side: Side) -> DiskId
    ensures { result.0 ≡ end_on side (edge_transfer edge) }
{
    match side {
        Side::Outgoing => edge.from,
        Side::Incoming => edge.to,
    }
}

/// How many edges leave each disk, or how many reach it.
pub fn loads_of(
    alloc: Global,
    disks: usize,
    edges: &[Edge],
    side: Side,
) -> Result<Vec<u32>, AllocError>
    requires few { length edges.now ≤ MAX_ITEMS }
    requires from { All (λ e. e.from.0 < disks) edges.now }
    requires to { All (λ e. e.to.0 < disks) edges.now }
    ensures { IfOk result (λ v. AreLoads side disks (map edge_transfer edges.now) v.items) }
{
    let mut loads = vec![in alloc; 0; disks]?;
    for edge in edges {
        let disk = end_of(*edge, side);
        loads[disk.0 as usize] += 1;
    }
    Ok(loads)
}

/// How many rounds a disk with these limits needs for so many edges that leave it and so many that reach it.
fn rounds_by(limits: Limits, leaving: u32, reaching: u32) -> u32
    requires range { IsInRange limits }
    requires leaving { leaving ≤ MAX_ITEMS }
    requires reaching { reaching ≤ MAX_ITEMS }
    ensures { result ≡ rounds_by limits leaving reaching }
{
    match limits {
        Limits::Joint { limit } => (leaving + reaching).div_ceil(limit),
        Limits::Split { outgoing, incoming } => {
            leaving.div_ceil(outgoing).max(reaching.div_ceil(incoming))
        }
    }
}

/// The greatest number of rounds that a disk needs for its own edges.
pub fn quotient_of(disks: &[Disk], outgoing: &[u32], incoming: &[u32]) -> u32
    requires outgoing { AreFewLoads disks.now outgoing.now }
    requires incoming { AreFewLoads disks.now incoming.now }
    requires valid { All IsDiskInRange disks.now }
    ensures { result ≡ quotient_by disks.now outgoing.now incoming.now (length disks.now) }
{
    let mut greatest = 0;
    for disk in 0..disks.len() {
        let value = rounds_by(disks[disk].limits, outgoing[disk], incoming[disk]);
        if greatest < value {
            greatest = value;
        }
    }
    greatest
}

/// Whether a limit is joint, and even where the disk has a load.
fn is_even_by(limits: Limits, load: u32) -> bool
    ensures { MatchBool result (IsEvenBy limits load) (¬ IsEvenBy limits load) }
{
    match limits {
        Limits::Joint { limit } => load == 0 || limit % 2 == 0,
        Limits::Split { .. } => false,
    }
}

/// Whether limits are joint, and those of disks with a load even.
pub fn even_of(disks: &[Disk], outgoing: &[u32], incoming: &[u32]) -> bool
    requires outgoing { AreFewLoads disks.now outgoing.now }
    requires incoming { AreFewLoads disks.now incoming.now }
    ensures { MatchBool result (EvenBy disks.now outgoing.now incoming.now) (¬ EvenBy disks.now outgoing.now incoming.now) }
{
    for disk in 0..disks.len() {
        if !is_even_by(disks[disk].limits, outgoing[disk] + incoming[disk]) {
            return false;
        }
    }
    true
}
