//! The best side of a disk.
ghost use Rattle.std.specs.Prelude.{◌≡◌, ◌+◌, ◌*◌, ◌<◌, ◌≤◌, true, length};
ghost use Rattle.mig_base.specs.InputLists.{disk_at, is_duplex};
ghost use Rattle.mig_base.specs.Transfers.{side_load, side_limit};
ghost use Rattle.mig_graph.specs.Graphs.{IsGraph};
ghost use Rattle.mig_bounds.specs.Sides.{IsFirstSide, side_number};

use crate::best::BestSide;
use mig_base::{DiskId, Side};
use mig_graph::Graph;

/// The first side of the greatest value by split limits, where some side has a load.
pub fn best_side(graph: &Graph) -> Option<BestSide>
    requires { is_duplex graph.now.disks ≡ true }
    ensures best { IsFirstSide graph.now result (2 * length graph.now.disks) }
    ensures valid { IsGraph graph.now }
{
    let mut best = None;
    for disk in 0..graph.disks() {
        best = better_side(graph, DiskId(disk), Side::Outgoing, best);
        best = better_side(graph, DiskId(disk), Side::Incoming, best);
    }
    best
}

/// How many moves leave the disk, or how many reach it, and the limit on that side.
fn side_of(graph: &Graph, disk: DiskId, side: Side) -> (u32, u32)
    requires split { is_duplex graph.now.disks ≡ true }
    requires there { disk.0 < length graph.now.disks }
    ensures load { result.0 ≡ side_load side disk.0 graph.now.transfers }
    ensures limit { result.1 ≡ side_limit side (disk_at graph.now.disks disk.0).limits }
    ensures least { 1 ≤ result.1 }
{
    match side {
        Side::Outgoing => (graph.out_load(disk), graph.out_limit(disk)),
        Side::Incoming => (graph.in_load(disk), graph.in_limit(disk)),
    }
}

/// The side, if it has a load and a greater value than the best side before it.
fn better_side(graph: &Graph, disk: DiskId, side: Side, best: Option<BestSide>) -> Option<BestSide>
    requires split { is_duplex graph.now.disks ≡ true }
    requires there { disk.0 < length graph.now.disks }
    requires before { IsFirstSide graph.now best (side_number disk.0 side) }
    ensures { IsFirstSide graph.now result (side_number disk.0 side + 1) }
{
    let (load, limit) = side_of(graph, disk, side);
    let value = load.div_ceil(limit);
    match best {
        Some(before) if value <= before.value => Some(before),
        None if load == 0 => None,
        _ => Some(BestSide {
            disk,
            side,
            load,
            value,
        }),
    }
}
