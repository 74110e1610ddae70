//! The best disk.
ghost use Rattle.std.specs.Prelude.{◌+◌, ◌<◌, length, ◌≡◌, false};
ghost use Rattle.mig_base.specs.InputLists.{is_duplex};
ghost use Rattle.mig_graph.specs.Graphs.{IsGraph};
ghost use Rattle.mig_bounds.specs.Search.{IsBestDisk};

use crate::best::{BestSmall, SmallSet};
use mig_base::DiskId;
use mig_graph::Graph;

/// The first disk of the greatest value by joint limits, where some disk has a load.
pub fn best_disk(graph: &Graph) -> Option<BestSmall>
    requires { is_duplex graph.now.disks ≡ false }
    ensures best { IsBestDisk graph.now result (length graph.now.disks) }
    ensures valid { IsGraph graph.now }
{
    let mut best = None;
    for disk in 0..graph.disks() {
        best = better_disk(graph, disk, best);
    }
    best
}

/// The disk, if it has a load and a greater value than the best disk before it.
fn better_disk(graph: &Graph, disk: u32, best: Option<BestSmall>) -> Option<BestSmall>
    requires joint { is_duplex graph.now.disks ≡ false }
    requires there { disk < length graph.now.disks }
    requires before { IsBestDisk graph.now best disk }
    ensures { IsBestDisk graph.now result (disk + 1) }
{
    let load = graph.load(DiskId(disk));
    let value = load.div_ceil(graph.limit(DiskId(disk)));
    match best {
        Some(before) if value <= before.value => Some(before),
        None if load == 0 => None,
        _ => Some(BestSmall {
            set: SmallSet::Disk(DiskId(disk)),
            value,
        }),
    }
}
