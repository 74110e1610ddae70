//! Joint limits that are lowered to even ones.
ghost use Rattle.std.specs.Prelude.{◌≡◌, ◌<◌, ◌≤◌, false, length, IfNone, IfSome, IsTrue, MatchOption};
ghost use Rattle.mig_base.specs.InputLists.{is_duplex};
ghost use Rattle.mig_base.specs.Transfers.{div_ceil, load, takes_part};
ghost use Rattle.mig_base.specs.Bounding.{limit};
ghost use Rattle.mig_base.specs.Lowered.{lowered_limit, lowered_quotient, IsLowerable};

use mig_base::DiskId;
use mig_graph::Graph;

/// The rounds that a disk needs for its own edges by its limit lowered to an even number, 0 without edges. None comes where
/// it has an edge and its limit is 1, of which nothing would be left.
fn lowered_rounds(graph: &Graph, disk: DiskId) -> Option<u32>
    requires there { disk.0 < length graph.now.disks }
    requires joint { is_duplex graph.now.disks ≡ false }
    ensures part { IfNone result (IsTrue (takes_part graph.now disk.0)) }
    ensures none { IfNone result (limit graph.now disk.0 < 2) }
    ensures some { IfSome result (λ _. IsTrue (takes_part graph.now disk.0) → 2 ≤ limit graph.now disk.0) }
    ensures rounds { IfSome result (λ r. r ≡ div_ceil (load disk.0 graph.now.transfers) (lowered_limit graph.now disk.0)) }
{
    let load = graph.load(disk);
    if load == 0 {
        return Some(0);
    }
    let lowered = 2 * (graph.limit(disk) / 2);
    if lowered == 0 {
        return None;
    }
    Some(load.div_ceil(lowered))
}

/// The greatest number of rounds that a disk needs for its own edges where each joint limit is lowered to an even number,
/// 0 without edges. None comes exactly where limits are split, and where the limit of a disk with an edge is 1, of which
/// nothing would be left.
///
/// Takes time linear in the disks.
pub fn lowered_quotient(graph: &Graph) -> Option<u32>
    ensures lowerable { MatchOption result (¬ IsLowerable graph.now) (λ _. IsLowerable graph.now) }
    ensures quotient { IfSome result (λ q. q ≡ lowered_quotient graph.now) }
{
    if graph.duplex() {
        return None;
    }
    let mut most = 0;
    for disk in 0..graph.disks() {
        most = lowered_rounds(graph, DiskId(disk))?.max(most);
    }
    Some(most)
}
