//! The best triple.
ghost use Rattle.std.specs.Prelude.{◌≡◌, ◌+◌, ◌*◌, ◌<◌, ◌≤◌, ◌∷◌, [], length, IsTrue, ◌↔◌, false};
ghost use Rattle.mig_base.specs.InputLists.{is_duplex};
ghost use Rattle.mig_base.specs.Transfers.{inside, takes_part};
ghost use Rattle.mig_base.specs.Bounding.{limit_sum};
ghost use Rattle.mig_bounds.specs.Pairs.{IsPairTable, AreTops};
ghost use Rattle.mig_bounds.specs.Search.{IsBestSmall};

use crate::best::{BestSmall, SmallSet};
use crate::pairs::{is_too_little, pair};
use mig_base::{DiskId, MAX_ITEMS, MAX_LIMIT};
use mig_graph::Graph;

/// The first best triple, if it is better.
pub fn best_triple(graph: &Graph, pairs: &[u32], tops: &[u32], mut best: BestSmall) -> BestSmall
    requires joint { is_duplex graph.now.disks ≡ false }
    requires table { IsPairTable graph.now pairs.now }
    requires tops { AreTops graph.now tops.now }
    requires before { IsBestSmall graph.now best (1 ∷ []) }
    ensures { IsBestSmall graph.now result (2 ∷ []) }
{
    for a in 0..graph.disks() {
        best = best_pair(graph, pairs, tops, a, best);
    }
    best
}

/// The first best triple with this disk as its first, if it is better.
fn best_pair(graph: &Graph, pairs: &[u32], tops: &[u32], a: u32, mut best: BestSmall) -> BestSmall
    requires joint { is_duplex graph.now.disks ≡ false }
    requires table { IsPairTable graph.now pairs.now }
    requires tops { AreTops graph.now tops.now }
    requires there { a < length graph.now.disks }
    requires before { IsBestSmall graph.now best (1 ∷ a ∷ []) }
    ensures { IsBestSmall graph.now result (1 ∷ (a + 1) ∷ []) }
{
    for b in a + 1..graph.disks() {
        best = best_third(graph, pairs, tops, a, b, best);
    }
    best
}

/// The first best triple with these two disks as its first, if it is better: none is where too few edges join the two.
fn best_third(
    graph: &Graph,
    pairs: &[u32],
    tops: &[u32],
    a: u32,
    b: u32,
    mut best: BestSmall,
) -> BestSmall
    requires joint { is_duplex graph.now.disks ≡ false }
    requires table { IsPairTable graph.now pairs.now }
    requires tops { AreTops graph.now tops.now }
    requires order { a < b }
    requires there { b < length graph.now.disks }
    requires before { IsBestSmall graph.now best (1 ∷ a ∷ b ∷ []) }
    ensures { IsBestSmall graph.now result (1 ∷ a ∷ (b + 1) ∷ []) }
{
    if is_too_little(graph, pairs, tops, a, b, best.value) {
        return best;
    }
    for c in b + 1..graph.disks() {
        best = better_triple(graph, pairs, a, b, c, best);
    }
    best
}

/// The triple, if it is better: it isn't where no edge joins its third disk to one of the other two.
fn better_triple(graph: &Graph, pairs: &[u32], a: u32, b: u32, c: u32, best: BestSmall) -> BestSmall
    requires joint { is_duplex graph.now.disks ≡ false }
    requires table { IsPairTable graph.now pairs.now }
    requires order_ab { a < b }
    requires order_bc { b < c }
    requires there { c < length graph.now.disks }
    requires before { IsBestSmall graph.now best (1 ∷ a ∷ b ∷ c ∷ []) }
    ensures { IsBestSmall graph.now result (1 ∷ a ∷ b ∷ (c + 1) ∷ []) }
{
    if pair(graph, pairs, a, c) == 0 || pair(graph, pairs, b, c) == 0 {
        return best;
    }
    let sum = sum_of_three(graph, a, b, c);
    if sum % 2 == 0 {
        return best;
    }
    let half = sum / 2;
    let inside = inside_three(graph, pairs, a, b, c);
    if u64::from(inside) <= u64::from(best.value) * u64::from(half) {
        return best;
    }
    BestSmall {
        set: SmallSet::Triple(DiskId(a), DiskId(b), DiskId(c)),
        value: inside.div_ceil(half),
    }
}

/// The sum of three disks' limits.
fn sum_of_three(graph: &Graph, a: u32, b: u32, c: u32) -> u32
    requires joint { is_duplex graph.now.disks ≡ false }
    requires a_there { a < length graph.now.disks }
    requires b_there { b < length graph.now.disks }
    requires c_there { c < length graph.now.disks }
    ensures sum { result ≡ limit_sum graph.now (a ∷ b ∷ c ∷ []) }
    ensures least { 3 ≤ result }
    ensures most { result ≤ 3 * MAX_LIMIT }
{
    graph.limit(DiskId(a)) + graph.limit(DiskId(b)) + graph.limit(DiskId(c))
}

/// How many edges have both ends among three disks.
pub fn inside_three(graph: &Graph, pairs: &[u32], a: u32, b: u32, c: u32) -> u32
    requires table { IsPairTable graph.now pairs.now }
    requires order_ab { a < b }
    requires order_bc { b < c }
    requires there { c < length graph.now.disks }
    ensures inside { result ≡ inside (a ∷ b ∷ c ∷ []) graph.now.transfers }
    ensures most { result ≤ MAX_ITEMS }
{
    pair(graph, pairs, a, b) + pair(graph, pairs, a, c) + pair(graph, pairs, b, c)
}
