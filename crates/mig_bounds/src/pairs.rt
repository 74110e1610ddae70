//! How many moves join two disks.
ghost use Rattle.std.specs.Prelude.{◌≡◌, ◌+◌, ◌<◌, ◌≤◌, ◌↔◌, ℕ, length, slice_index, slice_set, IfOk, IsTrue, false};
ghost use Rattle.mig_base.specs.InputLists.{is_duplex};
ghost use Rattle.mig_graph.specs.Graphs.{IsGraph};
ghost use Rattle.mig_bounds.specs.Pairs.{between, IsPairTable, AreTops, IsTooLittle};

use mig_base::{DiskId, EdgeId, MAX_ITEMS};
use mig_graph::Graph;
use std::alloc::{AllocError, Global};

/// How many edges join each two disks: a table with a row and a column for each disk.
pub fn pairs_of(alloc: Global, graph: &Graph) -> Result<Vec<u32>, AllocError>
    ensures { IfOk result (λ pairs. IsPairTable graph.now pairs.items) }
{
    let count = graph.disks() as usize;
    let mut pairs = vec![in alloc; 0; count * count]?;
    for edge in 0..graph.edges() {
        let (a, b) = graph.ends(EdgeId(edge));
        count_one(&mut pairs, a.0 as usize * count + b.0 as usize);
        count_one(&mut pairs, b.0 as usize * count + a.0 as usize);
    }
    Ok(pairs)
}

/// One more in a cell of such a table.
fn count_one(pairs: &mut Vec<u32>, cell: usize)
    requires there { cell < length pairs.old.items }
    requires few { slice_index pairs.old.items cell ≤ MAX_ITEMS }
    ensures { pairs.new.items ≡ slice_set pairs.old.items cell (slice_index pairs.old.items cell + 1) }
{
    pairs[cell] += 1;
}

/// How many edges join two disks.
pub fn pair(graph: &Graph, pairs: &[u32], a: u32, b: u32) -> u32
    requires table { IsPairTable graph.now pairs.now }
    requires a_there { a < length graph.now.disks }
    requires b_there { b < length graph.now.disks }
    ensures count { result ≡ between a b graph.now.transfers }
    ensures most { result ≤ MAX_ITEMS }
    ensures valid { IsGraph graph.now }
{
    let count = graph.disks() as usize;
    pairs[a as usize * count + b as usize]
}

/// For each disk, the greatest number of edges that join it to another disk.
pub fn tops_of(alloc: Global, graph: &Graph, pairs: &[u32]) -> Result<Vec<u32>, AllocError>
    requires { IsPairTable graph.now pairs.now }
    ensures { IfOk result (λ tops. AreTops graph.now tops.items) }
{
    let mut tops = Vec::new(alloc);
    for a in 0..graph.disks() {
        tops.push(top_of(graph, pairs, a))?;
    }
    Ok(tops)
}

/// The greatest number of edges that join a disk to another.
fn top_of(graph: &Graph, pairs: &[u32], a: u32) -> u32
    requires table { IsPairTable graph.now pairs.now }
    requires there { a < length graph.now.disks }
    ensures above { (b : ℕ) → b < length graph.now.disks → between a b graph.now.transfers ≤ result }
    ensures most { result ≤ MAX_ITEMS }
{
    let mut top = 0;
    for b in 0..graph.disks() {
        let joined = pair(graph, pairs, a, b);
        if top < joined {
            top = joined;
        }
    }
    top
}

/// Whether two disks are joined by too few edges for a triple with them to need more than so many rounds.
pub fn is_too_little(
    graph: &Graph,
    pairs: &[u32],
    tops: &[u32],
    a: u32,
    b: u32,
    rounds: u32,
) -> bool
    requires joint { is_duplex graph.now.disks ≡ false }
    requires table { IsPairTable graph.now pairs.now }
    requires tops { AreTops graph.now tops.now }
    requires a_there { a < length graph.now.disks }
    requires b_there { b < length graph.now.disks }
    ensures little { IsTrue result ↔ IsTooLittle graph.now tops.now a b rounds }
    ensures valid { IsGraph graph.now }
{
    let joined = pair(graph, pairs, a, b);
    let most = joined + tops[a as usize] + tops[b as usize];
    let half = (graph.limit(DiskId(a)) + graph.limit(DiskId(b)) + 1) / 2;
    joined == 0 || u64::from(most) <= u64::from(rounds) * u64::from(half)
}
