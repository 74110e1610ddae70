//! Copies of small loads, which share nodes.

use mig_base::CopyId;
use mig_split::{Sides, share_nodes};
use std::panic::Expect;
use std::prelude::HostRuntime;

/// Three copies on each side, of 1, 1 and 2 ends and of 2, 1 and 1 ends. A node has at most 3: on both sides the
/// third copy has a node of its own.
#[test]
fn copies_share_nodes(rt: HostRuntime) {
    let [a, b, c] = [CopyId(0), CopyId(1), CopyId(2)];
    let [d, e, f] = [CopyId(3), CopyId(4), CopyId(5)];
    let ends = [(a, d), (b, d), (c, e), (c, f)];
    let sides = Sides {
        left: 3,
        nodes: 6,
        ends: ends.to_vec(rt.alloc()).expect(&rt, "ample memory"),
        homes: Vec::new(rt.alloc()),
    };
    let shared = share_nodes(rt.alloc(), &sides, 3).expect(&rt, "ample memory");
    let wanted = [(a, c), (a, c), (b, c), (b, d)];
    assert!(&rt; shared.left == 2 && shared.nodes == 4 && shared.ends.as_slice() == &wanted[..]);
}
