//! The sides of small graphs, and walks where there are none.

use mig_base::{DiskId, EdgeId};
use mig_csv::read_input;
use mig_graph::Graph;
use mig_sides::{SidesError, sides};
use std::alloc::Global;
use std::panic::Expect;

/// Whether an edge joins the two disks.
fn is_joined(graph: &Graph, one: DiskId, other: DiskId) -> bool {
    for edge in 0..graph.edges() {
        let (from, to) = graph.ends(EdgeId(edge));
        if (from == one && to == other) || (from == other && to == one) {
            return true;
        }
    }
    false
}

/// Whether the number of disks is odd, and an edge joins each with the next and the last with the first.
fn is_odd_walk(graph: &Graph, walk: &[DiskId]) -> bool {
    let Some(last) = walk.last() else {
        return false;
    };
    let mut from = *last;
    for disk in walk {
        if !is_joined(graph, from, *disk) {
            return false;
        }
        from = *disk;
    }
    walk.len() % 2 == 1
}

/// Three files; and for each disk `=` where it is on the side of the first one, `x` where it isn't, and `-` where it takes no part; or
/// where there are no sides, the disks that an odd walk has that shows it.
static GRAPHS: [([&[u8]; 3], &[u8], &[DiskId]); 4] = [
    // three disks, each of which gives an item to the next
    (
        [
            b"disk,limit,slots\na,1,2\nb,1,2\nc,1,2\n",
            b"item,disk,slot\nx,a,0\ny,b,0\nz,c,0\n",
            b"item,disk\nx,b\ny,c\nz,a\n",
        ],
        b"",
        &[DiskId(0), DiskId(1), DiskId(2)],
    ),
    // two triangles that share a disk, each disk of which gives an item to the next, beside a disk that takes no part: the search
    // begins at a disk from which one of them is met, and goes on
    (
        [
            b"disk,limit,slots\nidle,1,1\na,1,9\nb,1,9\nc,1,9\nd,1,9\ne,1,9\n",
            b"item,disk,slot\nv,a,0\nw,b,0\nx,c,0\ny,d,0\nz,e,0\n",
            b"item,disk\nv,b\nw,c\nx,d\ny,e\nz,c\n",
        ],
        b"",
        &[],
    ),
    // a disk that gives to three others, and one that takes no part
    (
        [
            b"disk,limit,slots\nh,4,9\np,1,3\nq,1,3\nr,1,3\ns,7,1\n",
            b"item,disk,slot\nt,h,0\nu,h,1\nv,h,2\nw,h,3\nx,h,4\ny,h,5\nz,h,6\nk,h,7\nl,h,8\n",
            b"item,disk\nt,p\nu,p\nv,p\nw,q\nx,q\ny,q\nz,r\nk,r\nl,r\n",
        ],
        b"=xxx-",
        &[],
    ),
    // a ring of four disks, in which items go both ways
    (
        [
            b"disk,limit,slots\na,1,9\nb,3,9\nc,1,9\nd,3,9\n",
            b"item,disk,slot\nw,a,0\nx,b,0\ny,c,0\nz,d,0\n",
            b"item,disk\nw,b\nx,c\ny,d\nz,a\n",
        ],
        b"=x=x",
        &[],
    ),
];

/// Whether the graph has these sides, or an odd walk with these disks.
fn is_told(alloc: Global, graph: &Graph, marks: &[u8], walked: &[DiskId]) -> bool {
    match sides(alloc, graph) {
        Ok(found) => {
            let first = found.first().copied();
            let is_so = |(side, mark): (&bool, &u8)| *mark == b'-'
                || (first == Some(*side)) == (*mark == b'=');
            found.len() == marks.len() && found.iter().zip(marks).all(is_so)
        }
        Err(SidesError::OddWalk { walk }) => {
            let disks = walk.disks();
            let met = walked.iter().all(|disk| disks.contains(disk));
            met && marks.is_empty() && is_odd_walk(graph, disks)
        }
        Err(_) => false,
    }
}

#[test]
fn graphs_have_sides_or_an_odd_walk(rt: HostRuntime) {
    for ([disks, now, next], marks, walked) in &GRAPHS {
        let read = read_input(rt.alloc(), disks, now, next);
        let input = read.expect(&rt, "an input");
        let graph = Graph::of(rt.alloc(), &input).expect(&rt, "ample memory");
        assert!(rt; is_told(rt.alloc(), &graph, marks, walked));
    }
}
