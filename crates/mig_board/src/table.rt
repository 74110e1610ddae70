//! The table of a board: an edge or none for each node and colour, and the sets of what is free.
ghost use Rattle.std.specs.Prelude.{◌≡◌, ◌<◌, ◌+◌, ◌*◌, IfOk, Some, None, replicate, slice_get};
ghost use Rattle.std.specs.List.{swap};
ghost use Rattle.mig_board.specs.Entries.{with_entry, IsFreeSet};

use crate::entries::MaybeEdge;
use crate::places::place;
use crate::words::{full_sets, turn_bit, words_for};
use mig_base::{Colour, CopyId, EdgeId};
use std::alloc::{AllocError, Global};
use std::marker::Model;

/// For each node and colour the edge of this colour at the node, or none; and for each node the set of the colours
/// of which it has none.
///
/// A set takes a bit for each colour, in whole words. So the sets take a thirty-second of the memory of the entries,
/// and a word for each node at most besides.
#[derive(Drop)]
pub struct Table {
    nodes: u32,
    colours: u32,
    entries: Vec<MaybeEdge>,
    free: Vec<u64>,
}

impl Model for Table {
    ghost use Rattle.mig_board.specs.Entries.{Entries};

    ghost Value = { Entries };

    ghost use Rattle.mig_board.specs.TableFields.{entries_of, IsTable};

    ghost view = { entries_of };

    ghost invariant = { IsTable };
}

impl Table {
    /// A table without edges. Refuses only for want of memory.
    pub fn new(alloc: Global, nodes: u32, colours: u32) -> Result<Table, AllocError>
        ensures made { IfOk result (λ t. t ≡ record { nodes = nodes; colours = colours; entries = replicate (nodes * colours) None }) }
    {
        let entries = vec![in alloc; MaybeEdge::none(); nodes as usize * colours as usize]?;
        let free = full_sets(alloc, nodes, colours)?;
        Ok(Table {
            nodes,
            colours,
            entries,
            free,
        })
    }

    /// The number of nodes.
    pub fn nodes(&self) -> u32
        ensures { result ≡ self.now.nodes }
    {
        self.nodes
    }

    /// The number of colours.
    pub fn colours(&self) -> u32
        ensures { result ≡ self.now.colours }
    {
        self.colours
    }

    /// The edge of a colour at a node, if there is one.
    pub fn edge_at(&self, node: CopyId, colour: Colour) -> Option<EdgeId>
        requires node { node.0 < self.now.nodes }
        requires colour { colour.0 < self.now.colours }
        ensures { slice_get self.now.entries (node.0 * self.now.colours + colour.0) ≡ Some result }
    {
        self.entries[place(self.colours, node, colour)].edge()
    }

    /// The set of the colours of which a node has no edge.
    pub fn free_words(&self, node: CopyId) -> &[u64]
        requires { node.0 < self.now.nodes }
        ensures { IsFreeSet self.now node result.now }
    {
        let each = words_for(self.colours);
        let first = node.0 as usize * each;
        &self.free[first..first + each]
    }

    /// Writes the entry of a node and a colour.
    pub fn put(&mut self, node: CopyId, colour: Colour, entry: MaybeEdge)
        requires node { node.0 < self.old.nodes }
        requires colour { colour.0 < self.old.colours }
        ensures { self.new ≡ with_entry self.old node colour entry }
    {
        let here = place(self.colours, node, colour);
        let was_free = self.entries[here].is_none();
        self.entries[here] = entry;
        if entry.is_none() != was_free {
            let first = node.0 as usize * words_for(self.colours) * 64;
            turn_bit(&mut self.free, first + colour.0 as usize);
        }
    }

    /// Exchanges the entries of two colours at a node, and gives the edge that the first of them had.
    pub fn swap(&mut self, node: CopyId, one: Colour, two: Colour) -> Option<EdgeId>
        requires node { node.0 < self.old.nodes }
        requires one { one.0 < self.old.colours }
        requires two { two.0 < self.old.colours }
        ensures found { slice_get self.old.entries (node.0 * self.old.colours + one.0) ≡ Some result }
        ensures swapped { self.new ≡ record self.old { entries = swap self.old.entries (node.0 * self.old.colours + one.0) (node.0 * self.old.colours + two.0) } }
    {
        let first = self.entries[place(self.colours, node, one)];
        let second = self.entries[place(self.colours, node, two)];
        self.put(node, one, second);
        self.put(node, two, first);
        first.edge()
    }
}
