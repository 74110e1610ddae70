//! A board and its three changes.
ghost use Rattle.std.specs.Prelude.{◌≡◌, ◌≢◌, ℕ, ◌*◌, ◌<◌, ◌≤◌, ◌^◌, length, vec_len, IfOk, MatchOption, MatchBool, slice_get, All, Some, None};
ghost use Rattle.mig_base.specs.declared.ids.CopyId.{CopyId};
ghost use Rattle.mig_board.specs.Colouring.{Joins, Leads, IsPresent, IsMissing, IsProper, IsFull, IsFullFrom, IsLeastMissing, IsLeastMissingFrom, HasNoCommon, IsLeastCommon, IsFreeAt, IsPainted, AreFreeWords, painted_with, cleared, blank};
ghost use Rattle.mig_board.specs.Walk.{WalksTo, Exchanges};

use crate::entries::MaybeEdge;
use crate::places::other_of;
use crate::table::Table;
use crate::words::{first_bit, first_common_bit};
use mig_base::{Colour, CopyId, EdgeId, MAX_ITEMS};
use std::alloc::{AllocError, Global};
use std::marker::Model;

/// A multigraph without loops, each of whose edges has a colour or none. No two edges of one colour share a node.
///
/// Colours are the numbers below the board's number of colours. A colour is missing at a node where no edge at the
/// node has it. Only `new` takes memory: four bytes and a bit for each node and colour.
pub struct Board {
    ends: Vec<(CopyId, CopyId)>,
    painted: Vec<Option<Colour>>,
    table: Table,
}

impl Drop for Board {
    fn drop(self) {
        let Board {
            ends: _ends,
            painted: _painted,
            table: _table,
        } = self;
    }
}

impl Model for Board {
    ghost use Rattle.mig_board.specs.Colouring.{Colouring};

    ghost Value = { Colouring };

    ghost use Rattle.mig_board.specs.BoardFields.{colouring_of, IsBoard};

    ghost view = { colouring_of };

    ghost invariant = { IsBoard };
}

impl Board {
    /// A board with these nodes, edges and colours, on which nothing is coloured.
    ///
    /// Refuses only for want of memory.
    pub fn new(
        alloc: Global,
        nodes: u32,
        ends: Vec<(CopyId, CopyId)>,
        colours: u32,
    ) -> Result<Board, AllocError>
        requires in_range { All (λ p. (p.0.0 < nodes) × (p.1.0 < nodes)) ends.items }
        requires no_loop { All (λ p. p.0 ≢ p.1) ends.items }
        requires few_edges { vec_len ends ≤ MAX_ITEMS }
        requires few_entries { nodes * colours ≤ 2 ^ 28 }
        ensures made { IfOk result (λ b. b ≡ blank nodes colours ends.items) }
    {
        let painted = vec![in alloc; None; ends.len()]?;
        let table = Table::new(alloc, nodes, colours)?;
        Ok(Board {
            ends,
            painted,
            table,
        })
    }

    /// The board keeps the rules of every board. The call does nothing; it is made where a proof needs them.
    pub fn keeps_rules(&self)
        ensures { IsProper self.now }
    {
        let _ends = &self.ends;
    }

    /// The number of nodes.
    pub fn nodes(&self) -> u32
        ensures value { result ≡ self.now.nodes }
        ensures proper { IsProper self.now }
    {
        self.table.nodes()
    }

    /// The number of colours.
    pub fn colours(&self) -> u32
        ensures value { result ≡ self.now.colours }
        ensures proper { IsProper self.now }
    {
        self.table.colours()
    }

    /// The number of edges.
    pub fn edges(&self) -> u32
        ensures value { result ≡ length self.now.ends }
        ensures proper { IsProper self.now }
    {
        self.ends.len() as u32
    }

    /// The two ends of an edge, in the order in which `new` took them.
    pub fn ends(&self, edge: EdgeId) -> (CopyId, CopyId)
        requires { edge.0 < length self.now.ends }
        ensures value { slice_get self.now.ends edge.0 ≡ Some result }
        ensures first { result.0.0 < self.now.nodes }
        ensures second { result.1.0 < self.now.nodes }
        ensures proper { IsProper self.now }
    {
        self.ends[edge.0 as usize]
    }

    /// The end of an edge that is not the node, which is its other end.
    pub fn across(&self, edge: EdgeId, node: CopyId) -> CopyId
        requires { (w : CopyId) × Joins self.now edge node w }
        ensures joins { Joins self.now edge node result }
        ensures node { result.0 < self.now.nodes }
    {
        other_of(self.ends[edge.0 as usize], node)
    }

    /// The colour of an edge. None comes exactly where the edge has no colour.
    pub fn colour_of(&self, edge: EdgeId) -> Option<Colour>
        requires { edge.0 < length self.now.ends }
        ensures { slice_get self.now.painted edge.0 ≡ Some result }
    {
        self.painted[edge.0 as usize]
    }

    /// The edge of a colour at a node. None comes exactly where the colour is missing at the node.
    pub fn edge_at(&self, node: CopyId, colour: Colour) -> Option<EdgeId>
        requires node { node.0 < self.now.nodes }
        requires colour { colour.0 < self.now.colours }
        ensures { MatchOption result
            (IsMissing self.now node colour)
            (λ e. (w : CopyId) × Leads self.now node colour e w) }
    {
        self.table.edge_at(node, colour)
    }

    /// Whether no edge at the node has the colour.
    pub fn is_missing(&self, node: CopyId, colour: Colour) -> bool
        requires node { node.0 < self.now.nodes }
        requires colour { colour.0 < self.now.colours }
        ensures { MatchBool result (IsMissing self.now node colour) (IsPresent self.now node colour) }
    {
        self.edge_at(node, colour).is_none()
    }

    /// The colours that are missing at a node, 64 to a word: bit i of word w is 1 exactly where 64 w + i is the number
    /// of one.
    pub fn free_words(&self, node: CopyId) -> &[u64]
        requires { node.0 < self.now.nodes }
        ensures { AreFreeWords self.now node result.now }
    {
        self.table.free_words(node)
    }

    /// The least colour that is missing at the node. None comes exactly where there is none.
    pub fn missing(&self, node: CopyId) -> Option<Colour>
        requires { node.0 < self.now.nodes }
        ensures { MatchOption result (IsFull self.now node) (IsLeastMissing self.now node) }
    {
        self.missing_from(node, Colour(0))
    }

    /// The least colour, from a given one on, that is missing at the node. None comes exactly where there is none.
    pub fn missing_from(&self, node: CopyId, from: Colour) -> Option<Colour>
        requires { node.0 < self.now.nodes }
        ensures { MatchOption result
            (IsFullFrom self.now node from)
            (IsLeastMissingFrom self.now node from) }
    {
        let colour = first_bit(self.table.free_words(node), from.0)?;
        Some(Colour(colour))
    }

    /// The least colour that is missing at both nodes. None comes exactly where there is none.
    pub fn common(&self, first: CopyId, second: CopyId) -> Option<Colour>
        requires first { first.0 < self.now.nodes }
        requires second { second.0 < self.now.nodes }
        ensures { MatchOption result
            (HasNoCommon self.now first second)
            (IsLeastCommon self.now first second) }
    {
        let one = self.table.free_words(first);
        let two = self.table.free_words(second);
        let colour = first_common_bit(one, two)?;
        Some(Colour(colour))
    }

    /// Gives a colour to an edge that has none. The colour has to be missing at both ends.
    pub fn paint(&mut self, edge: EdgeId, colour: Colour)
        requires plain { slice_get self.old.painted edge.0 ≡ Some None }
        requires free { IsFreeAt self.old edge colour }
        ensures painted { self.new ≡ painted_with self.old edge colour }
        ensures proper { IsProper self.new }
    {
        let (first, second) = self.ends[edge.0 as usize];
        self.painted[edge.0 as usize] = Some(colour);
        self.table.put(first, colour, MaybeEdge::of(edge));
        self.table.put(second, colour, MaybeEdge::of(edge));
    }

    /// Takes an edge's colour away.
    fn clear(&mut self, edge: EdgeId)
        requires { IsPainted self.old edge }
        ensures { self.new ≡ cleared self.old edge }
    {
        let (first, second) = self.ends[edge.0 as usize];
        if let Some(colour) = self.painted[edge.0 as usize] {
            self.painted[edge.0 as usize] = None;
            self.table.put(first, colour, MaybeEdge::none());
            self.table.put(second, colour, MaybeEdge::none());
        }
    }

    /// Gives another colour to an edge that has one. The new colour has to be missing at both ends.
    pub fn repaint(&mut self, edge: EdgeId, colour: Colour)
        requires painted { IsPainted self.old edge }
        requires free { IsFreeAt self.old edge colour }
        ensures painted { self.new ≡ painted_with self.old edge colour }
        ensures proper { IsProper self.new }
    {
        self.clear(edge);
        self.paint(edge, colour);
    }

    /// The end of the walk from a node where the colour `lacks` is missing, along edges of the colours `has` and
    /// `lacks` in turn, up to the node where the next colour is missing.
    pub fn far(&self, node: CopyId, lacks: Colour, has: Colour) -> CopyId
        requires lacks { IsMissing self.now node lacks }
        requires has { IsPresent self.now node has }
        ensures { WalksTo self.now node lacks has result }
    {
        let mut at = node;
        let mut next = has;
        let mut other = lacks;
        // A walk repeats no node, so it has fewer steps than the board has nodes.
        for _step in 0..self.table.nodes() {
            let Some(edge) = self.edge_at(at, next) else {
                return at;
            };
            at = self.across(edge, at);
            (next, other) = (other, next);
        }
        unreachable!()
    }

    /// Exchanges the two colours on the edges of the walk that `far` follows, and gives its end.
    ///
    /// At each node of the walk the two entries change places as soon as it is reached, and tell the edge that leads
    /// on. So nothing has to be kept aside.
    pub fn exchange(&mut self, node: CopyId, lacks: Colour, has: Colour) -> CopyId
        requires lacks { IsMissing self.old node lacks }
        requires has { IsPresent self.old node has }
        ensures exchanged { Exchanges self.old self.new node lacks has result }
        ensures proper { IsProper self.new }
    {
        let mut at = node;
        let mut next = has;
        let mut other = lacks;
        let mut found = self.table.swap(at, next, other);
        // A walk repeats no node, so it has fewer steps than the board has nodes.
        for _step in 0..self.table.nodes() {
            let Some(edge) = found else {
                return at;
            };
            at = other_of(self.ends[edge.0 as usize], at);
            (next, other) = (other, next);
            found = self.table.swap(at, next, other);
            self.painted[edge.0 as usize] = Some(next);
        }
        unreachable!()
    }
}
