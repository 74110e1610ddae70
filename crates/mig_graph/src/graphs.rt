//! The transfer graph and what is counted of it.
ghost use Rattle.std.specs.Prelude.{◌≡◌, ◌≢◌, ◌<◌, ◌≤◌, ◌↔◌, IsTrue, IfOk, true, false, length, slice_index};
ghost use Rattle.mig_base.specs.declared.certs.Side.TheVariants.{Outgoing, Incoming};
ghost use Rattle.mig_base.specs.InputLists.{disk_at, is_duplex, is_split};
ghost use Rattle.mig_base.specs.Transfers.{load, side_load, side_limit, transfer_graph};
ghost use Rattle.mig_base.specs.Bounding.{quotient, limit, IsEven};

use crate::edges::{Edge, edges_of};
use crate::loads::{even_of, loads_of, quotient_of};
use mig_base::{Disk, DiskId, EdgeId, Input, ItemId, Limits, MAX_ITEMS, MAX_LIMIT, Side};
use std::alloc::{AllocError, Global};
use std::marker::Model;

/// The transfer multigraph: a node for each disk and an edge for each item that is to go to another disk.
///
/// Two disks may be joined by several edges, and no edge joins a disk to itself. Loads, quotient and evenness are
/// counted once, when the graph is made.
pub struct Graph {
    disks: Vec<Disk>,
    edges: Vec<Edge>,
    outgoing: Vec<u32>,
    incoming: Vec<u32>,
    quotient: u32,
    duplex: bool,
    even: bool,
}

impl Drop for Graph {
    fn drop(self) {
        let Graph {
            disks: _disks,
            edges: _edges,
            outgoing: _outgoing,
            incoming: _incoming,
            quotient: _,
            duplex: _,
            even: _,
        } = self;
    }
}

impl Model for Graph {
    ghost use Rattle.mig_base.specs.Transfers.{Transfers};

    ghost Value = { Transfers };

    ghost use Rattle.mig_graph.specs.Kept.{transfers_of, IsCounted};

    ghost view = { transfers_of };

    ghost invariant = { IsCounted };
}

impl Graph {
    ghost use Rattle.mig_graph.specs.Graphs.{IsGraph};
    ghost use Rattle.mig_graph.specs.Ends.{IsEdge};

    /// The transfer graph of an input: an edge for each item that is to go to another disk, in item order.
    ///
    /// Takes time linear in the disks and items. Errs for want of memory only.
    pub fn of(alloc: Global, input: &Input) -> Result<Graph, AllocError>
        ensures { IfOk result (λ g. g ≡ transfer_graph input.now) }
    {
        let edges = edges_of(alloc, input)?;
        let disks = Vec::from_slice(alloc, input.disks())?;
        let outgoing = loads_of(alloc, disks.len(), &edges, Side::Outgoing)?;
        let incoming = loads_of(alloc, disks.len(), &edges, Side::Incoming)?;
        let quotient = quotient_of(&disks, &outgoing, &incoming);
        let even = even_of(&disks, &outgoing, &incoming);
        Ok(Graph {
            disks,
            edges,
            outgoing,
            incoming,
            quotient,
            duplex: input.duplex(),
            even,
        })
    }

    /// The graph keeps the rules of every transfer graph. The call does nothing; it is made where a proof needs them.
    pub fn keeps_rules(&self)
        ensures { IsGraph self.now }
    {
        let _edges = self.edges();
    }

    /// How many edges there are.
    pub fn edges(&self) -> u32
        ensures edges { result ≡ length self.now.transfers }
        ensures valid { IsGraph self.now }
    {
        self.edges.len() as u32
    }

    /// How many disks there are.
    pub fn disks(&self) -> u32
        ensures disks { result ≡ length self.now.disks }
        ensures valid { IsGraph self.now }
    {
        self.disks.len() as u32
    }

    /// Whether there is a disk and its limits are split. All disks have limits of one kind.
    pub fn duplex(&self) -> bool
        ensures { result ≡ is_duplex self.now.disks }
    {
        self.duplex
    }

    /// How many transfers may touch the disk in one round: its joint limit.
    pub fn limit(&self, disk: DiskId) -> u32
        requires there { disk.0 < length self.now.disks }
        requires joint { is_duplex self.now.disks ≡ false }
        ensures limit { result ≡ limit self.now disk.0 }
        ensures joint { is_split (disk_at self.now.disks disk.0).limits ≡ false }
        ensures least { 1 ≤ result }
        ensures most { result ≤ MAX_LIMIT }
    {
        self.disks[disk.0 as usize].limits.most_ends()
    }

    /// How many transfers may leave the disk in one round, by its split limits.
    pub fn out_limit(&self, disk: DiskId) -> u32
        requires there { disk.0 < length self.now.disks }
        requires split { is_duplex self.now.disks ≡ true }
        ensures limit { result ≡ side_limit Outgoing (disk_at self.now.disks disk.0).limits }
        ensures split { is_split (disk_at self.now.disks disk.0).limits ≡ true }
        ensures least { 1 ≤ result }
        ensures most { result ≤ MAX_LIMIT }
    {
        match self.disks[disk.0 as usize].limits {
            Limits::Split { outgoing, .. } => outgoing,
            Limits::Joint { .. } => unreachable!(),
        }
    }

    /// How many transfers may reach the disk in one round, by its split limits.
    pub fn in_limit(&self, disk: DiskId) -> u32
        requires there { disk.0 < length self.now.disks }
        requires split { is_duplex self.now.disks ≡ true }
        ensures limit { result ≡ side_limit Incoming (disk_at self.now.disks disk.0).limits }
        ensures split { is_split (disk_at self.now.disks disk.0).limits ≡ true }
        ensures least { 1 ≤ result }
        ensures most { result ≤ MAX_LIMIT }
    {
        match self.disks[disk.0 as usize].limits {
            Limits::Split { incoming, .. } => incoming,
            Limits::Joint { .. } => unreachable!(),
        }
    }

    /// The item that the edge moves.
    pub fn item(&self, edge: EdgeId) -> ItemId
        requires { edge.0 < length self.now.transfers }
        ensures { result.0 ≡ slice_index self.now.items edge.0 }
    {
        self.edges[edge.0 as usize].item
    }

    /// The disk that the edge leaves, and the disk that it reaches: two different ones.
    pub fn ends(&self, edge: EdgeId) -> (DiskId, DiskId)
        requires { edge.0 < length self.now.transfers }
        ensures ends { IsEdge self.now.transfers edge.0 result.0.0 result.1.0 }
        ensures apart { result.0.0 ≢ result.1.0 }
    {
        let e = self.edges[edge.0 as usize];
        (e.from, e.to)
    }

    /// How many edges have the disk as an end.
    pub fn load(&self, disk: DiskId) -> u32
        requires { disk.0 < length self.now.disks }
        ensures load { result ≡ load disk.0 self.now.transfers }
        ensures most { result ≤ MAX_ITEMS }
    {
        self.outgoing[disk.0 as usize] + self.incoming[disk.0 as usize]
    }

    /// How many edges leave the disk.
    pub fn out_load(&self, disk: DiskId) -> u32
        requires { disk.0 < length self.now.disks }
        ensures load { result ≡ side_load Outgoing disk.0 self.now.transfers }
        ensures most { result ≤ MAX_ITEMS }
    {
        self.outgoing[disk.0 as usize]
    }

    /// How many edges reach the disk.
    pub fn in_load(&self, disk: DiskId) -> u32
        requires { disk.0 < length self.now.disks }
        ensures load { result ≡ side_load Incoming disk.0 self.now.transfers }
        ensures most { result ≤ MAX_ITEMS }
    {
        self.incoming[disk.0 as usize]
    }

    /// The greatest number of rounds that a disk needs for its own edges, 0 without edges.
    pub fn quotient(&self) -> u32
        ensures { result ≡ quotient self.now }
    {
        self.quotient
    }

    /// Whether limits are joint and each disk with an edge has an even one.
    pub fn all_even(&self) -> bool
        ensures { IsTrue result ↔ IsEven self.now }
    {
        self.even
    }
}
