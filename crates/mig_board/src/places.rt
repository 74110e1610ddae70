//! Places in the table, and ends of edges.
ghost use Rattle.std.specs.Prelude.{◌≡◌, ◌⊎◌, ◌+◌, ◌*◌};

use mig_base::{Colour, CopyId};

/// The place of a node and a colour in the table: each node has a row with an entry for each colour.
pub fn place(colours: u32, node: CopyId, colour: Colour) -> usize
    ensures { result ≡ node.0 * colours + colour.0 }
{
    node.0 as usize * colours as usize + colour.0 as usize
}

/// The end of an edge that is not the node.
pub fn other_of(ends: (CopyId, CopyId), node: CopyId) -> CopyId
    requires { (ends.0 ≡ node) ⊎ (ends.1 ≡ node) }
    ensures { (ends ≡ (node, result)) ⊎ (ends ≡ (result, node)) }
{
    let (first, second) = ends;
    if first == node { second } else { first }
}
