//! Entries of the table of a board.
ghost use Rattle.std.specs.Prelude.{◌≡◌, ◌<◌, MatchBool, Some, None};
ghost use Rattle.mig_base.specs.declared.ids.EdgeId.{EdgeId};

use mig_base::EdgeId;
use std::marker::Model;

/// An edge or none, in four bytes.
#[derive(Clone, Copy)]
pub struct MaybeEdge {
    number: u32,
}

impl Model for MaybeEdge {
    ghost use Rattle.std.specs.Prelude.{Option};
    ghost use Rattle.mig_base.specs.declared.ids.EdgeId.{EdgeId};

    ghost Value = { Option EdgeId };

    ghost use Rattle.mig_board.specs.EntryFields.{entry_of, entry_number, fields_of};

    ghost view = { λ a. entry_of a.number };

    ghost inverse = { λ o. record { number = entry_number o } };

    ghost inverse_ok = { λ a h. fields_of a };
}

impl MaybeEdge {
    /// No edge.
    pub fn none() -> MaybeEdge
        ensures { result ≡ None }
    {
        MaybeEdge { number: u32::MAX }
    }

    /// The entry with this edge.
    pub fn of(edge: EdgeId) -> MaybeEdge
        requires { edge.0 < 4294967295 }
        ensures { result ≡ Some edge }
    {
        MaybeEdge { number: edge.0 }
    }

    /// The entry's edge, if it has one.
    pub fn edge(self) -> Option<EdgeId>
        ensures { result ≡ self }
    {
        if self.number == u32::MAX {
            None
        } else {
            Some(EdgeId(self.number))
        }
    }

    /// Whether it is none.
    pub fn is_none(self) -> bool
        ensures { MatchBool result (self ≡ None) ((e : EdgeId) × (self ≡ Some e)) }
    {
        self.edge().is_none()
    }
}
