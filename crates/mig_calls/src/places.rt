//! The files of a store.
ghost use Rattle.mig_calls.specs.SamePlaces.{same_places};

use mig_base::Name;
use mig_keys::Exact;

/// A file of the store.
#[derive(Clone, Copy, PartialEq, Eq, Hash)]
pub enum Place {
    /// The disk of this name.
    Disk(Name),
    Journal,
}

impl Exact for Place {
    ghost same = { same_places };
}
