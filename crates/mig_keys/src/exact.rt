//! Keys that `==` tells apart exactly.
ghost use Rattle.std.specs.Prelude.{◌≡◌, true};
ghost use Rattle.std.specs.Cmp.Lexicographic.{same_text};
ghost use Rattle.std.proofs.Common.{sym};
ghost use Rattle.mig_keys.specs.SameKeys.{same_cells, same_spots};

use mig_base::{Cell, Name, Spot};
use std::hash::Hash;

/// A key: keys that are equal by `==` are the same.
pub trait Exact: Eq + Hash + Drop {
    /// Equal keys are the same.
    ghost same: { (x y : Self) → Self.eq x y ≡ true → x ≡ y };
}

impl Exact for Name {
    ghost same = { λ x y is. same_text x y (sym is) };
}

impl Exact for Spot {
    ghost same = { same_spots };
}

impl Exact for Cell {
    ghost same = { same_cells };
}
