//! Colours a two-sided multigraph with as many colours as its greatest degree.
#![tactic(auto)]

mod sides;

pub use sides::colour_sides;
