//! Colours any multigraph without loops with three halves of its greatest degree, and with few colours in practice.
//!
//! The plain steps of `steps` finish every board. Before them `colourings` colours most edges by the walks of `walks`,
//! within a palette that grows only where many of them bring nothing.
#![tactic(auto)]

mod colourings;
mod palettes;
mod steps;
mod walks;

pub use colourings::{colour_all, colour_few, colour_within};
