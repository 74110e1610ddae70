//! Colours the edges of a transfer graph with as many colours as its quotient, by two sides: for split limits, and for
//! directions of edges that share out joint limits.
#![tactic(auto)]

mod colourings;

pub use colourings::{colour_duplex, colour_spread, colours_of};
