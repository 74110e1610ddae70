//! Directions of the edges of a transfer graph, so that at each disk about as many edges leave as enter.
#![tactic(auto)]

mod links;
mod orientation;
mod trails;

pub use orientation::orient;
