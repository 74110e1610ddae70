//! A board: a multigraph whose edges get colours one by one, so that no two edges of one colour share a node.
//!
//! A board changes in three ways: an edge without a colour is painted, an edge is repainted, or the two colours of
//! the edges along a walk change places. After each of them the colouring is proper.
#![tactic(auto)]

mod boards;
mod entries;
mod places;
mod table;
mod words;

pub use boards::Board;
