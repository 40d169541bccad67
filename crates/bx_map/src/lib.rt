//! The mapping of a net to a network of tile functions: constants are folded away, unreached logic is
//! dropped, wide gates are split, fan-outs are made of fans, and all is numbered in one way. What a network
//! is, and what values its edges have, is for the crate of networks to say; where it stands on a grid, for
//! the layouts.
#![tactic(auto)]

// Public, since contracts speak of it.
pub mod cell;
mod cells;
// Public, since contracts speak of it.
pub mod consumer;
mod edges;
mod fan_outs;
mod fold;
mod keep;
pub mod laws;
mod map;
mod nodes;
mod outputs;
mod sort;
mod uses;
mod walk;

pub use bx_network::{Edge, MappedNet, Node, is_unused};
pub use map::{MapFault, map_net};
