//! Mapped networks: nodes of a kind, and edges from a slot of one to an operand of another. Here stand
//! when lists of them are a network, what values its edges have, and how long its longest paths are; the
//! type `MappedNet` keeps a network with what is asked of it most. How a network comes from a net is for
//! the mapping to say, and where it stands on a grid for the layouts.
#![tactic(auto)]

mod ends;
pub mod laws;
mod lengths;
mod mapped;
mod node;

pub use mapped::{MappedNet, is_unused};
pub use node::{Edge, Node};
