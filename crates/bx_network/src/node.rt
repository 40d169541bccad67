//! Nodes and edges of a mapped network. A node is known by its place in the list of nodes, and an edge
//! by its place in the list of edges; which lists are a network is in the definitions.

use bx_forms::Kind;

/// A node: what it does, and the port that it stands for.
#[derive(Clone, Copy)]
pub struct Node {
    pub kind: Kind,
    /// The number of the input or the output, and 0 at other kinds.
    pub port: u32,
}

/// An edge from a slot of one node to an operand of another.
#[derive(Clone, Copy)]
pub struct Edge {
    pub source: u32,
    pub slot: u8,
    pub target: u32,
    pub operand: u8,
}
