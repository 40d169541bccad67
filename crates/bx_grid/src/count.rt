//! Names for the refutations of a ratio by counting. A name says which inequality is meant; what
//! the inequality is, and that it leaves no layout, is for the counting itself to say.

/// Which inequality refutes a ratio. Nodes and rows are numbered from 0.
#[derive(Clone, Copy)]
pub enum CountProof {
    /// The longest path through this node has more nodes than there are rows.
    Late { node: u32 },
    /// More nodes must stand in these rows than there are tiles in them.
    Crowd { first: u32, last: u32 },
    /// More edges must cross from this row to the next than there are borders between them.
    Cut { row: u32 },
    /// More edges must pass below these two nodes than there are borders between two rows.
    Pair { one: u32, two: u32 },
}
