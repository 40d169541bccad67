//! The variables of a formula. Each says something of a layout.

/// What a variable says.
#[derive(Clone, Copy)]
pub enum Variable {
    /// This node stands on this tile.
    NodeOn(u32, u32),
    /// This tile holds a node.
    Taken(u32),
    /// This border carries an edge.
    Used(u32),
    /// This edge is on this border.
    EdgeOn(u32, u32),
}
