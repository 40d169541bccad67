//! What a name stands for at a place in a module. A mention of a name has exactly one of these roles, and a
//! port with its direction in the header is mentioned twice. Which mentions there are, and what follows
//! from their roles, is left to others.

use bx_syntax::tree::Direction;

/// What a name stands for at one place.
#[derive(Clone, Copy)]
pub enum Role {
    /// A port of the header.
    Header,
    /// A port that is declared with this direction, in the header or behind it.
    Directed(Direction),
    /// A wire that is declared without a driver.
    Wired,
    /// What a gate or an assignment drives.
    Driven,
    /// What an expression reads.
    Read,
}
