//! Cells: the nodes of a mapped network before fan-outs, each with the cells whose values it reads.
//! How cells come from a net is for the fold to say.

use bx_forms::Kind;

/// A cell. It is known by its number, its place in a list of cells, and reads cells by theirs.
#[derive(Clone, Copy)]
pub enum Cell {
    /// The input with this port.
    Input(u32),
    /// The inversion of a cell.
    Not(usize),
    /// A gate of two operands.
    Gate(Kind, usize, usize),
}

/// The value of a net: a constant, or the value of the cell with this number.
#[derive(Clone, Copy)]
pub enum Value {
    Constant(bool),
    Signal(usize),
}

/// Where an edge ends: a node by its number, and its operand.
#[derive(Clone, Copy)]
pub struct Target {
    pub node: u32,
    pub operand: u8,
}
