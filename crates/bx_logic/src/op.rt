//! The operations of gate primitives (IEEE 1364-2005, clause 7). What an operation gives is in the
//! definitions beside the contracts; nothing here evaluates one.

/// An operation of a gate primitive. `And`, `Or` and `Xor` are n-ary, `Nand`, `Nor` and `Xnor`
/// their negations; `Buf` and `Not` have one argument.
#[derive(Clone, Copy, Debug)]
pub enum Op {
    Buf,
    Not,
    And,
    Or,
    Nand,
    Nor,
    Xor,
    Xnor,
}
