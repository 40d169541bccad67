//! The gates of a sample, as they are drawn: the operation first, then the first operand, and then
//! the second one where there are two. Each operand is one of the signals before the gate.
ghost use Rattle.std.specs.Prelude.{◌≡◌, ◌<◌};
ghost use Rattle.bx_sample.specs.Gates.{word_of, gate_behind, state_behind};

use crate::generator::Generator;
use bx_logic::Op;

/// A gate: what it computes, and which signals it reads, by their numbers.
#[derive(Clone, Copy)]
pub struct Gate {
    pub operation: Op,
    pub first: u32,
    pub second: Option<u32>,
}

// The operations that are drawn, in the order of their numbers.
const OPERATIONS: [Op; 7] = [
    Op::And,
    Op::Or,
    Op::Nand,
    Op::Nor,
    Op::Xor,
    Op::Xnor,
    Op::Not,
];

/// Draws a gate that has so many signals before it.
pub(crate) fn draw_gate(generator: &mut Generator, signals: u32) -> Gate
    requires { 0 < signals }
    ensures gate { result ≡ gate_behind generator.old.state signals }
    ensures state { generator.new.state ≡ state_behind generator.old.state }
{
    let operation = OPERATIONS[generator.draw(OPERATIONS.len() as u32) as usize];
    let first = generator.draw(signals);
    let second = match operation {
        Op::Not => None,
        _ => Some(generator.draw(signals)),
    };
    Gate {
        operation,
        first,
        second,
    }
}

/// The word of Verilog for an operation.
pub(crate) fn word_of(operation: Op) -> &'static str
    ensures { result.now ≡ word_of operation }
{
    match operation {
        Op::Buf => "buf",
        Op::Not => "not",
        Op::And => "and",
        Op::Or => "or",
        Op::Nand => "nand",
        Op::Nor => "nor",
        Op::Xor => "xor",
        Op::Xnor => "xnor",
    }
}
