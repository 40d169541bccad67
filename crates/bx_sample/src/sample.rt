//! The text of a sample: a module with four inputs, gates in the order in which they are drawn, and
//! the last ones as outputs. Extra gates stand behind them, and reach no output.
ghost use Rattle.std.specs.Prelude.{◌≡◌, ◌<◌, ◌≤◌, ◌+◌, ◌^◌, ◌++◌, IfOk, OnOk, string_bytes};
ghost use Rattle.bx_lines.specs.Lines.{ended, text_of};
ghost use Rattle.bx_sample.specs.Samples.{head_lines, gate_lines, gate_text, assign_line, tail_lines, outputs, sample_text};

use crate::gate::{Gate, draw_gate, word_of};
use crate::generator::Generator;
use crate::signal::{INPUTS, Signal};
use bx_logic::NoMemory;
use std::alloc::Global;

/// The text of the sample of a number, with so many gates and so many extra ones: a module of
/// Verilog. It takes a time that is linear in the length of the text.
///
/// # Errors
///
/// `NoMemory` if memory is refused for the text.
pub fn sample_text(alloc: Global, number: u32, gates: u32, extra: u32) -> Result<Vec<u8>, NoMemory>
    requires number { number < 2 ^ 31 }
    requires some { 1 ≤ gates }
    requires few { gates ≤ 32 }
    requires extra { extra ≤ 10000 }
    ensures { IfOk result (λ text. text.items ≡ sample_text number gates extra) }
{
    let mut text = String::new(alloc);
    put_head(&mut text, gates)?;
    put_gates(&mut text, number, gates, extra)?;
    put_tail(&mut text, gates)?;
    Ok(text.into_bytes())
}

// The lines before the gates.
fn put_head(text: &mut String, gates: u32) -> Result<(), NoMemory>
    ensures { OnOk result
        (string_bytes text.new ≡ string_bytes text.old ++ text_of (head_lines gates)) }
{
    put_outputs(text, "module sample(i0, i1, i2, i3, ", gates, ");")?;
    text.push_str("input i0, i1, i2, i3;\n")?;
    put_outputs(text, "output ", gates, ";")?;
    Ok(())
}

// A line that lists the outputs.
fn put_outputs(text: &mut String, before: &str, gates: u32, after: &str) -> Result<(), NoMemory>
    ensures { OnOk result (string_bytes text.new ≡
        string_bytes text.old ++ ended (before.now ++ (outputs gates ++ after.now))) }
{
    let outputs = outputs(gates);
    writeln!(text, "{before}{outputs}{after}")?;
    Ok(())
}

// The outputs in the order of their numbers: one of one gate, and two of more.
fn outputs(gates: u32) -> &'static str
    ensures { result.now ≡ outputs gates }
{
    if gates == 1 { "o0" } else { "o0, o1" }
}

// A line for each gate.
fn put_gates(text: &mut String, number: u32, gates: u32, extra: u32) -> Result<(), NoMemory>
    requires { gates + extra < 2 ^ 31 }
    ensures { OnOk result (string_bytes text.new ≡
        string_bytes text.old ++ text_of (gate_lines number gates extra)) }
{
    let mut generator = Generator::new(number);
    for k in 0..gates + extra {
        let gate = draw_gate(&mut generator, INPUTS + k);
        put_gate(text, gates, k, gate)?;
    }
    Ok(())
}

// The line of the k-th gate.
fn put_gate(text: &mut String, gates: u32, k: u32, gate: Gate) -> Result<(), NoMemory>
    requires { k < 2 ^ 31 }
    ensures { OnOk result (string_bytes text.new ≡ string_bytes text.old ++ gate_text gates k gate) }
{
    let word = word_of(gate.operation);
    let own = Signal::of(gates, INPUTS + k);
    let first = Signal::of(gates, gate.first);
    write!(text, "{word} ({own}, {first}")?;
    if let Some(second) = gate.second {
        let second = Signal::of(gates, second);
        write!(text, ", {second}")?;
    }
    writeln!(text, ");")?;
    Ok(())
}

// The lines behind the gates.
fn put_tail(text: &mut String, gates: u32) -> Result<(), NoMemory>
    requires { 1 ≤ gates }
    ensures { OnOk result
        (string_bytes text.new ≡ string_bytes text.old ++ text_of (tail_lines gates)) }
{
    put_assign(text, 0, gates - 1)?;
    if gates > 1 {
        put_assign(text, 1, gates - 2)?;
    }
    writeln!(text, "endmodule")?;
    Ok(())
}

// The line of an output, which is a gate's.
fn put_assign(text: &mut String, output: u32, gate: u32) -> Result<(), NoMemory>
    ensures { OnOk result
        (string_bytes text.new ≡ string_bytes text.old ++ ended (assign_line output gate)) }
{
    writeln!(text, "assign o{output} = g{gate};")?;
    Ok(())
}
