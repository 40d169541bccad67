//! Large modules: the longest chain, and gates of which each reads two of 31 signals that stand far apart, so that
//! lanes are crossed all the time. Their heights were counted by another program, from the rule alone.

use crate::asserts::is_text_in_row;
use crate::modules::{laid, net_of, network_of};
use bx_forms::FormSet;
use std::alloc::Global;
use std::test::Fail;

// So many inversions, and the sides of the grid.
const CHAINS: &[(u32, &str)] = &[(0, "1 2"), (1, "1 4"), (4094, "1 8190")];

#[test]
fn chains_are_laid_out(rt: HostRuntime) -> Result<(), Fail> {
    for (row, &(length, wanted)) in CHAINS.iter().enumerate() {
        let found = sides(rt.alloc(), chain(rt.alloc(), length)?.as_str())?;
        is_text_in_row(&rt, row, found.as_str(), wanted);
    }
    Ok(())
}

// So many gates, and the sides of the grid: the largest of them has 4,192,408 tiles, and the next is too tall.
const RINGS: &[(u32, &str)] = &[(200, "61 10456"), (1139, "61 68728"), (1140, "tall 68896")];

#[test]
fn rings_are_laid_out(rt: HostRuntime) -> Result<(), Fail> {
    for (row, &(gates, wanted)) in RINGS.iter().enumerate() {
        let found = sides(rt.alloc(), ring(rt.alloc(), gates)?.as_str())?;
        is_text_in_row(&rt, row, found.as_str(), wanted);
    }
    Ok(())
}

fn sides(alloc: Global, module: &str) -> Result<String, Fail> {
    let network = network_of(alloc, &net_of(alloc, module)?)?;
    match laid(alloc, &network, FormSet::all(), 64)? {
        Ok(quick) => {
            let ratio = quick.grid.ratio();
            Ok(format!(in alloc; "{} {}", ratio.w, ratio.h)?)
        }
        Err(fault) => Ok(fault),
    }
}

// An input, so many inversions of the one before, and the output.
fn chain(alloc: Global, length: u32) -> Result<String, Fail> {
    let mut text = String::new(alloc);
    text.push_str("module m(v0, y); input v0; output y;")?;
    for k in 0..length.min(10_000) {
        let gate = format!(in alloc; "not(v{}, v{k});", k + 1)?;
        text.push_str(gate.as_str())?;
    }
    let last = format!(in alloc; "assign y = v{length}; endmodule")?;
    text.push_str(last.as_str())?;
    Ok(text)
}

const SIGNALS: u32 = 31;

// 31 inputs, and so many gates, each of which reads two signals, one behind the other; the last 31 signals are the
// outputs.
fn ring(alloc: Global, gates: u32) -> Result<String, Fail> {
    let gates = gates.min(10_000);
    let mut text = String::new(alloc);
    text.push_str("module m(")?;
    put_names(alloc, &mut text, 0)?;
    text.push_str(", ")?;
    put_names(alloc, &mut text, gates)?;
    text.push_str("); input ")?;
    put_names(alloc, &mut text, 0)?;
    text.push_str("; output ")?;
    put_names(alloc, &mut text, gates)?;
    text.push_str(";")?;
    for k in 0..gates {
        let gate = format!(in alloc; "nand(v{}, v{k}, v{});", k + SIGNALS, k + 1)?;
        text.push_str(gate.as_str())?;
    }
    text.push_str("endmodule")?;
    Ok(text)
}

// The names of so many signals, from this one on.
fn put_names(alloc: Global, text: &mut String, first: u32) -> Result<(), Fail> {
    for k in 0..SIGNALS {
        let comma = if k == 0 { "" } else { ", " };
        let name = format!(in alloc; "{comma}v{}", u64::from(first) + u64::from(k))?;
        text.push_str(name.as_str())?;
    }
    Ok(())
}
