//! What is known of ratios in order, as a line: why each in turn has no layout, and what is known of the first that
//! isn't refuted.

use bx_cnf::{Bits, Lit};
use bx_grid::CountProof;
use bx_logic::NoMemory;
use bx_proof::{Refutation, Steps};
use bx_verdict::Last;
use std::alloc::Global;

pub(crate) fn line_of(
    alloc: Global,
    refutations: &[Refutation],
    last: &Last,
) -> Result<String, NoMemory> {
    let mut text = String::new(alloc);
    for proof in refutations {
        text.push_str(line_of_proof(alloc, proof)?.as_str())?;
        text.push_str(", ")?;
    }
    text.push_str(line_of_last(alloc, last)?.as_str())?;
    Ok(text)
}

// A count, or steps: the number of the first, and then the literals and the hints of each.
fn line_of_proof(alloc: Global, proof: &Refutation) -> Result<String, NoMemory> {
    match proof {
        Refutation::Count(count) => line_of_count(alloc, *count),
        Refutation::Clauses(steps) => line_of_steps(alloc, steps),
    }
}

fn line_of_count(alloc: Global, count: CountProof) -> Result<String, NoMemory> {
    match count {
        CountProof::Late { node } => Ok(format!(in alloc; "late {node}")?),
        CountProof::Crowd { first, last } => Ok(format!(in alloc; "crowd {first} {last}")?),
        CountProof::Cut { row } => Ok(format!(in alloc; "cut {row}")?),
        CountProof::Pair { one, two } => Ok(format!(in alloc; "pair {one} {two}")?),
    }
}

fn line_of_steps(alloc: Global, steps: &Steps) -> Result<String, NoMemory> {
    let mut text = format!(in alloc; "{}", steps.first())?;
    for k in 0..steps.len() {
        push_step(alloc, steps.literals(k), steps.hints(k), &mut text)?;
    }
    Ok(text)
}

fn push_step(
    alloc: Global,
    literals: &[Lit],
    hints: &[u32],
    text: &mut String,
) -> Result<(), NoMemory> {
    for lit in literals {
        text.push_str(format!(in alloc; " {}", lit.number())?.as_str())?;
    }
    text.push_str(" 0")?;
    for hint in hints {
        text.push_str(format!(in alloc; " {hint}")?.as_str())?;
    }
    text.push_str(" 0")?;
    Ok(())
}

fn line_of_last(alloc: Global, last: &Last) -> Result<String, NoMemory> {
    match last {
        Last::Found(bits) => line_of_bits(alloc, bits),
        Last::Undecided(spent) => Ok(format!(in alloc; "undecided {spent}")?),
        Last::NoneWithin => Ok(format!(in alloc; "none")?),
    }
}

// The variables that are true.
fn line_of_bits(alloc: Global, bits: &Bits) -> Result<String, NoMemory> {
    let mut text = format!(in alloc; "found")?;
    for (k, bit) in bits.as_slice().iter().enumerate() {
        if *bit {
            text.push_str(format!(in alloc; " {}", k + 1)?.as_str())?;
        }
    }
    Ok(text)
}
