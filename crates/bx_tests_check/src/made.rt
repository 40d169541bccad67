//! Formulas and steps, made of numbers.

use bx_cnf::{Clauses, Lit, is_clause};
use bx_proof::{Steps, is_step};
use std::alloc::Global;
use std::test::Fail;

/// A step: the numbers of its literals, and its hints.
pub type StepNumbers<'a> = (&'a [i32], &'a [u32]);

/// The literals of these numbers.
fn literals(alloc: Global, numbers: &[i32]) -> Result<Vec<Lit>, Fail> {
    let mut literals = Vec::new(alloc);
    for number in numbers {
        literals.push(Lit::from_number(*number).ok_or("no literal")?)?;
    }
    Ok(literals)
}

/// The formula of this many variables and these clauses.
pub fn formula(alloc: Global, vars: u32, clauses: &[&[i32]]) -> Result<Clauses, Fail> {
    if vars > 2_147_483_647 {
        return Err("too many variables".into());
    }
    let mut formula = Clauses::new(alloc, vars);
    for numbers in clauses {
        add(alloc, &mut formula, numbers)?;
    }
    Ok(formula)
}

/// Adds the clause of these numbers behind the others; an error where they make none.
pub fn add(alloc: Global, formula: &mut Clauses, numbers: &[i32]) -> Result<(), Fail> {
    let literals = literals(alloc, numbers)?;
    if !is_clause(&literals, formula.vars()) || formula.len() > 10_000 {
        return Err("no clause".into());
    }
    formula.push(&literals)?;
    Ok(())
}

/// These steps, of which the first has this id.
pub fn steps(alloc: Global, first: u32, log: &[StepNumbers]) -> Result<Steps, Fail> {
    let mut steps = Steps::new(alloc, first);
    for (numbers, hints) in log {
        add_step(alloc, &mut steps, numbers, hints)?;
    }
    Ok(steps)
}

/// Adds the step of these numbers behind the others; an error where they make none.
pub fn add_step(
    alloc: Global,
    steps: &mut Steps,
    numbers: &[i32],
    hints: &[u32],
) -> Result<(), Fail> {
    let literals = literals(alloc, numbers)?;
    let id = u64::from(steps.first()) + u64::from(steps.len());
    if !is_step(id, &literals, hints) {
        return Err("no step".into());
    }
    steps.push(&literals, hints)?;
    Ok(())
}
