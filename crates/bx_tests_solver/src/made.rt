//! What tests are tried on, made of numbers, and what it is in words.

use bx_cnf::{Clauses, Lit, is_clause};
use bx_proof::{Steps, is_step};
use std::alloc::Global;
use std::test::Fail;

/// The literals of these numbers.
pub fn literals(alloc: Global, numbers: &[i32]) -> Result<Vec<Lit>, Fail> {
    let mut literals = Vec::new(alloc);
    for number in numbers {
        literals.push(Lit::from_number(*number).ok_or("no literal")?)?;
    }
    Ok(literals)
}

/// The formula of clauses of these numbers, each ended by 0.
pub fn formula(alloc: Global, vars: u32, numbers: &[i32]) -> Result<Clauses, Fail> {
    if vars > 2_147_483_647 {
        return Err("too many variables".into());
    }
    let mut clauses = Clauses::new(alloc, vars);
    let mut literals = Vec::new(alloc);
    for number in numbers {
        match Lit::from_number(*number) {
            Some(lit) => literals.push(lit)?,
            None => {
                add(&mut clauses, &literals)?;
                literals.clear();
            }
        }
    }
    Ok(clauses)
}

/// Adds a clause behind the others; an error where these literals are none.
pub fn add(clauses: &mut Clauses, literals: &[Lit]) -> Result<(), Fail> {
    if !is_clause(literals, clauses.vars()) || clauses.len() > 10_000 {
        return Err("no clause".into());
    }
    clauses.push(literals)?;
    Ok(())
}

/// The steps of these numbers, of which the first has this id: literals ended by 0, and then hints ended
/// by 0.
pub fn steps(alloc: Global, first: u32, numbers: &[i32]) -> Result<Steps, Fail> {
    let mut steps = Steps::new(alloc, first);
    let mut part = Part::new(alloc);
    for number in numbers {
        if *number == 0 {
            part.end(&mut steps)?;
        } else {
            part.take(*number)?;
        }
    }
    Ok(steps)
}

// A step as far as its numbers were read.
#[derive(Drop)]
struct Part {
    literals: Vec<Lit>,
    hints: Vec<u32>,
    // its literals are ended
    in_hints: bool,
}

impl Part {
    // Nothing of a step.
    fn new(alloc: Global) -> Self {
        Part {
            literals: Vec::new(alloc),
            hints: Vec::new(alloc),
            in_hints: false,
        }
    }

    // Takes a number that isn't 0.
    fn take(&mut self, number: i32) -> Result<(), Fail> {
        if self.in_hints {
            self.hints.push(number.unsigned_abs())?;
        } else {
            self.literals
                .push(Lit::from_number(number).ok_or("no literal")?)?;
        }
        Ok(())
    }

    // Ends the literals, or the hints and with them the step.
    fn end(&mut self, steps: &mut Steps) -> Result<(), Fail> {
        if self.in_hints {
            add_step(steps, &self.literals, &self.hints)?;
            self.literals.clear();
            self.hints.clear();
        }
        self.in_hints = !self.in_hints;
        Ok(())
    }
}

// Adds a step behind the others; an error where these make none.
fn add_step(steps: &mut Steps, literals: &[Lit], hints: &[u32]) -> Result<(), Fail> {
    let id = u64::from(steps.first()) + u64::from(steps.len());
    if !is_step(id, literals, hints) {
        return Err("no step".into());
    }
    steps.push(literals, hints)?;
    Ok(())
}

/// Puts each step behind a text: its literals, 0, its hints, and 0, each behind a space.
pub fn push_steps(alloc: Global, steps: &Steps, text: &mut String) -> Result<(), Fail> {
    for k in 0..steps.len() {
        push_literals(alloc, steps.literals(k), text)?;
        push_hints(alloc, steps.hints(k), text)?;
    }
    Ok(())
}

// Puts literals and a 0 behind a text.
fn push_literals(alloc: Global, literals: &[Lit], text: &mut String) -> Result<(), Fail> {
    for lit in literals {
        text.push_str(format!(in alloc; " {}", lit.number())?.as_str())?;
    }
    text.push_str(" 0")?;
    Ok(())
}

// Puts hints and a 0 behind a text.
fn push_hints(alloc: Global, hints: &[u32], text: &mut String) -> Result<(), Fail> {
    for hint in hints {
        text.push_str(format!(in alloc; " {hint}")?.as_str())?;
    }
    text.push_str(" 0")?;
    Ok(())
}
