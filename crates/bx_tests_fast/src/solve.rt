//! Small formulas with each end of a fast search, and conflicts and pulses at their edges.

use crate::asserts::is_text;
use crate::pulse::Few;
use bx_cnf::{Clauses, Lit, is_clause};
use bx_fast::{FastOutcome, solve_fast};
use std::alloc::Global;
use std::test::Fail;

// The formula of so many variables whose clauses these numbers are, each ended by 0.
fn formula(alloc: Global, vars: u32, numbers: &[i32]) -> Result<Clauses, Fail> {
    let mut clauses = Clauses::new(alloc, vars.min(1000));
    let mut literals = Vec::new(alloc);
    for number in numbers {
        match Lit::from_number(*number) {
            Some(lit) => literals.push(lit)?,
            None => {
                add(&mut clauses, &literals)?;
                literals.clear();
            }
        }
    }
    Ok(clauses)
}

// Adds a clause.
fn add(clauses: &mut Clauses, literals: &[Lit]) -> Result<(), Fail> {
    if !is_clause(literals, clauses.vars()) || !clauses.has_room() {
        return Err("no clause".into());
    }
    clauses.push(literals)?;
    Ok(())
}

// How a fast search ends that a pulse lets go on so often.
fn end_of(
    alloc: Global,
    clauses: &Clauses,
    conflicts: u64,
    yes: u64,
) -> Result<&'static str, Fail> {
    let mut pulse = Few {
        asked: 0,
        yes: yes.min(1000),
        stops: 0,
    };
    let end = solve_fast(alloc, clauses, conflicts, &mut pulse)?;
    Ok(match end {
        FastOutcome::Sat(_) => "sat",
        FastOutcome::Unsat(_) => "unsat",
        FastOutcome::Unknown => "unknown",
        FastOutcome::Stopped => "stopped",
    })
}

// Three pigeons in two holes.
const PIGEONS: &[i32] = &[
    1, 2, 0, 3, 4, 0, 5, 6, 0, -1, -3, 0, -1, -5, 0, -3, -5, 0, -2, -4, 0, -2, -6, 0, -4, -6, 0,
];

// All eight clauses over three variables but the last.
const SEVEN: &[i32] = &[
    1, 2, 3, 0, 1, 2, -3, 0, 1, -2, 3, 0, 1, -2, -3, 0, -1, 2, 3, 0, -1, 2, -3, 0, -1, -2, 3, 0,
];

// All eight clauses over three variables.
const EIGHT: &[i32] = &[
    1, 2, 3, 0, 1, 2, -3, 0, 1, -2, 3, 0, 1, -2, -3, 0, -1, 2, 3, 0, -1, 2, -3, 0, -1, -2, 3, 0,
    -1, -2, -3, 0,
];

// A formula, the conflicts, how often the pulse says yes, and the end.
const ENDS: &[(u32, &[i32], u64, u64, &str)] = &[
    (0, &[], 0, 0, "sat"),
    (2, &[], 0, 0, "sat"),
    (1, &[0], 1, 0, "unsat"),
    // an empty clause is a conflict too
    (1, &[0], 0, 0, "unknown"),
    (2, &[1, 0, -2, 0], 0, 0, "sat"),
    (1, &[1, 0, -1, 0], 1, 0, "unsat"),
    (2, &[1, 0, -1, 2, 0, -2, 0], 1, 0, "unsat"),
    (3, SEVEN, 9, 9, "sat"),
    (3, EIGHT, 9, 9, "unsat"),
    (3, EIGHT, 0, 9, "unknown"),
    (3, EIGHT, 1, 9, "unknown"),
    (3, EIGHT, 9, 0, "stopped"),
    (6, PIGEONS, 99, 99, "unsat"),
    (6, PIGEONS, 99, 0, "stopped"),
];

#[test]
fn searches_end_as_they_should(rt: HostRuntime) -> Result<(), Fail> {
    for &(vars, numbers, conflicts, yes, wanted) in ENDS {
        let clauses = formula(rt.alloc(), vars, numbers)?;
        is_text(&rt, end_of(rt.alloc(), &clauses, conflicts, yes)?, wanted);
    }
    Ok(())
}
