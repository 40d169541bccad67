//! Texts as solvers, checkers and collections of instances write them, and what is read of them.

use crate::asserts::{is_found, is_text};
use bx_cnf::{Clauses, Lit};
use bx_dimacs::{LratProof, TextFault, read_formula, read_proof};
use std::alloc::Global;
use std::test::Fail;

// ---- Formulas

// A text, and what is read of it: the variables that it declares, all of them, and the clauses.
const FORMULAS: &[(&str, &str)] = &[
    ("p cnf 0 0\n", "0 of 0:"),
    ("p cnf 1 1\n0\n", "1 of 1: 0"),
    (
        "c a comment\n\nc\np cnf 3 2\n1 -3 0\n2\n3 -1 0\n",
        "3 of 3: 1 -3 0 -1 2 3 0",
    ),
    ("p cnf 3 3\r\n1 0 -2 0\t3 0\r\n", "3 of 3: 1 0 -2 0 3 0"),
    ("  p  cnf\t2 1 \n  -2 1 0", "2 of 2: 1 -2 0"),
    ("p cnf 2 1\n2 -1 2 -1 0\n", "2 of 2: -1 2 0"),
    (
        "p cnf 2 2\nc between\n1\nc within\n2 0\n-2 0\nc behind\n",
        "2 of 2: 1 2 0 -2 0",
    ),
    // collections end so
    ("p cnf 1 1\n1 0\n%\n0\n\n", "1 of 1: 1 0"),
    // tautologies
    ("p cnf 2 3\n1 0\n2 -1 1 0\n-2 0\n", "2 of 4: 1 0 3 4 0 -2 0"),
    ("p cnf 1 2\n1 -1 1 0\n-1 1 0\n", "1 of 5: 2 3 0 4 5 0"),
    (
        "p cnf 2147483645 1\n1 -1 0\n",
        "2147483645 of 2147483647: 2147483646 2147483647 0",
    ),
    ("p cnf 02 1\n-01 0\n", "2 of 2: -1 0"),
];

// A text, and the first line of it that can't be read.
const NO_FORMULAS: &[(&str, u64)] = &[
    ("", 1),
    ("c no header\n", 2),
    ("1 0\np cnf 1 1\n", 1),
    ("p cnf 1\n", 1),
    ("p cnf 1 1 1\n1 0\n", 1),
    ("p dnf 1 1\n1 0\n", 1),
    ("p cnf -1 1\n1 0\n", 1),
    ("p cnf 2147483648 0\n", 1),
    ("p cnf 1 4294967296\n", 1),
    ("p cnf 1 1\np cnf 1 1\n1 0\n", 2),
    // words that are no literals of the formula
    ("p cnf 1 1\n2 0\n", 2),
    ("p cnf 1 1\n1 x 0\n", 2),
    ("p cnf 1 1\n+1 0\n", 2),
    ("p cnf 1 1\n1 -0\n", 2),
    ("p cnf 1 1\n-\n0\n", 2),
    ("p cnf 1 1\n99999999999999999999 0\n", 2),
    ("p cnf 2147483647 1\n2147483648 0\n", 2),
    // too many and too few clauses
    ("p cnf 1 1\n1 0\n-1 0\n", 3),
    ("p cnf 1 1\n1 0 -1\n", 2),
    ("p cnf 1 2\n1 0\n", 3),
    ("p cnf 1 2\n1 0", 3),
    ("p cnf 1 1\n1\n", 3),
    ("p cnf 1 2\n1 0\n%\n1 0\n", 3),
    // no variables are left for a tautology
    ("p cnf 2147483646 1\n1 -1 0\n", 2),
];

#[test]
fn formulas_are_read(rt: HostRuntime) -> Result<(), Fail> {
    for &(text, wanted) in FORMULAS {
        let found = formula_text(rt.alloc(), text)?;
        is_text(&rt, text, found.as_str(), wanted);
    }
    Ok(())
}

#[test]
fn the_first_bad_line_of_a_formula_is_told(rt: HostRuntime) {
    for &(text, line) in NO_FORMULAS {
        is_found(&rt, text, bad_formula_line(rt.alloc(), text), Some(line));
    }
}

// The bad line of a text that is told, and none where a formula is read or memory is refused.
fn bad_formula_line(alloc: Global, text: &str) -> Option<u64> {
    match read_formula(alloc, text.as_bytes()) {
        Err(TextFault::BadLine(line)) => Some(line),
        Ok(_) | Err(TextFault::NoMemory) => None,
    }
}

// What is read of a formula, in one line.
fn formula_text(alloc: Global, text: &str) -> Result<String, Fail> {
    let read = read_formula(alloc, text.as_bytes())?;
    let mut line = format!(in alloc; "{} of {}:", read.vars, read.clauses.vars())?;
    push_clauses(alloc, &read.clauses, &mut line)?;
    Ok(line)
}

fn push_clauses(alloc: Global, clauses: &Clauses, text: &mut String) -> Result<(), Fail> {
    for k in 0..clauses.len() {
        push_literals(alloc, clauses.clause(k + 1), text)?;
    }
    Ok(())
}

fn push_literals(alloc: Global, literals: &[Lit], text: &mut String) -> Result<(), Fail> {
    for literal in literals {
        let word = format!(in alloc; " {}", literal.number())?;
        text.push_str(word.as_str())?;
    }
    text.push_str(" 0")?;
    Ok(())
}

// ---- Proofs, for a formula of 3 variables and 4 clauses

// A text, and the steps that are read of it, each behind the file's id.
const PROOFS: &[(&str, &str)] = &[
    ("", ""),
    ("5 1 0 1 2 0\n6 0 5 3 0\n", "[5] 1 0 1 2 0 [6] 0 5 3 0"),
    // as other tools write them: gaps, deletions, comments, any order, twice
    (
        "c a proof\n4 d 1 2 0\n7  2 -1\t2 0 3 1 0\r\n\n7 d 3 0\n12 0 7 4 0\n",
        "[7] -1 2 0 3 1 0 [12] 0 5 4 0",
    ),
    (
        "10 3 0 1 0\n20 2 0 10 0\n9000000000 1 0 20 10 0\n9000000001 0 9000000000 4 20 0",
        "[10] 3 0 1 0 [20] 2 0 5 0 [9000000000] 1 0 6 5 0 [9000000001] 0 7 4 6 0",
    ),
    // nothing is looked at behind the first empty clause, or a step that can't pass
    ("5 0 1 0\n6 0 5 0\n", "[5] 0 1 0"),
    ("5 0 1 0\nno line of a proof\n", "[5] 0 1 0"),
    ("5 1 0 0\nno line of a proof\n", "ill [5]"),
    // of a deletion only its front is looked at, and its number needn't ascend
    (
        "9 1 0 1 0\n3 d x\n0 d\n10 0 9 0\n",
        "[9] 1 0 1 0 [10] 0 5 0",
    ),
    ("18446744073709551615 d\n5 0 1 0\n", "[5] 0 1 0"),
    // numbers of 63 bits, and an id of 64
    (
        "18446744073709551615 9223372036854775807 0 1 0\n",
        "ill [18446744073709551615]",
    ),
    ("5 1 0 9223372036854775807 0\n", "ill [5]"),
    // no hint, a negative one, and ones that name no clause before
    ("5 0 0\n", "ill [5]"),
    ("5 1 0 1 -2 3 0\n", "ill [5]"),
    ("5 1 0 5 0\n", "ill [5]"),
    ("7 1 0 1 0\n9 0 8 0\n", "[7] 1 0 1 0 ill [9]"),
    ("7 1 0 1 0\n9 0 5 0\n", "[7] 1 0 1 0 ill [9]"),
    ("7 1 0 1 0\n9 0 7 11 0\n11 2 0 9 0\n", "[7] 1 0 1 0 ill [9]"),
    // no clause over the variables
    ("5 4 0 1 0\n", "ill [5]"),
    ("5 3000000000 0 1 0\n", "ill [5]"),
    ("5 1 -1 0 1 0\n", "ill [5]"),
    ("5 1 -1 1 0 1 0\n", "ill [5]"),
];

// A text, and the first line of it that can't be read.
const NO_PROOFS: &[(&str, u64)] = &[
    ("no line of a proof\n", 1),
    ("5\n", 1),
    ("5 1 0\n", 1),
    ("5 1 0 1\n", 1),
    ("5 1 0 1\n0\n", 1),
    ("5 1 0 1 0 0\n", 1),
    ("5 1 x 0 1 0\n", 1),
    ("5 1 0 x 0\n", 1),
    ("5 1 -0 1 0\n", 1),
    ("-5 1 0 1 0\n", 1),
    ("99999999999999999999 1 0 1 0\n", 1),
    ("18446744073709551616 d 1 0\n", 1),
    ("5 9223372036854775808 0 1 0\n", 1),
    ("5 1 0 -9223372036854775808 0\n", 1),
    ("x d 1 0\n", 1),
    ("d 1 0\n", 1),
    // a step without its 0, over two lines, and with a word too many behind an empty clause
    ("5 1 0 1 0\n6 2\n0 1 0\n", 2),
    ("5 1 0 1 0\n\n6 0 5 0 c\n", 3),
    // ids that don't ascend, from above those of the formula
    ("4 1 0 1 0\n", 1),
    ("6 1 0 1 0\n6 2 0 1 0\n", 2),
    ("c\n6 1 0 1 0\n6 d 1 0\n5 2 0 1 0\n", 4),
    ("p cnf 3 4\n", 1),
];

#[test]
fn proofs_are_read(rt: HostRuntime) -> Result<(), Fail> {
    for &(text, wanted) in PROOFS {
        let found = proof_text(rt.alloc(), text)?;
        is_text(&rt, text, found.as_str().trim_ascii(), wanted);
    }
    Ok(())
}

#[test]
fn the_first_bad_line_of_a_proof_is_told(rt: HostRuntime) -> Result<(), Fail> {
    for &(text, line) in NO_PROOFS {
        is_found(&rt, text, bad_proof_line(rt.alloc(), text)?, Some(line));
    }
    Ok(())
}

fn four_clauses(alloc: Global) -> Result<Clauses, Fail> {
    let read = read_formula(alloc, b"p cnf 3 4\n1 2 0\n-1 3 0\n-2 0\n-3 0\n")?;
    Ok(read.clauses)
}

// The bad line of a text that is told, and none where a proof is read or memory is refused.
fn bad_proof_line(alloc: Global, text: &str) -> Result<Option<u64>, Fail> {
    let clauses = four_clauses(alloc)?;
    Ok(match read_proof(alloc, &clauses, text.as_bytes()) {
        Err(TextFault::BadLine(line)) => Some(line),
        Ok(_) | Err(TextFault::NoMemory) => None,
    })
}

// What is read of a proof, in one line.
fn proof_text(alloc: Global, text: &str) -> Result<String, Fail> {
    let clauses = four_clauses(alloc)?;
    let read = read_proof(alloc, &clauses, text.as_bytes())?;
    let mut line = String::new(alloc);
    push_proof(alloc, &read, &mut line)?;
    Ok(line)
}

fn push_proof(alloc: Global, read: &LratProof, text: &mut String) -> Result<(), Fail> {
    for k in 0..read.steps.len() {
        let id = read.ids.get(k as usize).ok_or("an id")?;
        push_id(alloc, "", *id, text)?;
        push_literals(alloc, read.steps.literals(k), text)?;
        push_hints(alloc, read.steps.hints(k), text)?;
    }
    if let Some(id) = read.ill {
        push_id(alloc, " ill", id, text)?;
    }
    Ok(())
}

fn push_id(alloc: Global, front: &str, id: u64, text: &mut String) -> Result<(), Fail> {
    let word = format!(in alloc; "{front} [{id}]")?;
    text.push_str(word.as_str())?;
    Ok(())
}

fn push_hints(alloc: Global, hints: &[u32], text: &mut String) -> Result<(), Fail> {
    for hint in hints {
        let word = format!(in alloc; " {hint}")?;
        text.push_str(word.as_str())?;
    }
    text.push_str(" 0")?;
    Ok(())
}

// ---- Faults

// A fault, and what is said of it.
const FAULTS: &[(TextFault, &str)] = &[
    (TextFault::BadLine(3), "line 3 can't be read"),
    (TextFault::NoMemory, "out of memory"),
];

#[test]
fn faults_are_said(rt: HostRuntime) -> Result<(), Fail> {
    for &(fault, wanted) in FAULTS {
        let said = format!(in rt.alloc(); "{fault}")?;
        is_text(&rt, "a fault", said.as_str(), wanted);
    }
    Ok(())
}
