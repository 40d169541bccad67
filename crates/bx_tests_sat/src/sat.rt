//! Whole runs on a desk in memory: formulas that are solved and whose proofs are then checked, proofs that
//! were written by hand or damaged, and files, words and desks that fail.

use crate::asserts::{is_said, is_so, is_status};
use bx_desk::MemDesk;
use bx_logic::NoMemory;
use bx_sat::{SatStatus, run_sat};
use std::alloc::Global;
use std::process::Abort;
use std::test::Fail;
use std::thread::Threads;

// Words as the program hands them on.
fn words(alloc: Global, line: &str) -> Result<Vec<String>, NoMemory> {
    let mut words = Vec::new(alloc);
    for word in line.split_whitespace() {
        words.push(String::from_str(alloc, word)?)?;
    }
    Ok(words)
}

// A desk with a formula, and room for a proof and for what is said.
fn desk_with(alloc: Global, formula: &str) -> Result<MemDesk, NoMemory> {
    let mut desk = MemDesk::new(alloc);
    desk.put("f.cnf", formula.as_bytes())?;
    desk.make_room("p.lrat", 1_000_000)?;
    desk.say_room(10_000)?;
    Ok(desk)
}

// The exit status of a run.
fn run<R: Threads + Sync>(
    rt: &R,
    alloc: Global,
    desk: &mut MemDesk,
    line: &str,
) -> Result<u8, Fail> {
    let words = words(alloc, line)?;
    Ok(run_sat(rt, alloc, &words, desk).code())
}

// A run ends with this status, and this is said until then; `of` is what it is tried on.
fn ends<R: Threads + Abort + Sync>(
    rt: &R,
    alloc: Global,
    of: &str,
    desk: MemDesk,
    line: &str,
    status: u8,
    said: &str,
) -> Result<(), Fail> {
    let mut desk = desk;
    is_status(rt, of, run(rt, alloc, &mut desk, line)?, status);
    is_said(rt, of, desk.said(), said);
    Ok(())
}

// Four pigeons and three holes: variable 3 p + h says that pigeon p sits in hole h.
const PIGEONS: &str =
    "c four pigeons in three holes\np cnf 12 22\n1 2 3 0 4 5 6 0\n7 8 9 0 10 11 12 0\n\
-1 -4 0 -1 -7 0 -1 -10 0 -4 -7 0 -4 -10 0 -7 -10 0\n-2 -5 0 -2 -8 0 -2 -11 0 -5 -8 0 -5 -11 0 -8 -11 0\n\
-3 -6 0 -3 -9 0 -3 -12 0 -6 -9 0 -6 -12 0 -9 -12 0\n";

// 1 and 2 differ, 2 and 3 differ, .., and 1 and 5 differ: a chain of odd parity.
const PARITY: &str =
    "p cnf 5 10\n1 2 0\n-1 -2 0\n2 3 0\n-2 -3 0\n3 4 0\n-3 -4 0\n4 5 0\n-4 -5 0\n1 5 0\n-1 -5 0\n";

// A triangle in three colours: variable 3 v + c says that corner v has colour c, corner 0 has colour 1, and
// corner 1 not colour 3.
const TRIANGLE: &str =
    "p cnf 9 14\n1 0\n-6 0\n4 5 6 0\n7 8 9 0\n-1 -2 0\n-1 -4 0\n-2 -5 0\n-3 -6 0\n-4 -7 0\n-5 -8 0\n-6 -9 0\n\
-1 -7 0\n-2 -8 0\n-3 -9 0\n";

// A triangle in two colours.
const TWO_COLOURS: &str = "p cnf 3 6\n1 2 0\n-1 -2 0\n2 3 0\n-2 -3 0\n1 3 0\n-1 -3 0\n";

// A wire from an input to an output on a grid of one column and two rows, where no output may be read from
// the left.
const WIRE: &str =
    "p cnf 14 45\n1 2 0 3 4 0 -1 -2 0 -3 -4 0 -1 -3 0 -2 -4 0 -1 5 0 -3 5 0 -2 6 0 -4 6 0\n\
-2 0 -3 0 -11 0 -13 0 -14 0 7 -11 0 -7 11 0 8 -12 0 -8 12 0 9 -13 0 -9 13 0 10 -14 0 -10 14 0\n\
1 -11 0 1 -12 0 2 12 -13 0 2 12 -14 0 4 -12 13 14 0 -1 11 12 0 -3 0 -2 13 14 0 -4 12 0 -11 -12 0\n\
-3 -11 0 -3 -12 0 -13 -14 0 -2 -12 0 -4 -13 0 -4 -14 0\n\
1 -5 -11 0 1 -5 -12 0 2 -6 -13 0 2 -6 -14 0 4 -6 -12 0 -4 -8 0\n";

// All clauses over two variables, one of them with a literal twice, and a tautology.
const SQUARE: &str = "p cnf 2 5\n2 1 0\n1 -2 1 0\n1 -1 0\n-1 2 0\n-2\n-1 0\n";

const REFUTED: &[&str] = &[PIGEONS, PARITY, TWO_COLOURS, WIRE, SQUARE];

// The proof of a formula that was found is accepted for it.
#[test]
fn what_is_refuted_is_verified(rt: HostRuntime) -> Result<(), Fail> {
    for &formula in REFUTED {
        refutes(&rt, rt.alloc(), formula, "solve f.cnf 100000 p.lrat")?;
    }
    Ok(())
}

// Likewise by the fast search.
#[test]
fn what_is_refuted_fast_is_verified(rt: HostRuntime) -> Result<(), Fail> {
    for &formula in REFUTED {
        refutes(&rt, rt.alloc(), formula, "solve f.cnf --fast 100000 p.lrat")?;
    }
    Ok(())
}

// A formula has no solution by a run of this line, and its proof is accepted.
fn refutes<R: Threads + Abort + Sync>(
    rt: &R,
    alloc: Global,
    formula: &str,
    line: &str,
) -> Result<(), Fail> {
    let mut desk = desk_with(alloc, formula)?;
    let status = run(rt, alloc, &mut desk, line)?;
    is_status(rt, formula, status, 20);
    verifies(rt, alloc, formula, desk)
}

// The proof that was written is accepted.
fn verifies<R: Threads + Abort + Sync>(
    rt: &R,
    alloc: Global,
    formula: &str,
    desk: MemDesk,
) -> Result<(), Fail> {
    let said = "s UNSATISFIABLE\ns VERIFIED\n";
    ends(rt, alloc, formula, desk, "check f.cnf p.lrat", 0, said)
}

// A formula, a budget, and the status of a run with what it says.
const SOLVED: &[(&str, &str, u8, &str)] = &[
    (
        TRIANGLE,
        "9",
        10,
        "s SATISFIABLE\nv 1 -2 -3 -4 5 -6 -7 -8 9 0\n",
    ),
    (
        "p cnf 2 3\n1 -1 0\n1 0\n-2 0\n",
        "0",
        10,
        "s SATISFIABLE\nv 1 -2 0\n",
    ),
    ("p cnf 0 0\n", "0", 10, "s SATISFIABLE\nv 0\n"),
    ("p cnf 1 1\n0\n", "99", 20, "s UNSATISFIABLE\n"),
    (PIGEONS, "5", 0, "s UNKNOWN\n"),
    (TWO_COLOURS, "18446744073709551615", 20, "s UNSATISFIABLE\n"),
    (
        "p cnf 1 1\nc a comment\n1\nx 0\n",
        "9",
        2,
        "c can't read line 4 of f.cnf\n",
    ),
];

#[test]
fn a_formula_is_solved(rt: HostRuntime) -> Result<(), Fail> {
    for &(formula, budget, status, said) in SOLVED {
        let desk = desk_with(rt.alloc(), formula)?;
        let line = format!(in rt.alloc(); "solve f.cnf {budget}")?;
        ends(&rt, rt.alloc(), formula, desk, line.as_str(), status, said)?;
    }
    Ok(())
}

// A formula, how many conflicts the fast search has, and the status of a run with what it says. Where there is
// a solution it is the only one.
const SOLVED_FAST: &[(&str, &str, u8, &str)] = &[
    (
        "p cnf 3 4\n1 2 0\n-1 2 0\n-2 3 0\n-1 -3 0\n",
        "100",
        10,
        "s SATISFIABLE\nv -1 2 3 0\n",
    ),
    (
        "p cnf 2 3\n1 -1 0\n1 0\n-2 0\n",
        "0",
        10,
        "s SATISFIABLE\nv 1 -2 0\n",
    ),
    ("p cnf 0 0\n", "0", 10, "s SATISFIABLE\nv 0\n"),
    ("p cnf 1 1\n0\n", "1", 20, "s UNSATISFIABLE\n"),
    // an empty clause is a conflict too
    ("p cnf 1 1\n0\n", "0", 0, "s UNKNOWN\n"),
    (PIGEONS, "0", 0, "s UNKNOWN\n"),
    (PIGEONS, "1", 0, "s UNKNOWN\n"),
    (TWO_COLOURS, "18446744073709551615", 20, "s UNSATISFIABLE\n"),
    (
        "p cnf 1 1\nc a comment\n1\nx 0\n",
        "9",
        2,
        "c can't read line 4 of f.cnf\n",
    ),
];

#[test]
fn a_formula_is_solved_fast(rt: HostRuntime) -> Result<(), Fail> {
    for &(formula, conflicts, status, said) in SOLVED_FAST {
        let desk = desk_with(rt.alloc(), formula)?;
        let line = format!(in rt.alloc(); "solve f.cnf --fast {conflicts}")?;
        ends(&rt, rt.alloc(), formula, desk, line.as_str(), status, said)?;
    }
    Ok(())
}

// A proof of the formula of all clauses over two variables, with a tautology: clauses 1, 2, 4 and 5 count.
// Beside it stand the status of its check and what is said.
const CHECKED: &[(&str, u8, &str)] = &[
    ("6 1 0 1 2 0\n7 0 6 4 5 0\n", 0, "s VERIFIED\n"),
    // as other tools write it: deletions, gaps in the ids, literals out of order, and what is behind
    (
        "6 d 3 0\n9 -2 1 0 2 0\n12 1 0 1 9 0\n12 d 1 9 0\n40 0 12 4 5 0\n41 7 0 99 0\n",
        0,
        "s VERIFIED\n",
    ),
    // no empty clause
    ("", 1, "s NOT VERIFIED\n"),
    ("7 1 0 1 2 0\n", 1, "s NOT VERIFIED\n"),
    // a hint is missing, is one too many, names a step to come, is negative, or there is none
    ("7 1 0 1 0\n9 0 7 4 5 0\n", 1, "s NOT VERIFIED 7\n"),
    ("7 1 0 1 2 0\n9 0 7 4 5 1 0\n", 1, "s NOT VERIFIED 9\n"),
    ("7 1 0 1 9 0\n9 0 7 4 5 0\n", 1, "s NOT VERIFIED 7\n"),
    ("7 1 0 1 2 0\n9 0 7 -4 5 0\n", 1, "s NOT VERIFIED 9\n"),
    ("7 1 0 1 2 0\n9 0 0\n", 1, "s NOT VERIFIED 9\n"),
    // a variable that the formula hasn't, a tautology, and the two variables of one, which it has
    ("7 5 0 1 2 0\n9 0 7 4 5 0\n", 1, "s NOT VERIFIED 7\n"),
    ("7 1 -1 0 1 2 0\n9 0 7 4 5 0\n", 1, "s NOT VERIFIED 7\n"),
    (
        "7 1 4 0 1 2 0\n9 1 0 1 2 0\n12 0 9 4 5 0\n",
        0,
        "s VERIFIED\n",
    ),
    // the first of two that fail
    ("7 2 0 1 0\n9 0 7 0\n", 1, "s NOT VERIFIED 7\n"),
    (
        "7 1 0 1 2 0\n9 x 0 7 4 5 0\n",
        2,
        "c can't read line 2 of p.lrat\n",
    ),
];

#[test]
fn a_proof_is_checked(rt: HostRuntime) -> Result<(), Fail> {
    for &(proof, status, said) in CHECKED {
        checks(&rt, rt.alloc(), proof, "check f.cnf p.lrat", status, said)?;
    }
    Ok(())
}

// A check of a proof of that formula ends so, by the words of this line.
fn checks<R: Threads + Abort + Sync>(
    rt: &R,
    alloc: Global,
    proof: &str,
    line: &str,
    status: u8,
    said: &str,
) -> Result<(), Fail> {
    let mut desk = desk_with(alloc, SQUARE)?;
    desk.put("p.lrat", proof.as_bytes())?;
    ends(rt, alloc, proof, desk, line, status, said)
}

// How many workers may check a proof, as words have it.
const WORKERS: &[&str] = &["1", "2", "3", "4", "16", "0016"];

// The answer is the same for any number of workers.
#[test]
fn a_proof_is_checked_by_any_number_of_workers(rt: HostRuntime) -> Result<(), Fail> {
    for &(proof, status, said) in CHECKED {
        for &workers in WORKERS {
            let line = format!(in rt.alloc(); "check f.cnf p.lrat --workers {workers}")?;
            checks(&rt, rt.alloc(), proof, line.as_str(), status, said)?;
        }
    }
    Ok(())
}

// A line of values has 78 bytes at most, and only the variables of the file are there.
#[test]
fn values_stand_on_lines(rt: HostRuntime) -> Result<(), Fail> {
    let formula = "p cnf 31 3\n-26 0\n27 0\n1 -1 0\n";
    let said = "s SATISFIABLE\n\
v -1 -2 -3 -4 -5 -6 -7 -8 -9 -10 -11 -12 -13 -14 -15 -16 -17 -18 -19 -20 -21\n\
v -22 -23 -24 -25 -26 27 -28 -29 -30 -31 0\n";
    let desk = desk_with(rt.alloc(), formula)?;
    ends(&rt, rt.alloc(), formula, desk, "solve f.cnf 0", 10, said)
}

// Words that are no command, files that aren't there, and the status of a run with each.
const FAILING: &[(&str, u8)] = &[
    ("", 6),
    ("check f.cnf", 6),
    ("check f.cnf p.lrat more", 6),
    ("check f.cnf p.lrat --workers", 6),
    ("check f.cnf p.lrat --workers 0", 6),
    ("check f.cnf p.lrat --workers 17", 6),
    ("check f.cnf p.lrat --workers +4", 6),
    ("check f.cnf p.lrat --workers four", 6),
    ("check f.cnf p.lrat --workers 18446744073709551616", 6),
    ("check f.cnf p.lrat --workers 4 4", 6),
    ("check f.cnf p.lrat --workers=4", 6),
    ("check f.cnf p.lrat --worker 4", 6),
    ("check f.cnf p.lrat workers 4", 6),
    ("check --workers 4 f.cnf p.lrat", 6),
    ("check f.cnf --workers 4", 6),
    ("solve f.cnf 10 p.lrat --workers 4", 6),
    ("solve f.cnf", 6),
    ("solve f.cnf ten", 6),
    ("solve f.cnf +10", 6),
    ("solve f.cnf 18446744073709551616", 6),
    ("prove f.cnf 10", 6),
    ("solve f.cnf 10 f.cnf", 6),
    ("solve f.cnf --fast", 6),
    ("solve f.cnf --fast ten", 6),
    ("solve f.cnf --fast +10", 6),
    ("solve f.cnf --fast 18446744073709551616", 6),
    ("solve f.cnf --fast p.lrat 10", 6),
    ("solve f.cnf --fast=10", 6),
    ("solve f.cnf --Fast 10", 6),
    ("solve f.cnf fast 10", 6),
    ("solve --fast f.cnf 10", 6),
    ("solve f.cnf 10 --fast 10", 6),
    ("solve f.cnf --fast 10 f.cnf", 6),
    ("solve f.cnf --fast 10 p.lrat more", 6),
    ("check f.cnf --fast 10", 6),
    ("check f.cnf --fast 10 p.lrat", 6),
    ("solve none.cnf 10", 4),
    ("solve none.cnf --fast 10", 4),
    ("check f.cnf none.lrat", 4),
    ("check f.cnf none.lrat --workers 4", 4),
    ("solve f.cnf 1000 none/p.lrat", 4),
    ("solve f.cnf --fast 1000 none/p.lrat", 4),
];

// Words that are no command say what the words are.
#[test]
fn the_usage_is_said(rt: HostRuntime) -> Result<(), Fail> {
    let said = "the words are check FORMULA PROOF [--workers N], solve FORMULA BUDGET [PROOF] or \
solve FORMULA --fast CONFLICTS [PROOF]\n";
    let desk = desk_with(rt.alloc(), SQUARE)?;
    ends(&rt, rt.alloc(), "usage", desk, "prove f.cnf", 6, said)
}

// Where a file fails nothing is said.
#[test]
fn what_goes_wrong_has_its_status(rt: HostRuntime) -> Result<(), Fail> {
    for &(line, status) in FAILING {
        let mut desk = desk_with(rt.alloc(), TWO_COLOURS)?;
        is_status(&rt, line, run(&rt, rt.alloc(), &mut desk, line)?, status);
        is_so(&rt, line, desk.said().is_empty(), status == 4);
    }
    Ok(())
}

// The calls of the desk, one of which fails.
const CALLS: &[u64] = &[1, 2, 3, 4];

#[test]
fn a_desk_that_fails_has_its_status(rt: HostRuntime) -> Result<(), Fail> {
    for &call in CALLS {
        let mut desk = desk_with(rt.alloc(), TWO_COLOURS)?;
        desk.fail_at(call, 3)?;
        let status = run(&rt, rt.alloc(), &mut desk, "solve f.cnf 1000 p.lrat")?;
        is_status(&rt, "a desk that fails", status, 4);
    }
    Ok(())
}

#[test]
fn want_of_memory_has_its_status(rt: HostRuntime) {
    is_status(&rt, "no memory", SatStatus::NoMemory.code(), 5);
}
