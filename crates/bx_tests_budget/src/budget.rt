//! Formulas that are decided with the budget that is enough for their variables, one that isn't with a budget
//! of one less, and how much a search does.
ghost use Rattle.std.specs.Prelude.{◌≡◌, ◌+◌, ◌<◌, ◌≤◌, length};

use bx_cnf::{Clauses, Lit, is_clause};
use bx_pulse::Steady;
use bx_search::{Outcome, solve, solve_counted};
use std::alloc::Global;
use std::marker::Brand;
use std::process::Abort;
use std::sync::ledger::{Blank, Ledger};
use std::test::Fail;

// The formula of clauses of these numbers, each ended by 0.
fn formula(alloc: Global, vars: u32, numbers: &[i32]) -> Result<Clauses, Fail> {
    if vars > 2_147_483_647 {
        return Err("too many variables".into());
    }
    let mut clauses = Clauses::new(alloc, vars);
    let mut literals = Vec::new(alloc);
    for number in numbers {
        match Lit::from_number(*number) {
            Some(lit) => literals.push(lit)?,
            None => {
                add(&mut clauses, &literals)?;
                literals.clear();
            }
        }
    }
    Ok(clauses)
}

// Adds a clause behind the others; an error where these literals are none.
fn add(clauses: &mut Clauses, literals: &[Lit]) -> Result<(), Fail> {
    if !is_clause(literals, clauses.vars()) || clauses.len() > 10_000 {
        return Err("no clause".into());
    }
    clauses.push(literals)?;
    Ok(())
}

// How the search of a formula ends, in words.
fn words_of(alloc: Global, clauses: &Clauses, budget: u64) -> Result<String, Fail> {
    if budget > 1_000_000 || clauses.len() > 1_000_000 {
        return Err("too much".into());
    }
    words_of_steady::<Brand>(alloc, clauses, budget, Blank::new(1))
}

// The same, where a new ledger counts how often the pulse is asked.
fn words_of_steady<L: Ledger>(
    alloc: Global,
    clauses: &Clauses,
    budget: u64,
    blank: Blank,
) -> Result<String, Fail>
    requires room { length clauses.now.clauses + budget ≤ 4294967295 }
    requires name { blank.name ≡ L.name }
    requires parts { blank.parts ≡ L.parts }
    requires some { 0 < blank.parts }
{
    let mut pulse = Steady::<L>::new(blank);
    let end = solve(alloc, clauses, budget, &mut pulse)?;
    Ok(match end {
        Outcome::Sat(_) => format!(in alloc; "sat")?,
        Outcome::Unsat(_) => format!(in alloc; "unsat")?,
        Outcome::Undecided(spent) => format!(in alloc; "undecided {spent}")?,
        Outcome::Stopped => format!(in alloc; "stopped")?,
    })
}

// A text is the one that is wanted.
fn is_text(rt: &impl Abort, found: &str, wanted: &str) {
    assert_eq!(rt; found, wanted);
}

// All clauses over two variables, and all but the last.
const SQUARE: &[i32] = &[1, 2, 0, 1, -2, 0, -1, 2, 0, -1, -2, 0];

const THREE: &[i32] = &[1, 2, 0, 1, -2, 0, -1, 2, 0];

// The empty clause.
const EMPTY: &[i32] = &[0];

// A formula, a budget, and how its search ends. Of two variables 45 is enough, and of none 1 is.
const ENDS: &[(u32, &[i32], u64, &str)] = &[
    (2, SQUARE, 45, "unsat"),
    (2, THREE, 45, "sat"),
    (0, EMPTY, 1, "unsat"),
    (0, EMPTY, 0, "undecided 0"),
];

#[test]
fn a_budget_is_enough(rt: HostRuntime) -> Result<(), Fail> {
    for &(vars, numbers, budget, wanted) in ENDS {
        let clauses = formula(rt.alloc(), vars, numbers)?;
        let found = words_of(rt.alloc(), &clauses, budget)?;
        is_text(&rt, found.as_str(), wanted);
    }
    Ok(())
}

// How much the search of a formula does, in words.
fn counts_of<L: Ledger>(
    alloc: Global,
    clauses: &Clauses,
    budget: u64,
    blank: Blank,
) -> Result<String, Fail>
    requires room { length clauses.now.clauses + budget ≤ 4294967295 }
    requires name { blank.name ≡ L.name }
    requires parts { blank.parts ≡ L.parts }
    requires some { 0 < blank.parts }
{
    let mut pulse = Steady::<L>::new(blank);
    let (_, tally) = solve_counted(alloc, clauses, budget, &mut pulse)?;
    let (conflicts, propagations) = (tally.conflicts, tally.propagations);
    Ok(format!(in alloc; "{conflicts} conflicts, {propagations} propagations")?)
}

// Variable 1 is decided to be false, which gives 2 a value and a conflict; the learned clause gives 1, and then 2.
#[test]
fn a_search_is_counted(rt: HostRuntime) -> Result<(), Fail> {
    let clauses = formula(rt.alloc(), 2, SQUARE)?;
    if clauses.len() > 100 {
        return Err("too many clauses".into());
    }
    let found = counts_of::<Brand>(rt.alloc(), &clauses, 45, Blank::new(1))?;
    is_text(&rt, found.as_str(), "2 conflicts, 3 propagations");
    Ok(())
}
