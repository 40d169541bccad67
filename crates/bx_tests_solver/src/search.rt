//! Small formulas with each end of a search, and budgets at its edges.
ghost use Rattle.std.specs.Prelude.{◌≡◌, ◌<◌, ◌≤◌, ◌+◌, false, IsTrue};

use crate::asserts::{is_number, is_text};
use crate::made::{add, formula, push_steps};
use crate::samples::{SQUARE, WIRE};
use bx_cnf::{Bits, Clauses, Lit};
use bx_pulse::Pulse;
use bx_search::{Outcome, solve};
use std::alloc::Global;
use std::test::Fail;

// A pulse that says yes so often, and then no.
#[derive(Drop)]
struct Few {
    asked: u64,
    yes: u64,
    stops: u64,
}

impl Pulse for Few {
    ghost use Rattle.std.specs.Prelude.{◌≡◌, ◌<◌, ◌≤◌};

    ghost asked = { λ p. p.asked };

    ghost stops = { λ p. p.stops };

    ghost ready = { λ p. (p.asked ≤ p.yes) × (p.yes < 1000000) × (p.stops ≡ 0) };

    ghost leads = { λ p q. Unit {0} };

    fn wanted(&mut self) -> bool {
        self.asked += 1;
        let yes = self.asked <= self.yes;
        if !yes {
            self.stops += 1;
        }
        yes
    }

    ghost leads_to_itself = { λ p. tt };

    ghost leads_on = { λ p q r a b. tt };
}

// How a search ends, as one line, and how often the pulse was asked.
fn line(alloc: Global, clauses: &Clauses, budget: u64, yes: u64) -> Result<String, Fail> {
    let (end, asked) = end_of(alloc, clauses, budget, yes)?;
    let mut text = words_of(alloc, &end)?;
    text.push_str(format!(in alloc; " asked {asked}")?.as_str())?;
    Ok(text)
}

// The same as a value.
fn end_of(alloc: Global, clauses: &Clauses, budget: u64, yes: u64) -> Result<(Outcome, u64), Fail> {
    if yes > 1000 || budget > 4_000_000_000 || u64::from(clauses.len()) > 294_967_295 {
        return Err("too much".into());
    }
    let mut pulse = Few {
        asked: 0,
        yes,
        stops: 0,
    };
    let end = solve(alloc, clauses, budget, &mut pulse)?;
    Ok((end, pulse.asked))
}

// How a search ends: the bits, or the steps with the literals and hints of each, or what was spent.
fn words_of(alloc: Global, end: &Outcome) -> Result<String, Fail> {
    let mut text = String::new(alloc);
    match end {
        Outcome::Sat(bits) => push_bits(bits, &mut text)?,
        Outcome::Unsat(steps) => {
            text.push_str("unsat")?;
            push_steps(alloc, steps, &mut text)?;
        }
        Outcome::Undecided(spent) => {
            text.push_str(format!(in alloc; "undecided {spent}")?.as_str())?;
        }
        Outcome::Stopped => text.push_str("stopped")?,
    }
    Ok(text)
}

fn push_bits(bits: &Bits, text: &mut String) -> Result<(), Fail> {
    text.push_str("sat")?;
    for bit in bits.as_slice() {
        text.push_str(if *bit { " 1" } else { " 0" })?;
    }
    Ok(())
}

// The same of a formula of these numbers.
fn line_of(
    alloc: Global,
    vars: u32,
    numbers: &[i32],
    budget: u64,
    yes: u64,
) -> Result<String, Fail> {
    let clauses = formula(alloc, vars, numbers)?;
    line(alloc, &clauses, budget, yes)
}

// All clauses over two variables but the last.
const THREE: &[i32] = &[1, 2, 0, 1, -2, 0, -1, 2, 0];

// A formula, a budget, how often the pulse says yes, and how the search ends.
const ENDS: &[(u32, &[i32], u64, u64, &str)] = &[
    (2, SQUARE, 6, 9, "unsat 1 0 1 2 0 0 5 3 4 0 asked 1"),
    (2, SQUARE, 5, 9, "undecided 3 asked 1"),
    (2, SQUARE, 2, 9, "undecided 0 asked 0"),
    (2, SQUARE, 6, 0, "stopped asked 1"),
    (2, THREE, 0, 9, "undecided 0 asked 0"),
    (2, THREE, 3, 9, "sat 1 1 asked 1"),
    (14, WIRE, 8, 9, "unsat 0 11 1 5 2 13 29 18 45 0 asked 0"),
    (14, WIRE, 7, 9, "undecided 0 asked 0"),
];

#[test]
fn a_search_ends_so(rt: HostRuntime) -> Result<(), Fail> {
    for &(vars, numbers, budget, yes, wanted) in ENDS {
        let found = line_of(rt.alloc(), vars, numbers, budget, yes)?;
        is_text(&rt, found.as_str(), wanted);
    }
    Ok(())
}

// A formula whose search learns ten steps, the last of them empty: 7 variables, 33 clauses.
const TEN: &[i32] = &[
    1, -4, -7, 0, 2, 4, 5, 0, 3, 5, -7, 0, -4, -5, -6, 0, -3, 5, -7, 0, -3, 4, -6, 0, 3, 5, 6, 0,
    1, -4, 5, 0, -1, 2, 3, 0, 2, -3, 5, 0, 1, 3, -6, 0, -4, 5, 7, 0, 2, 4, -7, 0, -1, 6, 7, 0, -1,
    2, 5, 0, 3, -6, 7, 0, -5, 6, 7, 0, 3, -4, 7, 0, -4, 5, -6, 0, -1, -6, -7, 0, 1, -3, 6, 0, -1,
    2, 4, 0, -1, -2, 3, 0, 2, 3, 5, 0, 2, -4, 6, 0, 3, 4, 7, 0, -3, 5, 6, 0, 1, 3, -6, 0, -2, -3,
    -5, 0, -2, -6, 7, 0, 3, 6, -7, 0, -2, -5, -6, 0, -2, -4, -6, 0,
];

// A budget of one less than the first steps cost in all, and then of what all of them cost.
const TEN_EDGES: &[(u64, &str)] = &[
    (4, "undecided 0 asked 0"),
    (10, "undecided 5 asked 1"),
    (18, "undecided 11 asked 2"),
    (25, "undecided 19 asked 3"),
    (30, "undecided 26 asked 4"),
    (37, "undecided 31 asked 5"),
    (45, "undecided 38 asked 6"),
    (51, "undecided 46 asked 7"),
    (56, "undecided 52 asked 8"),
    (60, "undecided 57 asked 9"),
    (
        61,
        "unsat 1 2 -7 0 1 13 0 1 3 7 0 11 7 17 0 1 2 0 34 35 10 17 4 6 0 1 -2 7 0 30 17 7 21 0 1 -3 4 0 6 21 0 \
         1 0 36 37 1 38 11 31 0 4 0 39 22 23 6 14 5 29 0 -3 -5 0 40 4 25 29 0 -3 0 40 41 5 12 0 0 39 42 9 23 0 asked 9",
    ),
];

// Each step is learned with a budget that it just reaches, and not with one less.
#[test]
fn a_budget_ends_a_search_at_the_edge_of_each_step(rt: HostRuntime) -> Result<(), Fail> {
    for &(budget, wanted) in TEN_EDGES {
        let found = line_of(rt.alloc(), 7, TEN, budget, 99)?;
        is_text(&rt, found.as_str(), wanted);
    }
    Ok(())
}

// 24 pigeons in 23 holes: variable 23 p + h says that pigeon p, from 0 on, sits in hole h, from 1 on.
fn pigeons(alloc: Global) -> Result<Clauses, Fail> {
    let mut clauses = Clauses::new(alloc, 552);
    add_pigeons(alloc, &mut clauses)?;
    add_holes(alloc, &mut clauses)?;
    Ok(clauses)
}

// Each pigeon sits in a hole.
fn add_pigeons(alloc: Global, clauses: &mut Clauses) -> Result<(), Fail> {
    let mut literals = Vec::new(alloc);
    for pigeon in 0u32..24 {
        literals.clear();
        for hole in 1u32..24 {
            literals.push(Lit::positive(23 * pigeon + hole))?;
        }
        add(clauses, &literals)?;
    }
    Ok(())
}

// No two of them sit in the same.
fn add_holes(alloc: Global, clauses: &mut Clauses) -> Result<(), Fail> {
    let mut literals = Vec::new(alloc);
    for hole in 1u32..24 {
        for one in 0u32..24 {
            for other in one + 1..24 {
                literals.clear();
                literals.push(Lit::negative(23 * one + hole))?;
                literals.push(Lit::negative(23 * other + hole))?;
                add(clauses, &literals)?;
            }
        }
    }
    Ok(())
}

#[test]
fn the_pigeons_have_6372_clauses(rt: HostRuntime) -> Result<(), Fail> {
    let clauses = pigeons(rt.alloc())?;
    is_number(&rt, u64::from(clauses.len()), 6372);
    Ok(())
}

// A search that asks only at its end isn't through within a test's time.
#[test]
fn the_pulse_is_asked_as_the_search_goes(rt: HostRuntime) -> Result<(), Fail> {
    let clauses = pigeons(rt.alloc())?;
    let found = line(rt.alloc(), &clauses, 4_000_000_000, 9)?;
    is_text(&rt, found.as_str(), "stopped asked 10");
    Ok(())
}
