//! The active clauses of formulas while literals are assigned and freed. The clauses of the wire have the
//! numbers that a solver's log names.

use crate::made::formula;
use crate::samples::WIRE;
use crate::trial::Trial;
use bx_watch::Active;
use std::alloc::Global;
use std::process::Abort;
use std::test::Fail;

// What is done with clauses under a trail.
#[derive(Clone, Copy)]
enum Event {
    // Nothing as yet.
    Start,
    // The literal of this number is assigned.
    Assigned(i32),
    // The variable that was assigned last is freed.
    Freed,
    // The clause of these numbers is added.
    Added(&'static [i32]),
}

// An active clause as two numbers: its own, and that of the literal that it leaves, or 0 where it is false.
fn numbers_of(active: Active) -> (u32, i32) {
    match active {
        Active::Unit(id, lit) => (id, lit.number()),
        Active::False(id) => (id, 0),
    }
}

// The same, and 0 and 0 where no clause is active.
fn numbers_found(active: Option<Active>) -> (u32, i32) {
    match active {
        Some(active) => numbers_of(active),
        None => (0, 0),
    }
}

// A clause is active, with these numbers.
fn is_active(rt: &impl Abort, found: Option<Active>, wanted: (u32, i32)) {
    let (id, left) = numbers_found(found);
    assert_eq!(rt; id, wanted.0, "{wanted:?}");
    assert_eq!(rt; left, wanted.1, "{wanted:?}");
}

// Does what an event says.
fn after<'a>(alloc: Global, trial: Trial<'a>, event: Event) -> Result<Trial<'a>, Fail> {
    match event {
        Event::Start => Ok(trial),
        Event::Assigned(number) => trial.assigned(number),
        Event::Freed => trial.freed(),
        Event::Added(numbers) => trial.add(alloc, numbers),
    }
}

// After each event the clause with the numbers that stand beside it is active.
fn follow(
    rt: &impl Abort,
    alloc: Global,
    trial: Trial,
    events: &[(Event, u32, i32)],
) -> Result<(), Fail> {
    let mut trial = trial;
    for &(event, id, left) in events {
        trial = after(alloc, trial, event)?;
        is_active(rt, trial.least_active(), (id, left));
    }
    Ok(())
}

const ON_THE_WIRE: &[(Event, u32, i32)] = &[
    (Event::Start, 11, -2),
    (Event::Assigned(-2), 1, 1),
    (Event::Freed, 11, -2),
    (Event::Added(&[2]), 11, -2),
];

#[test]
fn the_least_numbered_active_clause_is_named(rt: HostRuntime) -> Result<(), Fail> {
    let clauses = formula(rt.alloc(), 14, WIRE)?;
    let trial = Trial::new(rt.alloc(), &clauses)?;
    follow(&rt, rt.alloc(), trial, ON_THE_WIRE)
}

const ON_THREE: &[(Event, u32, i32)] = &[
    // two are free in each
    (Event::Start, 0, 0),
    // the others are true
    (Event::Assigned(1), 2, 2),
    (Event::Assigned(-2), 2, 0),
    (Event::Freed, 2, 2),
    (Event::Freed, 0, 0),
    (Event::Assigned(-1), 3, -3),
    // the first is true
    (Event::Assigned(3), 3, 0),
    // an empty clause
    (Event::Added(&[]), 3, 0),
    (Event::Freed, 3, -3),
    (Event::Freed, 4, 0),
];

#[test]
fn a_clause_is_false_or_unit_or_neither(rt: HostRuntime) -> Result<(), Fail> {
    let clauses = formula(rt.alloc(), 3, &[1, 2, 3, 0, -1, 2, 0, 1, -3, 0])?;
    let trial = Trial::new(rt.alloc(), &clauses)?;
    follow(&rt, rt.alloc(), trial, ON_THREE)
}

const ON_TWO: &[(Event, u32, i32)] = &[
    (Event::Start, 1, -3),
    (Event::Assigned(3), 1, 0),
    (Event::Freed, 1, -3),
    (Event::Assigned(-3), 2, 2),
];

#[test]
fn a_false_clause_is_named_before_a_unit_one_behind_it(rt: HostRuntime) -> Result<(), Fail> {
    let clauses = formula(rt.alloc(), 3, &[-3, 0, 2, 0])?;
    let trial = Trial::new(rt.alloc(), &clauses)?;
    follow(&rt, rt.alloc(), trial, ON_TWO)
}

// Formulas over three variables, the empty one among them, with a clause that is empty, clauses of one
// literal, and clauses that are true, false or unit at the same time.
const SMALL: &[&[i32]] = &[
    &[],
    &[0],
    &[1, 2, 3, 0, -1, 2, 0, 1, -3, 0],
    &[1, 2, 0, -2, 3, 0, -1, -3, 0, 1, -2, -3, 0],
    &[-3, 0, 2, 0, -1, 0, 1, 2, 3, 0],
    &[1, -2, 3, 0, -1, 2, -3, 0, 1, 2, 0, 0],
    &[1, 2, 3, 0, 1, 2, -3, 0, 1, -2, 0, -1, 0],
];

const ORDERS: &[&[i32]] = &[
    &[1, 2, 3],
    &[1, 3, 2],
    &[2, 1, 3],
    &[2, 3, 1],
    &[3, 1, 2],
    &[3, 2, 1],
];

const SIGNS: &[&[i32]] = &[
    &[1, 1, 1],
    &[1, 1, -1],
    &[1, -1, 1],
    &[1, -1, -1],
    &[-1, 1, 1],
    &[-1, 1, -1],
    &[-1, -1, 1],
    &[-1, -1, -1],
];

#[test]
fn both_ways_to_find_it_agree(rt: HostRuntime) -> Result<(), Fail> {
    for &numbers in SMALL {
        for &order in ORDERS {
            for &signs in SIGNS {
                agree(&rt, rt.alloc(), numbers, order, signs)?;
            }
        }
    }
    Ok(())
}

// Assigns the variables in this order and with these signs, adds a clause, and frees them.
fn agree(
    rt: &impl Abort,
    alloc: Global,
    numbers: &[i32],
    order: &[i32],
    signs: &[i32],
) -> Result<(), Fail> {
    let clauses = formula(alloc, 3, numbers)?;
    let trial = Trial::new(alloc, &clauses)?;
    let trial = assign_all(rt, alloc, trial, order, signs)?;
    free_three(rt, alloc, trial.add(alloc, &[2])?)
}

// Both ways find the same before a variable more is assigned.
fn assign_all<'a>(
    rt: &impl Abort,
    alloc: Global,
    trial: Trial<'a>,
    order: &[i32],
    signs: &[i32],
) -> Result<Trial<'a>, Fail> {
    let mut trial = trial;
    for (var, sign) in order.iter().zip(signs) {
        agrees(rt, alloc, &trial)?;
        trial = trial.assigned(var.wrapping_mul(*sign))?;
    }
    Ok(trial)
}

// Both ways find the same before and after three variables are freed.
fn free_three(rt: &impl Abort, alloc: Global, trial: Trial) -> Result<(), Fail> {
    let mut trial = trial;
    for _ in 0..3 {
        agrees(rt, alloc, &trial)?;
        trial = trial.freed()?;
    }
    agrees(rt, alloc, &trial)
}

/// Both ways find the same.
pub fn agrees(rt: &impl Abort, alloc: Global, trial: &Trial) -> Result<(), Fail> {
    let wanted = numbers_found(trial.expected(alloc)?);
    is_active(rt, trial.least_active(), wanted);
    Ok(())
}
