//! Logs that are accepted, logs with each fault, and the first steps that fail.

use crate::asserts::{is_number, is_place_of, is_so_of};
use crate::made::{formula, steps};
use crate::samples::{SQUARE, WIRE};
use bx_check::{check, first_failure};
use std::alloc::Global;
use std::test::Fail;

// Whether steps are accepted for a formula, each of these numbers.
fn accepts(
    alloc: Global,
    vars: u32,
    clauses: &[i32],
    first: u32,
    numbers: &[i32],
) -> Result<bool, Fail> {
    let clauses = formula(alloc, vars, clauses)?;
    let steps = steps(alloc, first, numbers)?;
    Ok(check(alloc, &clauses, &steps)?)
}

// How many clauses a formula of these numbers has.
fn clause_count(alloc: Global, vars: u32, clauses: &[i32]) -> Result<u64, Fail> {
    let clauses = formula(alloc, vars, clauses)?;
    Ok(u64::from(clauses.len()))
}

// Steps for the formula of all clauses over two variables: the id of the first, their numbers, and whether
// they are accepted.
const LOGS: &[(u32, &[i32], bool)] = &[
    (5, &[1, 0, 1, 2, 0, 0, 5, 3, 4, 0], true),
    // a literal that is left may be true already
    (5, &[1, 0, 1, 1, 2, 0, 0, 5, 3, 4, 0], true),
    // ids don't begin behind the clauses
    (6, &[1, 0, 1, 2, 0, 0, 6, 3, 4, 0], false),
    // there is no step
    (5, &[], false),
    // the last step has a literal
    (5, &[1, 0, 1, 2, 0], false),
    // a step that isn't the last has none
    (5, &[1, 0, 1, 2, 0, 0, 5, 3, 4, 0, 0, 5, 3, 4, 0], false),
    // a variable that the formula doesn't have
    (5, &[1, 3, 0, 1, 2, 0, 1, 0, 1, 2, 0, 0, 6, 3, 4, 0], false),
    // no false clause is reached
    (5, &[1, 0, 1, 0, 0, 5, 3, 4, 0], false),
    // a hint stands behind the false clause
    (5, &[1, 0, 1, 2, 3, 0, 0, 5, 3, 4, 0], false),
    // two literals are left
    (5, &[1, 0, 3, 1, 2, 0, 0, 5, 3, 4, 0], false),
    (5, &[1, 0, 1, 2, 0, 0, 5, 2, 4, 0], false),
];

#[test]
fn a_log_is_accepted_or_has_a_fault(rt: HostRuntime) -> Result<(), Fail> {
    for &(first, numbers, wanted) in LOGS {
        let found = accepts(rt.alloc(), 2, SQUARE, first, numbers)?;
        is_so_of(&rt, numbers, found, wanted);
    }
    Ok(())
}

// Steps for the same formula, and the first that fails, or none where all pass, whether they end or not.
const FAILURES: &[(&[i32], Option<u32>)] = &[
    (&[], None),
    (&[1, 0, 1, 2, 0, 0, 5, 3, 4, 0], None),
    (&[1, 0, 1, 2, 0], None),
    // behind an empty step too
    (&[0, 1, 0, 0, 5, 0], Some(0)),
    (&[1, 0, 1, 2, 0, 0, 5, 3, 4, 0, 2, 0, 6, 0], None),
    (&[1, 0, 1, 2, 0, 2, 0, 1, 0, 0, 5, 0], Some(1)),
    // a variable that the formula doesn't have, and a step that stands on it
    (&[1, 3, 0, 1, 2, 0, 1, 0, 5, 0], Some(0)),
    (&[1, 0, 1, 2, 0, 1, 3, 0, 5, 0], Some(1)),
];

// The first of steps of these numbers that fails for the formula of all clauses over two variables.
fn failing(alloc: Global, numbers: &[i32]) -> Result<Option<u32>, Fail> {
    let clauses = formula(alloc, 2, SQUARE)?;
    let steps = steps(alloc, 5, numbers)?;
    if u64::from(steps.first()) != u64::from(clauses.len()) + 1 {
        return Err("ids begin elsewhere".into());
    }
    Ok(first_failure(alloc, &clauses, &steps)?)
}

#[test]
fn the_first_failure_is_named(rt: HostRuntime) -> Result<(), Fail> {
    for &(numbers, wanted) in FAILURES {
        is_place_of(&rt, numbers, failing(rt.alloc(), numbers)?, wanted);
    }
    Ok(())
}

#[test]
fn a_wire_has_45_clauses(rt: HostRuntime) -> Result<(), Fail> {
    is_number(&rt, clause_count(rt.alloc(), 14, WIRE)?, 45);
    Ok(())
}

// Steps for the formula of the wire, and whether they are accepted.
const WIRE_LOGS: &[(&[i32], bool)] = &[
    (&[0, 11, 1, 5, 2, 13, 29, 18, 45, 0], true),
    (&[0, 11, 1, 5, 2, 14, 29, 18, 45, 0], false),
    (&[0, 11, 1, 5, 2, 13, 29, 18, 0], false),
];

#[test]
fn one_step_refutes_a_wire(rt: HostRuntime) -> Result<(), Fail> {
    for &(numbers, wanted) in WIRE_LOGS {
        let found = accepts(rt.alloc(), 14, WIRE, 46, numbers)?;
        is_so_of(&rt, numbers, found, wanted);
    }
    Ok(())
}

// Variable 3 p + h + 1 says that pigeon p of four sits in hole h of three.
const PIGEONS: &[i32] = &[
    1, 2, 3, 0, 4, 5, 6, 0, 7, 8, 9, 0, 10, 11, 12, 0, -1, -4, 0, -1, -7, 0, -1, -10, 0, -4, -7, 0,
    -4, -10, 0, -7, -10, 0, -2, -5, 0, -2, -8, 0, -2, -11, 0, -5, -8, 0, -5, -11, 0, -8, -11, 0,
    -3, -6, 0, -3, -9, 0, -3, -12, 0, -6, -9, 0, -6, -12, 0, -9, -12, 0,
];

// Found by a script: cases over the variables, each leaf with the clauses that it propagates.
const NO_ROOM: &[i32] = &[
    -1, -2, 0, 5, 6, 11, 2, 12, 3, 20, 0, -1, 2, -3, 0, 5, 6, 17, 2, 14, 3, 18, 0, -1, 2, 3, -5, 0,
    6, 7, 14, 3, 15, 4, 22, 0, -1, 2, 3, 0, 5, 6, 7, 25, 2, 20, 3, 16, 4, 21, 0, -1, 2, 0, 5, 6, 7,
    24, 25, 2, 20, 3, 16, 4, 21, 0, -1, 0, 5, 6, 7, 23, 24, 25, 2, 20, 3, 16, 4, 21, 0, 1, -2, -3,
    0, 11, 12, 17, 2, 8, 3, 18, 0, 1, -2, 3, -4, 0, 8, 9, 12, 3, 13, 4, 22, 0, 1, -2, 3, 0, 11, 12,
    13, 30, 2, 20, 3, 10, 4, 21, 0, 1, -2, 0, 11, 12, 13, 29, 30, 2, 20, 3, 10, 4, 21, 0, 1, 2, -4,
    0, 1, 8, 9, 18, 3, 16, 4, 19, 0, 1, 2, 0, 1, 17, 18, 19, 33, 2, 14, 3, 10, 4, 15, 0, 1, 0, 32,
    1, 17, 18, 19, 33, 2, 14, 3, 10, 4, 15, 0, 0, 28, 32, 1, 17, 18, 19, 33, 2, 14, 3, 10, 4, 15,
    0,
];

#[test]
fn the_pigeons_have_22_clauses(rt: HostRuntime) -> Result<(), Fail> {
    is_number(&rt, clause_count(rt.alloc(), 12, PIGEONS)?, 22);
    Ok(())
}

#[test]
fn their_refutation_has_14_steps(rt: HostRuntime) -> Result<(), Fail> {
    let steps = steps(rt.alloc(), 23, NO_ROOM)?;
    is_number(&rt, u64::from(steps.len()), 14);
    Ok(())
}

#[test]
fn four_pigeons_have_no_room_in_three_holes(rt: HostRuntime) -> Result<(), Fail> {
    let found = accepts(rt.alloc(), 12, PIGEONS, 23, NO_ROOM)?;
    is_so_of(&rt, NO_ROOM, found, true);
    Ok(())
}
