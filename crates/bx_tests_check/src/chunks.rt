//! Logs that are checked in chunks: the answers are those that are wanted, for every number of workers.

use crate::chain;
use crate::made::{StepNumbers, formula, steps};
use bx_check::{check, check_chunks, first_failure};
use bx_cnf::Clauses;
use bx_proof::Steps;
use std::alloc::Global;
use std::process::Abort;
use std::test::Fail;
use std::thread::Threads;

// Numbers of workers that are tried.
const WORKERS: &[u32] = &[1, 2, 3, 4, 16];

// The answer is this one: in one piece, and in chunks for each number of workers.
fn answers<R: Threads + Abort + Sync>(
    rt: &R,
    alloc: Global,
    clauses: &Clauses,
    steps: &Steps,
    wanted: bool,
) -> Result<(), Fail> {
    assert_eq!(rt; check(alloc, clauses, steps)?, wanted, "in one piece");
    for &workers in WORKERS {
        if workers == 0 || workers > 16 {
            return Err("no number of workers".into());
        }
        let found = check_chunks(rt, alloc, clauses, steps, workers)?;
        assert_eq!(rt; found, wanted, "{workers} workers");
    }
    Ok(())
}

// All clauses over two variables.
const SQUARE: &[&[i32]] = &[&[1, 2], &[1, -2], &[-1, 2], &[-1, -2]];

// Steps for this formula: the id of the first, the steps, and whether they are accepted.
const LOGS: &[(u32, &[StepNumbers], bool)] = &[
    (5, &[(&[1], &[1, 2]), (&[], &[5, 3, 4])], true),
    // a step more, which nothing names
    (
        5,
        &[(&[1], &[1, 2]), (&[1], &[1, 2]), (&[], &[5, 3, 4])],
        true,
    ),
    // ids don't begin behind the clauses
    (6, &[(&[1], &[1, 2]), (&[], &[6, 3, 4])], false),
    // there is no step
    (5, &[], false),
    // the last step has a literal
    (5, &[(&[1], &[1, 2])], false),
    // a step that isn't the last has none
    (
        5,
        &[(&[1], &[1, 2]), (&[], &[5, 3, 4]), (&[], &[5, 3, 4])],
        false,
    ),
    // a variable that the formula doesn't have, in a step that is named and in one that isn't
    (
        5,
        &[(&[1, 3], &[1, 2]), (&[1], &[1, 2]), (&[], &[6, 3, 4])],
        false,
    ),
    (
        5,
        &[(&[1, 3], &[1, 2]), (&[1], &[5, 2]), (&[], &[6, 3, 4])],
        false,
    ),
    // no false clause is reached
    (5, &[(&[1], &[1]), (&[], &[5, 3, 4])], false),
    // a hint stands behind the false clause
    (5, &[(&[1], &[1, 2, 3]), (&[], &[5, 3, 4])], false),
    // two literals are left
    (5, &[(&[1], &[3, 1, 2]), (&[], &[5, 3, 4])], false),
    // the empty step stands on a step that fails
    (5, &[(&[1], &[1]), (&[1], &[5]), (&[], &[6, 3, 4])], false),
];

#[test]
fn a_log_has_one_answer(rt: HostRuntime) -> Result<(), Fail> {
    let clauses = formula(rt.alloc(), 2, SQUARE)?;
    for &(first, log, wanted) in LOGS {
        let steps = steps(rt.alloc(), first, log)?;
        answers(&rt, rt.alloc(), &clauses, &steps, wanted)?;
    }
    Ok(())
}

#[test]
fn a_long_log_is_accepted(rt: HostRuntime) -> Result<(), Fail> {
    let clauses = chain::formula(rt.alloc())?;
    let steps = chain::log(rt.alloc(), None)?;
    answers(&rt, rt.alloc(), &clauses, &steps, true)
}

// Each place has its turn: the first, the last, and those at borders of chunks, which come after each tenth step for
// four workers.
#[test]
fn one_bad_step_is_found_wherever_it_is(rt: HostRuntime) -> Result<(), Fail> {
    let clauses = chain::formula(rt.alloc())?;
    for bad in 0..chain::LENGTH {
        let steps = chain::log(rt.alloc(), Some(bad))?;
        answers(&rt, rt.alloc(), &clauses, &steps, false)?;
    }
    Ok(())
}

// More workers than steps: the one step has all hints.
#[test]
fn one_step_is_checked_by_many_workers(rt: HostRuntime) -> Result<(), Fail> {
    let clauses = formula(rt.alloc(), 1, &[&[-1], &[1]])?;
    let good = steps(rt.alloc(), 3, &[(&[], &[1, 2])])?;
    answers(&rt, rt.alloc(), &clauses, &good, true)?;
    let bad = steps(rt.alloc(), 3, &[(&[], &[1])])?;
    answers(&rt, rt.alloc(), &clauses, &bad, false)
}

// Variables that no clause names, between those that are named and behind them. The steps name another one.
#[test]
fn variables_that_are_not_named_change_nothing(rt: HostRuntime) -> Result<(), Fail> {
    let clauses = formula(rt.alloc(), 12, &[&[5, 9], &[5, -9], &[-5, 9], &[-5, -9]])?;
    let log: &[StepNumbers] = &[(&[5, 11], &[1, 2]), (&[5], &[1, 2]), (&[], &[6, 3, 4])];
    let steps = steps(rt.alloc(), 5, log)?;
    answers(&rt, rt.alloc(), &clauses, &steps, true)
}

// As many variables as a formula can have: values for all of them would take gigabytes for each worker.
#[test]
fn declared_variables_take_no_memory(rt: HostRuntime) -> Result<(), Fail> {
    let clauses = formula(rt.alloc(), 2_147_483_647, SQUARE)?;
    let good = steps(rt.alloc(), 5, &[(&[1], &[1, 2]), (&[], &[5, 3, 4])])?;
    answers(&rt, rt.alloc(), &clauses, &good, true)?;
    let bad = steps(rt.alloc(), 5, &[(&[1], &[1, 2]), (&[], &[5, 3])])?;
    answers(&rt, rt.alloc(), &clauses, &bad, false)
}

// The highest numbers that variables can have, beside low ones: an array for all of them would take gigabytes too.
#[test]
fn high_numbers_take_no_memory(rt: HostRuntime) -> Result<(), Fail> {
    let most: i32 = 2_147_483_647;
    let clauses = formula(
        rt.alloc(),
        2_147_483_647,
        &[&[1, most], &[1, -most], &[-1, most - 1], &[-1, 1 - most]],
    )?;
    let good: &[StepNumbers] = &[
        (&[1, most], &[1]),
        (&[most - 1], &[3, 1, 2]),
        (&[], &[6, 4, 1, 2]),
    ];
    let good = steps(rt.alloc(), 5, good)?;
    answers(&rt, rt.alloc(), &clauses, &good, true)?;
    let bad: &[StepNumbers] = &[
        (&[1, most - 1], &[1]),
        (&[most - 1], &[3, 1, 2]),
        (&[], &[6, 4, 1, 2]),
    ];
    let bad = steps(rt.alloc(), 5, bad)?;
    answers(&rt, rt.alloc(), &clauses, &bad, false)
}

// The first failure among steps of a formula that declares so many variables.
#[test]
fn a_failure_is_named_by_its_place(rt: HostRuntime) -> Result<(), Fail> {
    let clauses = formula(rt.alloc(), 2_147_483_647, SQUARE)?;
    let bad = steps(rt.alloc(), 5, &[(&[1], &[1, 2]), (&[], &[5, 3])])?;
    if u64::from(bad.first()) != u64::from(clauses.len()) + 1 {
        return Err("ids begin elsewhere".into());
    }
    assert_eq!(&rt; first_failure(rt.alloc(), &clauses, &bad)?, Some(1));
    Ok(())
}

// No clauses and no steps.
#[test]
fn nothing_refutes_no_clauses(rt: HostRuntime) -> Result<(), Fail> {
    let clauses = formula(rt.alloc(), 0, &[])?;
    let none = steps(rt.alloc(), 1, &[])?;
    answers(&rt, rt.alloc(), &clauses, &none, false)
}
