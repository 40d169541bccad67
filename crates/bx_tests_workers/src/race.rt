//! Races of several workers: however many there are, they find the same. The steps come from another solver or were
//! worked out by hand.

use crate::asserts::{is_number, is_text};
use crate::problems::{Sample, Task, raced};
use bx_desk::OpenGate;
use std::test::Fail;

// How many workers race.
const CREWS: &[u32] = &[1, 2, 3, 4, 16];

#[test]
fn two_workers_refute_the_only_ratio(rt: HostRuntime) -> Result<(), Fail> {
    let (least, line) = raced(&rt, rt.alloc(), (Sample::Wire, 1, &[], 100), 2, &OpenGate)?;
    is_number(&rt, least, 1, "a wire on one tile");
    is_text(&rt, line.as_str(), "late 0, none", "a wire on one tile");
    Ok(())
}

// What is raced for, and what is found.
const WIRES: &[(Task, &str)] = &[
    ((Sample::Wire, 1, &[], 100), "late 0, none"),
    ((Sample::Wire, 100, &[], 0), "late 0, found 1 4 5 6 8 12"),
    (
        (Sample::Wire, 2, &[0, 1], 100),
        "late 0, 49 0 11 1 13 29 18 46 0, late 0, none",
    ),
    (
        (Sample::Wire, 2, &[0, 1], 6),
        "late 0, 49 0 11 1 13 29 18 46 0, late 0, none",
    ),
    ((Sample::Wire, 2, &[0, 1], 5), "late 0, undecided 0"),
];

#[test]
fn every_crew_finds_what_is_known_of_a_wire(rt: HostRuntime) -> Result<(), Fail> {
    for &(task, wanted) in WIRES {
        for &workers in CREWS {
            let (_, line) = raced(&rt, rt.alloc(), task, workers, &OpenGate)?;
            is_text(&rt, line.as_str(), wanted, wanted);
        }
    }
    Ok(())
}

// What is raced for, the least index, and how the line of what is found begins.
const GATES: &[(Task, u64, &str)] = &[
    (
        (Sample::Conjunction, 100, &[], 100_000),
        11,
        "late 0, late 0, late 0, crowd 0 0, late 0, crowd 0 0, late 0, late 0, crowd 0 0, late 0, crowd 0 0, found ",
    ),
    (
        (Sample::HalfAdder, 15, &[], 0),
        31,
        "late 0, late 0, late 0, late 0, late 0, ",
    ),
];

#[test]
fn the_first_ratio_that_is_not_refuted_is_the_least(rt: HostRuntime) -> Result<(), Fail> {
    for &(task, wanted, begins) in GATES {
        for &workers in CREWS {
            let (least, _) = raced(&rt, rt.alloc(), task, workers, &OpenGate)?;
            is_number(&rt, least, wanted, begins);
        }
    }
    Ok(())
}

#[test]
fn every_crew_finds_what_one_worker_finds(rt: HostRuntime) -> Result<(), Fail> {
    for &(task, _, begins) in GATES {
        let (_, alone) = raced(&rt, rt.alloc(), task, 1, &OpenGate)?;
        is_number(&rt, u64::from(alone.starts_with(begins)), 1, begins);
        for &workers in CREWS {
            let (_, line) = raced(&rt, rt.alloc(), task, workers, &OpenGate)?;
            is_text(&rt, line.as_str(), alone.as_str(), begins);
        }
    }
    Ok(())
}

#[test]
fn a_half_adder_within_no_budget_is_left_undecided(rt: HostRuntime) -> Result<(), Fail> {
    let (_, line) = raced(
        &rt,
        rt.alloc(),
        (Sample::HalfAdder, 15, &[], 0),
        4,
        &OpenGate,
    )?;
    is_number(
        &rt,
        u64::from(line.ends_with(", undecided 0")),
        1,
        line.as_str(),
    );
    Ok(())
}
