//! Steps as they were pushed, what is no step, and texts that are read, refused and written again.
ghost use Rattle.std.specs.Prelude.{◌<◌, length};

use crate::asserts::{is_bytes, is_found, is_number, is_so, is_so_of, is_text};
use crate::made::{literals, push_steps, steps};
use bx_desk::{MemDesk, Piece};
use bx_grid::CountProof;
use bx_proof::{Refutation, StepFault, Steps, is_step, read_steps, write_steps};
use std::alloc::Global;
use std::test::Fail;

// Two steps, from id 46 on.
const TWO: &[i32] = &[-1, 3, 0, 11, 1, 5, 0, 0, 46, 45, 0];

// The id of the first step, and each step.
fn words_of(alloc: Global, steps: &Steps) -> Result<String, Fail> {
    let mut text = format!(in alloc; "{}:", steps.first())?;
    push_steps(alloc, steps, &mut text)?;
    Ok(text)
}

#[test]
fn there_are_no_steps_at_first(rt: HostRuntime) {
    is_so(&rt, Steps::new(rt.alloc(), 46).is_empty(), true);
}

#[test]
fn steps_are_as_they_were_pushed(rt: HostRuntime) -> Result<(), Fail> {
    let two = steps(rt.alloc(), 46, TWO)?;
    let text = words_of(rt.alloc(), &two)?;
    is_text(&rt, text.as_str(), "46: -1 3 0 11 1 5 0 0 46 45 0");
    Ok(())
}

#[test]
fn two_steps_are_two(rt: HostRuntime) -> Result<(), Fail> {
    let two = steps(rt.alloc(), 46, TWO)?;
    is_number(&rt, u64::from(two.len()), 2);
    is_so(&rt, two.is_empty(), false);
    Ok(())
}

// An id, literals and hints, and whether they make a step.
const STEPS: &[(u64, &[i32], &[u32], bool)] = &[
    (46, &[-1, 3], &[11, 1, 5], true),
    (47, &[], &[46, 45], true),
    (5, &[1], &[1, 4], true),
    (4_294_967_295, &[1], &[4_294_967_294], true),
    (4_294_967_296, &[1], &[1], false),
    (5, &[1], &[], false),
    (5, &[1], &[0], false),
    (5, &[1], &[5], false),
    (5, &[1, 1], &[1], false),
    (5, &[1, -1], &[1], false),
];

#[test]
fn what_makes_a_step(rt: HostRuntime) -> Result<(), Fail> {
    for &(id, numbers, hints, wanted) in STEPS {
        let literals = literals(rt.alloc(), numbers)?;
        is_so_of(&rt, numbers, is_step(id, &literals, hints), wanted);
    }
    Ok(())
}

#[test]
fn steps_are_read(rt: HostRuntime) -> Result<(), Fail> {
    let read = read_steps(rt.alloc(), b"46 0 11 1 5 2 13 29 18 45 0\n")?;
    let text = words_of(rt.alloc(), &read)?;
    is_text(&rt, text.as_str(), "46: 0 11 1 5 2 13 29 18 45 0");
    Ok(())
}

// What is written of the steps that are read of a text.
fn written(alloc: Global, text: &str) -> Result<Vec<u8>, Fail> {
    let steps = read_steps(alloc, text.as_bytes())?;
    let mut desk = MemDesk::new(alloc);
    desk.say_room(100)?;
    write(&steps, &mut desk)?;
    Ok(Vec::from_slice(alloc, desk.said())?)
}

// Writes steps, of which there are some, on a desk.
fn write(steps: &Steps, desk: &mut MemDesk) -> Result<(), Fail>
    requires { 0 < length steps.now.steps }
{
    let mut piece = Piece::to_say();
    write_steps(steps, &mut piece, desk)?;
    piece.end(desk)?;
    Ok(())
}

const TEXTS: &[&str] = &[
    "46 0 11 1 5 2 13 29 18 45 0\n",
    "5 1 -12 0 4 1 0\n6 0 5 4 0\n",
    "4294967295 -2147483647 0 4294967294 0\n",
];

#[test]
fn a_text_is_written_as_it_was_read(rt: HostRuntime) -> Result<(), Fail> {
    for &text in TEXTS {
        let bytes = written(rt.alloc(), text)?;
        is_bytes(&rt, &bytes, text);
    }
    Ok(())
}

// A text, and its first bad line.
const BAD_TEXTS: &[(&str, u64)] = &[
    ("", 1),
    ("\n", 1),
    // variables descend, and the line has no end
    ("7 3 -2 0 1 0", 1),
    ("7 3 -2 0 1 0\n", 1),
    ("7 2 -2 0 1 0\n", 1),
    ("7 -2 3 0 1 0", 1),
    ("7 -2 3 0 1 0\r\n", 1),
    ("7 -2 3 0 1 0\n\n", 2),
    // no hint, and hints that name no clause before
    ("7 0 0\n", 1),
    ("7 0 7 0\n", 1),
    ("7 0 -1 0\n", 1),
    ("1 0 1 0\n", 1),
    // ids that don't go up by one, and one that is too great
    ("7 0 1 0\n7 0 1 0\n", 2),
    ("7 0 1 0\n8 0 7 0\n10 0 8 0\n", 3),
    ("4294967295 0 1 0\n4294967296 0 1 0\n", 2),
    ("4294967296 0 1 0\n", 1),
    // other spellings
    ("07 0 1 0\n", 1),
    ("7  0 1 0\n", 1),
    (" 7 0 1 0\n", 1),
    ("7 -0 1 0\n", 1),
    ("7 -01 0 1 0\n", 1),
    ("7 2147483648 0 1 0\n", 1),
    ("7 0 1 0 \n", 1),
];

// The bad line of a text that is told, and none where steps are read or memory is refused.
fn bad_line(alloc: Global, text: &str) -> Option<u64> {
    match read_steps(alloc, text.as_bytes()) {
        Err(StepFault::BadStep(line)) => Some(line),
        Ok(_) | Err(StepFault::NoMemory) => None,
    }
}

#[test]
fn the_first_bad_line_is_told(rt: HostRuntime) {
    for &(text, line) in BAD_TEXTS {
        is_found(&rt, text, bad_line(rt.alloc(), text), Some(line));
    }
}

// What is said of a fault.
fn message(alloc: Global, fault: StepFault) -> Result<String, Fail> {
    Ok(format!(in alloc; "{fault}")?)
}

#[test]
fn a_fault_is_said(rt: HostRuntime) -> Result<(), Fail> {
    let bad = message(rt.alloc(), StepFault::BadStep(3))?;
    is_text(&rt, bad.as_str(), "line 3 is no step of a log");
    Ok(())
}

#[test]
fn want_of_memory_is_said(rt: HostRuntime) -> Result<(), Fail> {
    let none = message(rt.alloc(), StepFault::NoMemory)?;
    is_text(&rt, none.as_str(), "out of memory");
    Ok(())
}

#[test]
fn a_refutation_by_count_says_so(rt: HostRuntime) {
    let count = Refutation::Count(CountProof::Late { node: 3 });
    let is_late = matches!(&count, Refutation::Count(CountProof::Late { node: 3 }));
    is_so(&rt, is_late, true);
}

#[test]
fn a_refutation_by_clauses_has_its_steps(rt: HostRuntime) -> Result<(), Fail> {
    let clauses = Refutation::Clauses(read_steps(rt.alloc(), b"2 0 1 0\n")?);
    let Refutation::Clauses(steps) = clauses else {
        return Err("steps".into());
    };
    is_number(&rt, u64::from(steps.len()), 1);
    Ok(())
}
