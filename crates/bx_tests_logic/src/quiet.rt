//! Tests of `bx_desk::QuietDesk`: what it loads, and that nothing fails on it.

use crate::asserts::{is_bytes_in, is_so_in, is_text_in};
use crate::desk::told;
use bx_desk::{Desk, QuietDesk};
use bx_logic::{Name, NoMemory};
use std::alloc::Global;
use std::test::Fail;

// Loads: the name and the limit, the answer and what is left. Two texts are held under one name.
const LOADS: &[(&str, &str, u64, &str, &str)] = &[
    ("the first text of a name", "a", u64::MAX, "loaded", "abcde"),
    ("at its limit", "a", 5, "loaded", "abcde"),
    ("one past its limit", "a", 4, "too long", "abcde"),
    ("far past its limit", "a", 1, "too long", "ab"),
    ("another name", "b", 9, "loaded", "xy"),
    ("no text under the name", "c", 0, "loaded", ""),
    ("a front of a name", "", 9, "loaded", ""),
];

#[test]
fn a_quiet_desk_loads_what_it_holds(rt: HostRuntime) -> Result<(), Fail> {
    let mut desk = filled(rt.alloc())?;
    for &(case, name, limit, answer, left) in LOADS {
        let mut into = Vec::new(rt.alloc());
        let found = told(desk.load(name, limit, &mut into));
        is_text_in(&rt, case, found, answer);
        is_bytes_in(&rt, case, &into, left.as_bytes());
    }
    Ok(())
}

#[test]
fn nothing_fails_on_a_quiet_desk(rt: HostRuntime) -> Result<(), Fail> {
    let mut desk = filled(rt.alloc())?;
    is_so_in(&rt, "no file is started", desk.has_started(), false);
    is_so_in(&rt, "say", desk.say(b"said").is_ok(), true);
    is_so_in(&rt, "start", desk.start("a").is_ok(), true);
    is_so_in(&rt, "a file is started", desk.has_started(), true);
    is_so_in(&rt, "append", desk.append(b"dropped").is_ok(), true);
    let mut into = Vec::new(rt.alloc());
    is_text_in(&rt, "load", told(desk.load("a", 9, &mut into)), "loaded");
    is_bytes_in(&rt, "what was appended is dropped", &into, b"abcde");
    Ok(())
}

// A desk with two texts under one name, and one under another.
fn filled(alloc: Global) -> Result<QuietDesk, NoMemory> {
    let mut held = Vec::new(alloc);
    for (name, text) in [("a", "abcde"), ("a", "later"), ("b", "xy")] {
        let name = Name::new(name.as_bytes().to_vec(alloc)?);
        held.push((name, text.as_bytes().to_vec(alloc)?))?;
    }
    Ok(QuietDesk::new(held))
}
