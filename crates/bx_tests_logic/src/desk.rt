//! Tests of `bx_desk`: messages, the open gate, and what the calls of a desk in memory leave.

use crate::asserts::{is_bytes_in, is_file_in, is_number, is_so_in, is_text_in};
use bx_desk::{Desk, Failed, Gate, LoadFault, MemDesk, OpenGate};
use bx_logic::NoMemory;
use std::alloc::Global;
use std::process::Abort;
use std::test::Fail;

const MESSAGES: &[(LoadFault, &str)] = &[
    (LoadFault::Failed, "the file could not be read"),
    (LoadFault::TooLong, "the file is too long"),
    (LoadFault::NoMemory, "out of memory"),
];

#[test]
fn faults_of_a_load_have_messages(rt: HostRuntime) -> Result<(), Fail> {
    for &(fault, message) in MESSAGES {
        let found = format!(in rt.alloc(); "{fault}")?;
        is_text_in(&rt, message, found.as_str(), message);
    }
    Ok(())
}

#[test]
fn a_failure_has_a_message(rt: HostRuntime) -> Result<(), Fail> {
    let found = format!(in rt.alloc(); "{Failed}")?;
    is_text_in(&rt, "failed", found.as_str(), "the desk failed");
    Ok(())
}

#[test]
fn an_open_gate_lets_all_pass() {
    let gate = OpenGate;
    gate.enter(0);
    gate.leave(0);
}

// Loads of a desk, each one call, numbered from 1: the name and the limit, the answer and what is left. The
// third is to fail.
const LOADS: &[(&str, &str, u64, &str, &str)] = &[
    ("within its limit", "a", u64::MAX, "loaded", "abcde"),
    ("at its limit", "a", 5, "loaded", "abcde"),
    ("planned to fail", "a", 9, "failed", ""),
    ("one past its limit", "a", 4, "too long", "abcde"),
    ("far past its limit", "a", 1, "too long", "ab"),
    ("not there", "b", 9, "failed", ""),
    ("empty", "empty", 0, "loaded", ""),
];

#[test]
fn a_desk_in_memory_loads(rt: HostRuntime) -> Result<(), Fail> {
    let mut desk = filled(rt.alloc())?;
    desk.fail_at(3, 2)?;
    for &(case, name, limit, answer, left) in LOADS {
        let mut into = Vec::new(rt.alloc());
        let found = told(desk.load(name, limit, &mut into));
        is_text_in(&rt, case, found, answer);
        is_bytes_in(&rt, case, &into, left.as_bytes());
    }
    are_files_left(&rt, &desk, "b");
    Ok(())
}

/// The answer to a load, in a word or two.
pub fn told(answer: Result<(), LoadFault>) -> &'static str {
    match answer {
        Ok(()) => "loaded",
        Err(LoadFault::Failed) => "failed",
        Err(LoadFault::TooLong) => "too long",
        Err(LoadFault::NoMemory) => "no memory",
    }
}

// What is said: the room, how much a planned failure keeps, whether all is said, and what is left.
const SAID: &[(&str, u64, Option<u64>, bool, &str)] = &[
    ("room for all", 3, None, true, "abc"),
    ("room lacking", 2, None, false, ""),
    ("kept below the length", 9, Some(1), false, "a"),
    ("kept at the length", 9, Some(3), false, "abc"),
    ("kept above the length", 9, Some(4), false, "abc"),
    ("kept above the room", 2, Some(3), false, "ab"),
];

#[test]
fn a_desk_in_memory_says(rt: HostRuntime) -> Result<(), Fail> {
    for &(case, room, kept, answer, left) in SAID {
        let mut desk = with_room(rt.alloc(), room, kept)?;
        is_so_in(&rt, case, desk.say(b"abc").is_ok(), answer);
        is_bytes_in(&rt, case, desk.said(), left.as_bytes());
    }
    Ok(())
}

// A desk with so much room, whose next call is to keep so much and fail. A load was call 1.
fn with_room(alloc: Global, room: u64, kept: Option<u64>) -> Result<MemDesk, Fail> {
    let mut desk = filled(alloc)?;
    desk.say_room(room)?;
    if let Some(kept) = kept {
        desk.fail_at(2, kept)?;
        desk.fail_at(2, 0)?;
    }
    desk.load("a", 9, &mut Vec::new(alloc))?;
    Ok(desk)
}

// What is done to the file "c", or to "d".
#[derive(Clone, Copy)]
enum Step {
    Room(u64),
    Start(&'static str),
    Append(&'static [u8]),
}

use Step::{Append, Room, Start};

// A step, and then its answer, the file "c", and whether a file is started. "c" has a place of 4 bytes. Call 4
// is to keep one byte, call 7 none. What makes room is no call.
const STEPS: &[(&str, Step, bool, Option<&str>, bool)] = &[
    ("started", Start("c"), true, Some(""), true),
    ("written", Append(b"ab"), true, Some("ab"), true),
    ("room lacking", Append(b"abc"), false, Some("ab"), true),
    (
        "planned to keep one",
        Append(b"cd"),
        false,
        Some("abc"),
        true,
    ),
    ("written to its end", Append(b"d"), true, Some("abcd"), true),
    ("no place", Start("d"), false, Some("abcd"), false),
    ("a place is no file", Room(3), true, Some("abcd"), false),
    ("planned to fail", Start("c"), false, Some("abcd"), false),
    ("started again", Start("c"), true, Some(""), true),
    ("written again", Append(b"xyz"), true, Some("xyz"), true),
    ("nothing fits", Append(b""), true, Some("xyz"), true),
    ("place used up", Start("c"), false, Some("xyz"), false),
];

#[test]
fn a_desk_in_memory_writes(rt: HostRuntime) -> Result<(), Fail> {
    let mut desk = with_places(rt.alloc())?;
    is_file_in(&rt, "not yet", desk.file("c"), None);
    for &(case, step, answer, file, started) in STEPS {
        is_so_in(&rt, case, takes(&rt, &mut desk, case, step), answer);
        is_started(&rt, &desk, case, file, started);
    }
    are_files_left(&rt, &desk, "d");
    Ok(())
}

#[test]
fn a_desk_in_memory_counts_what_failed(rt: HostRuntime) -> Result<(), Fail> {
    let mut desk = with_places(rt.alloc())?;
    for &(case, step, _, _, _) in STEPS {
        let _ = takes(&rt, &mut desk, case, step);
    }
    is_number(&rt, desk.faults().write, 5);
    Ok(())
}

// Whether a step succeeds.
fn takes(rt: &impl Abort, desk: &mut MemDesk, case: &str, step: Step) -> bool {
    match step {
        Room(bytes) => desk.make_room("c", bytes).is_ok(),
        Start(name) => desk.start(name).is_ok(),
        Append(piece) => {
            assert!(rt; desk.has_started(), "{case}");
            desk.append(piece).is_ok()
        }
    }
}

// What the file "c" has, and whether a file is started.
fn is_started(rt: &impl Abort, desk: &MemDesk, case: &str, file: Option<&str>, started: bool) {
    is_file_in(rt, case, desk.file("c"), file);
    is_so_in(rt, case, desk.has_started(), started);
}

// The file "a" is as it was, and there is none of the other name.
fn are_files_left(rt: &impl Abort, desk: &MemDesk, missing: &str) {
    is_file_in(rt, "a", desk.file("a"), Some("abcde"));
    is_file_in(rt, missing, desk.file(missing), None);
}

// A desk with the file "a" of five bytes and an empty file.
fn filled(alloc: Global) -> Result<MemDesk, NoMemory> {
    let mut desk = MemDesk::new(alloc);
    desk.put("a", b"abcde")?;
    desk.put("empty", b"")?;
    Ok(desk)
}

// The same, with a place for "c" that replaced a larger one, and two calls that are to fail.
fn with_places(alloc: Global) -> Result<MemDesk, NoMemory> {
    let mut desk = filled(alloc)?;
    desk.make_room("c", 9)?;
    desk.make_room("c", 4)?;
    desk.fail_at(4, 1)?;
    desk.fail_at(7, 1)?;
    Ok(desk)
}
