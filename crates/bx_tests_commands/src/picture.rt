//! Pictures of designs: what words ask for one, what is drawn where all is right, and what is said else.

use crate::asserts::{are_bytes, holds, is_number, is_text};
use crate::designs::{LONG_DOTS, design_text};
use crate::runs::{LONG_CERT, blamed, desk_with_both};
use bx_desk::MemDesk;
use bx_engine::Status;
use bx_logic::NoMemory;
use bx_picture::run_draw;
use std::alloc::Global;
use std::process::Abort;
use std::test::Fail;
use std::thread::Threads;

// Room for a picture.
const ROOM: u64 = 65_536;

// The words of a picture with names.
const NAMED: &str = "lib.json out.sqd --cert out.cert --net net.v";

// The status and the desk of a run with the words of a line, which stand between blanks.
fn drawn<R: Threads + Sync>(
    rt: &R,
    alloc: Global,
    line: &str,
    cert: &str,
) -> Result<(Status, MemDesk), NoMemory> {
    let design = design_text(alloc, 3, LONG_DOTS)?;
    let mut desk = desk_with_both(alloc, design.as_str(), cert)?;
    desk.say_room(ROOM)?;
    let mut words = Vec::new(alloc);
    for word in line.split_whitespace() {
        words.push(String::from_str(alloc, word)?)?;
    }
    let status = run_draw(rt, alloc, &words, &mut desk);
    Ok((status, desk))
}

// How often a text stands among bytes.
fn count_of(bytes: &[u8], text: &str) -> u64 {
    let mut count = 0_u64;
    for at in 0..bytes.len() {
        if bytes[at..].starts_with(text.as_bytes()) {
            count = count.wrapping_add(1);
        }
    }
    count
}

// Asserts that bytes are a picture of three tiles, and how often the names of the ports stand in it.
fn is_picture(rt: &impl Abort, said: &[u8], line: &str, named: u64) {
    holds(rt, said.starts_with(b"<?xml version=\"1.0\""), line);
    holds(rt, said.ends_with(b"</svg>\n"), line);
    is_number(rt, count_of(said, ", clock zone "), 3, line);
    is_number(
        rt,
        count_of(said, ">a</text>").wrapping_add(count_of(said, ">y</text>")),
        named,
        line,
    );
}

// Words of pictures, and how many names of ports are drawn.
const PICTURES: &[(&str, u64)] = &[
    ("lib.json out.sqd", 0),
    ("lib.json out.sqd --dots", 0),
    (NAMED, 2),
    ("lib.json out.sqd --net net.v --dots --cert out.cert", 2),
];

#[test]
fn designs_are_drawn(rt: HostRuntime) -> Result<(), Fail> {
    for &(line, named) in PICTURES {
        let (status, desk) = drawn(&rt, rt.alloc(), line, LONG_CERT)?;
        is_number(&rt, u64::from(status.code()), 0, line);
        is_picture(&rt, desk.said(), line, named);
    }
    Ok(())
}

// Words, the exit status, and what is said.
const REFUSED: &[(&str, u64, &str)] = &[
    ("", 6, "refused words usage\n"),
    ("lib.json", 6, "refused words usage\n"),
    ("lib.json out.sqd net.v", 6, "refused words usage\n"),
    ("lib.json out.sqd --dots --dots", 6, "refused words usage\n"),
    (
        "lib.json out.sqd --cert out.cert",
        6,
        "refused words usage\n",
    ),
    ("lib.json out.sqd --net net.v", 6, "refused words usage\n"),
    (
        "lib.json out.sqd --net net.v --net net.v --cert out.cert",
        6,
        "refused words usage\n",
    ),
    ("net.v net.v", 1, "refused json\n"),
    ("lib.json net.v", 1, "refused bad design 1\n"),
    (
        "lib.json out.sqd --net lib.json --cert lib.json",
        1,
        "refused not taken 0 concat\n",
    ),
    (
        "lib.json out.sqd --net net.v --cert lib.json",
        1,
        "refused bad cert 1\n",
    ),
];

#[test]
fn what_is_wrong_is_said(rt: HostRuntime) -> Result<(), Fail> {
    for &(line, code, said) in REFUSED {
        let (status, desk) = drawn(&rt, rt.alloc(), line, LONG_CERT)?;
        is_number(&rt, u64::from(status.code()), code, line);
        are_bytes(&rt, desk.said(), said.as_bytes(), line);
    }
    Ok(())
}

// Words with a file that isn't there, and which it is.
const MISSING: &[(&str, &str)] = &[
    ("no.json out.sqd", "lib"),
    ("lib.json no.sqd", "design"),
    ("lib.json out.sqd --net no.v --cert out.cert", "net"),
    ("lib.json out.sqd --net net.v --cert no.cert", "cert"),
];

#[test]
fn a_missing_file_is_told(rt: HostRuntime) -> Result<(), Fail> {
    for &(line, which) in MISSING {
        let (status, desk) = drawn(&rt, rt.alloc(), line, LONG_CERT)?;
        is_text(&rt, blamed(&status), which, line);
        are_bytes(&rt, desk.said(), b"", line);
    }
    Ok(())
}

// A certificate whose places are those of other tiles.
const TURNED: &str =
    "bestagon cert 1\nlimits 100 144 144 100000\ncount 1 1 late 0\nclauses 1 2 1\n46 0 11 1 5 2 13 29 18 45 0\ncount 2 1 late 0\nfound 1 3\nplace 0 2\nplace 0 0\nend\n";

#[test]
fn places_that_do_not_fit_are_wrong(rt: HostRuntime) -> Result<(), Fail> {
    let (status, desk) = drawn(&rt, rt.alloc(), NAMED, TURNED)?;
    is_number(&rt, u64::from(status.code()), 7, NAMED);
    are_bytes(&rt, desk.said(), b"wrong network 3\n", NAMED);
    Ok(())
}
