//! Designs as texts, both ways, and texts that are none, with their first bad line.

use crate::asserts::{are_bytes, holds, is_number, is_text};
use bx_desk::{MemDesk, Piece};
use bx_grid::Ratio;
use bx_logic::NoMemory;
use bx_siqad::{Design, DesignFault, read_design, write_design};
use std::alloc::{AllocError, Global};
use std::process::Abort;
use std::test::Fail;

// The lines up to the first dot, for a grid of one tile.
const HEAD: &str =
    "<?xml version=\"1.0\" encoding=\"UTF-8\"?>\n<siqad>\n<program>\n<file_purpose>save</file_purpose>\n<created_by>bestagon 1 1</created_by>\n</program>\n<layers>\n<layer_prop><name>Surface</name><type>DB</type></layer_prop>\n</layers>\n<design>\n<layer type=\"DB\">\n";

// What ends a design.
const END: &str = "</layer>\n</design>\n</siqad>\n";

// An input above an output.
const EXAMPLE: &str =
    "<?xml version=\"1.0\" encoding=\"UTF-8\"?>\n<siqad>\n<program>\n<file_purpose>save</file_purpose>\n<created_by>bestagon 1 2</created_by>\n</program>\n<layers>\n<layer_prop><name>Surface</name><type>DB</type></layer_prop>\n</layers>\n<design>\n<layer type=\"DB\">\n<dbdot><latcoord n=\"1\" m=\"1\" l=\"0\"/></dbdot>\n<dbdot><latcoord n=\"2\" m=\"3\" l=\"0\"/></dbdot>\n<dbdot><latcoord n=\"3\" m=\"3\" l=\"0\"/></dbdot>\n<dbdot><latcoord n=\"4\" m=\"3\" l=\"0\"/></dbdot>\n<dbdot><latcoord n=\"5\" m=\"3\" l=\"0\"/></dbdot>\n<dbdot><latcoord n=\"1\" m=\"3\" l=\"1\"/></dbdot>\n<dbdot><latcoord n=\"5\" m=\"7\" l=\"0\"/></dbdot>\n<dbdot><latcoord n=\"5\" m=\"9\" l=\"0\"/></dbdot>\n<dbdot><latcoord n=\"7\" m=\"9\" l=\"0\"/></dbdot>\n<dbdot><latcoord n=\"8\" m=\"9\" l=\"0\"/></dbdot>\n<dbdot><latcoord n=\"9\" m=\"9\" l=\"0\"/></dbdot>\n<dbdot><latcoord n=\"6\" m=\"9\" l=\"1\"/></dbdot>\n</layer>\n</design>\n</siqad>\n";

// An inversion between them.
const INVERTER: &str =
    "<?xml version=\"1.0\" encoding=\"UTF-8\"?>\n<siqad>\n<program>\n<file_purpose>save</file_purpose>\n<created_by>bestagon 1 3</created_by>\n</program>\n<layers>\n<layer_prop><name>Surface</name><type>DB</type></layer_prop>\n</layers>\n<design>\n<layer type=\"DB\">\n<dbdot><latcoord n=\"1\" m=\"1\" l=\"0\"/></dbdot>\n<dbdot><latcoord n=\"2\" m=\"3\" l=\"0\"/></dbdot>\n<dbdot><latcoord n=\"3\" m=\"3\" l=\"0\"/></dbdot>\n<dbdot><latcoord n=\"4\" m=\"3\" l=\"0\"/></dbdot>\n<dbdot><latcoord n=\"5\" m=\"3\" l=\"0\"/></dbdot>\n<dbdot><latcoord n=\"1\" m=\"3\" l=\"1\"/></dbdot>\n<dbdot><latcoord n=\"5\" m=\"7\" l=\"0\"/></dbdot>\n<dbdot><latcoord n=\"5\" m=\"9\" l=\"0\"/></dbdot>\n<dbdot><latcoord n=\"6\" m=\"9\" l=\"0\"/></dbdot>\n<dbdot><latcoord n=\"7\" m=\"9\" l=\"0\"/></dbdot>\n<dbdot><latcoord n=\"9\" m=\"9\" l=\"0\"/></dbdot>\n<dbdot><latcoord n=\"8\" m=\"9\" l=\"1\"/></dbdot>\n<dbdot><latcoord n=\"1\" m=\"13\" l=\"0\"/></dbdot>\n<dbdot><latcoord n=\"3\" m=\"15\" l=\"0\"/></dbdot>\n<dbdot><latcoord n=\"4\" m=\"15\" l=\"0\"/></dbdot>\n<dbdot><latcoord n=\"5\" m=\"15\" l=\"0\"/></dbdot>\n<dbdot><latcoord n=\"1\" m=\"15\" l=\"1\"/></dbdot>\n<dbdot><latcoord n=\"2\" m=\"15\" l=\"1\"/></dbdot>\n</layer>\n</design>\n</siqad>\n";

// The n, m and l of the example's dots.
const DOTS: &[(u32, u32, u8)] = &[
    (1, 1, 0),
    (2, 3, 0),
    (3, 3, 0),
    (4, 3, 0),
    (5, 3, 0),
    (1, 3, 1),
    (5, 7, 0),
    (5, 9, 0),
    (7, 9, 0),
    (8, 9, 0),
    (9, 9, 0),
    (6, 9, 1),
];

#[test]
fn a_design_has_its_sides_and_dots(rt: HostRuntime) -> Result<(), Fail> {
    let design = read_design(rt.alloc(), EXAMPLE.as_bytes())?;
    has_sides(&rt, &design, 1, 2);
    let dots = design.dots().iter().map(|dot| (dot.n, dot.m, dot.l));
    holds(&rt, dots.eq(DOTS.iter().copied()), "these dots");
    Ok(())
}

// Asserts which sides a design has.
fn has_sides(rt: &impl Abort, design: &Design, w: u32, h: u32) {
    let ratio = design.ratio();
    is_number(rt, u64::from(ratio.w), u64::from(w), "columns");
    is_number(rt, u64::from(ratio.h), u64::from(h), "rows");
}

#[test]
fn a_whole_text_is_written_as_it_was_read(rt: HostRuntime) -> Result<(), Fail> {
    is_rewritten(&rt, rt.alloc(), EXAMPLE.as_bytes(), "example")?;
    is_rewritten(&rt, rt.alloc(), INVERTER.as_bytes(), "inverter")
}

// Dots, each list in order.
const LISTS: &[&str] = &[
    "",
    "<dbdot><latcoord n=\"0\" m=\"0\" l=\"0\"/></dbdot>\n",
    "<dbdot><latcoord n=\"99999\" m=\"99999\" l=\"1\"/></dbdot>\n",
    "<dbdot><latcoord n=\"9\" m=\"1\" l=\"0\"/></dbdot>\n<dbdot><latcoord n=\"8\" m=\"1\" l=\"1\"/></dbdot>\n",
    "<dbdot><latcoord n=\"9\" m=\"1\" l=\"1\"/></dbdot>\n<dbdot><latcoord n=\"8\" m=\"2\" l=\"0\"/></dbdot>\n",
    "<dbdot><latcoord n=\"8\" m=\"1\" l=\"1\"/></dbdot>\n<dbdot><latcoord n=\"10\" m=\"1\" l=\"1\"/></dbdot>\n",
];

#[test]
fn dots_are_written_as_they_were_read(rt: HostRuntime) -> Result<(), Fail> {
    for &dots in LISTS {
        let text = joined(rt.alloc(), HEAD, dots, END)?;
        is_rewritten(&rt, rt.alloc(), &text, dots)?;
    }
    Ok(())
}

// Asserts that a text is written as it was read.
fn is_rewritten(rt: &impl Abort, alloc: Global, text: &[u8], about: &str) -> Result<(), Fail> {
    let written = rewritten(alloc, text)?;
    are_bytes(rt, &written, text, about);
    Ok(())
}

// What is written for the design of a text.
fn rewritten(alloc: Global, text: &[u8]) -> Result<Vec<u8>, Fail> {
    text_of(alloc, &read_design(alloc, text)?)
}

// What is written for a design.
fn text_of(alloc: Global, design: &Design) -> Result<Vec<u8>, Fail> {
    let mut desk = roomy(alloc)?;
    let mut piece = Piece::to_say();
    write_design(design.ratio(), design.dots(), &mut piece, &mut desk)?;
    piece.end(&mut desk)?;
    Ok(Vec::from_slice(alloc, desk.said())?)
}

// A desk with room for what is said.
fn roomy(alloc: Global) -> Result<MemDesk, NoMemory> {
    let mut desk = MemDesk::new(alloc);
    desk.say_room(4000)?;
    Ok(desk)
}

// A text in three parts.
fn joined(alloc: Global, head: &str, dots: &str, end: &str) -> Result<Vec<u8>, NoMemory> {
    let mut bytes = Vec::new(alloc);
    for part in [head, dots, end] {
        bytes.extend_from_slice(part.as_bytes())?;
    }
    Ok(bytes)
}

#[test]
fn a_design_is_made_of_parts(rt: HostRuntime) -> Result<(), Fail> {
    let design = read_design(rt.alloc(), EXAMPLE.as_bytes())?;
    let ratio = design.ratio();
    let written = text_of(rt.alloc(), &Design::new(ratio, design.into_dots()))?;
    are_bytes(&rt, &written, EXAMPLE.as_bytes(), "the same design");
    Ok(())
}

#[test]
fn a_design_may_have_no_dots(rt: HostRuntime) -> Result<(), Fail> {
    let empty = Design::new(Ratio { w: 144, h: 3 }, Vec::new(rt.alloc()));
    let written = text_of(rt.alloc(), &empty)?;
    let design = read_design(rt.alloc(), &written)?;
    has_sides(&rt, &design, 144, 3);
    is_number(&rt, design.into_dots().len() as u64, 0, "dots");
    Ok(())
}

#[test]
fn a_desk_that_fails_has_a_front(rt: HostRuntime) -> Result<(), Fail> {
    let mut desk = roomy(rt.alloc())?;
    desk.fail_at(1, 20)?;
    holds(
        &rt,
        fails_at_its_end(rt.alloc(), &mut desk)?,
        "the end alone",
    );
    are_bytes(&rt, desk.said(), b"<?xml version=\"1.0\" ", "a front");
    Ok(())
}

// Whether the example is put out well, and then can't be handed on.
fn fails_at_its_end(alloc: Global, desk: &mut MemDesk) -> Result<bool, DesignFault> {
    let design = read_design(alloc, EXAMPLE.as_bytes())?;
    let mut piece = Piece::to_say();
    let put = write_design(design.ratio(), design.dots(), &mut piece, desk);
    Ok(put.is_ok() && piece.end(desk).is_err())
}

#[test]
fn a_cut_is_told_at_its_line(rt: HostRuntime) {
    are_cuts_told(&rt, rt.alloc(), EXAMPLE.as_bytes());
    are_cuts_told(&rt, rt.alloc(), INVERTER.as_bytes());
}

// Asserts that each front of a text is refused at its last line.
fn are_cuts_told(rt: &impl Abort, alloc: Global, text: &[u8]) {
    for end in 0..text.len() {
        let front = &text[..end];
        assert_eq!(rt; bad_line(alloc, front), last_line(front), "{end} bytes");
    }
}

// The number of the last line, behind the last line feed.
fn last_line(text: &[u8]) -> u64 {
    let feeds = text.iter().filter(|byte| **byte == b'\n').count() as u64;
    feeds.saturating_add(1)
}

// The line that is told as the first bad one, or 0 where none is told.
fn bad_line(alloc: Global, text: &[u8]) -> u64 {
    match read_design(alloc, text) {
        Err(DesignFault::BadDesign(line)) => line,
        _ => 0,
    }
}

// What stands in the head, what stands there instead, and the first bad line.
const HEADS: &[(&str, &str, u64)] = &[
    (
        "<?xml version=\"1.0\" encoding=\"UTF-8\"?>",
        "<?xml version=\"1.0\"?>",
        1,
    ),
    ("<siqad>", "<SiQAD>", 2),
    ("<siqad>\n", "<siqad>\r\n", 2),
    ("<program>\n", "", 3),
    ("save", "simulation", 4),
    ("bestagon 1 1", "bestagon 0 1", 5),
    ("bestagon 1 1", "bestagon 1 0", 5),
    ("bestagon 1 1", "bestagon 145 1", 5),
    ("bestagon 1 1", "bestagon 1 145", 5),
    ("bestagon 1 1", "bestagon 01 1", 5),
    ("bestagon 1 1", "bestagon 1  1", 5),
    ("bestagon 1 1", "bestagon 1 1 1", 5),
    ("bestagon 1 1", "bestagon 1", 5),
    ("</program>", "<program>", 6),
    ("<layers>", "</layers>", 7),
    ("DB", "db", 8),
    ("</layers>\n", "</layers>\n\n", 10),
    ("<design>", "</design>", 10),
    ("<layer type=\"DB\">", "<layer>", 11),
];

#[test]
fn a_bad_head_is_told(rt: HostRuntime) -> Result<(), Fail> {
    for &(old, new, line) in HEADS {
        let text = with_head(rt.alloc(), old, new)?;
        is_number(&rt, bad_line(rt.alloc(), &text), line, new);
    }
    Ok(())
}

// A design's text without dots, in whose head one part stands for another.
fn with_head(alloc: Global, old: &str, new: &str) -> Result<Vec<u8>, Fail> {
    let (front, back) = HEAD.split_once(old).ok_or("a part of the head")?;
    let mut text = joined(alloc, front, new, back)?;
    text.extend_from_slice(END.as_bytes())?;
    Ok(text)
}

// The dots, what ends them, and the first bad line.
const DOT_LINES: &[(&str, &str, u64)] = &[
    // the order
    (
        "<dbdot><latcoord n=\"2\" m=\"3\" l=\"0\"/></dbdot>\n<dbdot><latcoord n=\"1\" m=\"1\" l=\"0\"/></dbdot>\n",
        END,
        13,
    ),
    (
        "<dbdot><latcoord n=\"1\" m=\"1\" l=\"1\"/></dbdot>\n<dbdot><latcoord n=\"2\" m=\"1\" l=\"0\"/></dbdot>\n",
        END,
        13,
    ),
    (
        "<dbdot><latcoord n=\"2\" m=\"1\" l=\"1\"/></dbdot>\n<dbdot><latcoord n=\"1\" m=\"1\" l=\"1\"/></dbdot>\n",
        END,
        13,
    ),
    (
        "<dbdot><latcoord n=\"1\" m=\"1\" l=\"0\"/></dbdot>\n<dbdot><latcoord n=\"1\" m=\"1\" l=\"0\"/></dbdot>\n",
        END,
        13,
    ),
    // ranges
    (
        "<dbdot><latcoord n=\"100000\" m=\"0\" l=\"0\"/></dbdot>\n",
        END,
        12,
    ),
    (
        "<dbdot><latcoord n=\"0\" m=\"100000\" l=\"0\"/></dbdot>\n",
        END,
        12,
    ),
    (
        "<dbdot><latcoord n=\"0\" m=\"0\" l=\"2\"/></dbdot>\n",
        END,
        12,
    ),
    // other spellings
    (
        "<dbdot><latcoord n=\"00\" m=\"0\" l=\"0\"/></dbdot>\n",
        END,
        12,
    ),
    (
        "<dbdot><latcoord n=\"-1\" m=\"0\" l=\"0\"/></dbdot>\n",
        END,
        12,
    ),
    (
        "<dbdot><latcoord m=\"0\" n=\"0\" l=\"0\"/></dbdot>\n",
        END,
        12,
    ),
    (
        "<dbdot><latcoord n=\"0\" m=\"0\" l=\"0\"></dbdot>\n",
        END,
        12,
    ),
    (
        "<dbdot><latcoord n=\"0\" m=\"0\" l=\"0\"/></dbdot>\r\n",
        END,
        12,
    ),
    (
        " <dbdot><latcoord n=\"0\" m=\"0\" l=\"0\"/></dbdot>\n",
        END,
        12,
    ),
    ("\n", END, 12),
    // the lines behind the dots
    ("", "</layer>\n</siqad>\n", 13),
    ("", "</layer>\n</design>\n", 14),
    ("", "</layer>\n</design>\n</siqad>\n\n", 15),
    ("", "</layer>\n</design>\n</siqad>\nx", 15),
    (
        "<dbdot><latcoord n=\"0\" m=\"0\" l=\"0\"/></dbdot>\n",
        "</design>\n</siqad>\n",
        13,
    ),
    (
        "",
        "</layer>\n<dbdot><latcoord n=\"0\" m=\"0\" l=\"0\"/></dbdot>\n</design>\n</siqad>\n",
        13,
    ),
];

#[test]
fn the_first_bad_line_is_told(rt: HostRuntime) -> Result<(), Fail> {
    for &(dots, end, line) in DOT_LINES {
        let text = joined(rt.alloc(), HEAD, dots, end)?;
        let about = if dots.is_empty() { end } else { dots };
        is_number(&rt, bad_line(rt.alloc(), &text), line, about);
    }
    Ok(())
}

#[test]
fn messages(rt: HostRuntime) -> Result<(), Fail> {
    let bad = message(rt.alloc(), DesignFault::BadDesign(3))?;
    is_text(
        &rt,
        bad.as_str(),
        "line 3 is no line of a design",
        "a bad line",
    );
    let none = message(rt.alloc(), DesignFault::NoMemory)?;
    is_text(&rt, none.as_str(), "out of memory", "no memory");
    Ok(())
}

fn message(alloc: Global, fault: DesignFault) -> Result<String, AllocError> {
    format!(in alloc; "{fault}")
}
