//! Certificates as texts, both ways; their parts; and texts that are none, with their first bad line.

use crate::asserts::{are_bytes, holds, is_number, is_text};
use bx_cert::{Cert, CertFault, CertLast, Section, Sections, Spots, read_cert, write_cert};
use bx_desk::{Failed, MemDesk, Piece};
use bx_grid::{CountProof, Limits};
use bx_logic::NoMemory;
use bx_proof::Refutation;
use std::alloc::{AllocError, Global};
use std::process::Abort;
use std::test::Fail;

// An input above an output, whose layout takes no wire.
const REPEATER: &str =
    "bestagon cert 1\nlimits 100 144 144 100000\ncount 1 1 late 0\nfound 1 2\nplace 0 0\nplace 0 1\nend\n";

// The same where an output can't be read at its left: the ratio of 1 and 2 is refuted by steps.
const WIRED: &str =
    "bestagon cert 1\nlimits 100 144 144 100000\ncount 1 1 late 0\nclauses 1 2 1\n46 0 11 1 5 2 13 29 18 45 0\ncount 2 1 late 0\nfound 1 3\nplace 0 0\nplace 0 2\nend\n";

// The same without inputs, within an area of 2.
const NONE: &str =
    "bestagon cert 1\nlimits 2 144 144 100000\ncount 1 1 late 0\nclauses 1 2 1\n49 0 11 1 13 29 18 46 0\ncount 2 1 late 0\nnone\nend\n";

// The same with too small a budget.
const GAVE_UP: &str =
    "bestagon cert 1\nlimits 2 144 144 5\ncount 1 1 late 0\nundecided 1 2 0\nend\n";

// The repeater within an area of 1.
const TOO_SMALL: &str = "bestagon cert 1\nlimits 1 144 144 100000\ncount 1 1 late 0\nnone\nend\n";

// All kinds of lines, with their numbers at their ends.
const EDGES: &str =
    "bestagon cert 1\nlimits 1 144 1 67108864\ncount 144 144 late 4294967295\ncount 1 1 crowd 0 4294967295\ncount 1 1 cut 0\ncount 1 144 pair 4294967295 0\nclauses 1 1 2\n4294967294 -2147483647 0 4294967293 0\n4294967295 0 1 4294967294 0\nundecided 144 144 4294967295\nend\n";

// Texts of certificates.
const TEXTS: &[&str] = &[
    REPEATER,
    WIRED,
    NONE,
    GAVE_UP,
    TOO_SMALL,
    EDGES,
    "bestagon cert 1\nlimits 144 144 144 0\nnone\nend\n",
    "bestagon cert 1\nlimits 144 144 144 0\nfound 1 1\nend\n",
];

#[test]
fn a_text_is_written_as_it_was_read(rt: HostRuntime) -> Result<(), Fail> {
    for &text in TEXTS {
        let written = rewritten(rt.alloc(), text)?;
        are_bytes(&rt, &written, text.as_bytes(), text);
    }
    Ok(())
}

// What is written for the certificate of a text.
fn rewritten(alloc: Global, text: &str) -> Result<Vec<u8>, Fail> {
    text_of(alloc, &read_cert(alloc, text.as_bytes())?)
}

// What is written for a certificate.
fn text_of(alloc: Global, cert: &Cert) -> Result<Vec<u8>, Fail> {
    let mut desk = roomy(alloc)?;
    say(cert, &mut desk)?;
    Ok(Vec::from_slice(alloc, desk.said())?)
}

// Says a certificate.
fn say(cert: &Cert, desk: &mut MemDesk) -> Result<(), Failed> {
    let mut piece = Piece::to_say();
    write_cert(cert, &mut piece, desk)?;
    piece.end(desk)
}

// A desk with room for what is said.
fn roomy(alloc: Global) -> Result<MemDesk, NoMemory> {
    let mut desk = MemDesk::new(alloc);
    desk.say_room(1000)?;
    Ok(desk)
}

#[test]
fn a_certificate_has_its_limits_and_budget(rt: HostRuntime) -> Result<(), Fail> {
    let cert = read_cert(rt.alloc(), WIRED.as_bytes())?;
    let Limits {
        area,
        width,
        height,
    } = cert.limits();
    holds(&rt, area == 100 && width == 144 && height == 144, "limits");
    is_number(&rt, cert.budget(), 100_000, "budget");
    Ok(())
}

#[test]
fn a_certificate_has_its_sections(rt: HostRuntime) -> Result<(), Fail> {
    let cert = read_cert(rt.alloc(), WIRED.as_bytes())?;
    let sections = cert.sections().as_slice();
    has_ratios(&rt, sections);
    holds(&rt, is_late(sections.get(2), 0), "a count");
    holds(&rt, has_steps(sections.get(1), 46, 1), "steps");
    Ok(())
}

// Asserts that the sections are those of three ratios, in order.
fn has_ratios(rt: &impl Abort, sections: &[Section]) {
    let sides = sections
        .iter()
        .map(|section| (section.ratio.w, section.ratio.h));
    holds(rt, sides.eq([(1, 1), (1, 2), (2, 1)]), "ratios");
}

// Whether a section is refuted as late at this node.
fn is_late(section: Option<&Section>, wanted: u32) -> bool {
    match section.map(|section| &section.proof) {
        Some(Refutation::Count(CountProof::Late { node })) => *node == wanted,
        _ => false,
    }
}

// Whether a section is refuted by so many steps, of which the first has this number.
fn has_steps(section: Option<&Section>, first: u32, count: u32) -> bool {
    match section.map(|section| &section.proof) {
        Some(Refutation::Clauses(steps)) => steps.first() == first && steps.len() == count,
        _ => false,
    }
}

#[test]
fn a_certificate_has_its_end(rt: HostRuntime) -> Result<(), Fail> {
    let cert = read_cert(rt.alloc(), WIRED.as_bytes())?;
    let CertLast::Found(ratio, spots) = cert.last() else {
        return Err("found".into());
    };
    holds(&rt, ratio.w == 1 && ratio.h == 3, "ratio");
    holds(&rt, are_in_one_column(spots), "places");
    Ok(())
}

// Whether there are two places, in the first row and the third one of the first column.
fn are_in_one_column(spots: &Spots) -> bool {
    let places = spots.as_slice().iter().map(|spot| (spot.x, spot.y));
    places.eq([(0, 0), (0, 2)])
}

#[test]
fn a_certificate_is_made_of_parts(rt: HostRuntime) -> Result<(), Fail> {
    let limits = Limits {
        area: 1,
        width: 144,
        height: 144,
    };
    let sections = Sections::new(Vec::new(rt.alloc()));
    let cert = Cert::new(limits, 7, sections, CertLast::NoneWithin);
    let wanted = b"bestagon cert 1\nlimits 1 144 144 7\nnone\nend\n";
    are_bytes(&rt, &text_of(rt.alloc(), &cert)?, wanted, "parts");
    Ok(())
}

#[test]
fn a_desk_that_fails_has_a_front(rt: HostRuntime) -> Result<(), Fail> {
    let mut desk = roomy(rt.alloc())?;
    desk.fail_at(1, 20)?;
    holds(
        &rt,
        fails_at_its_end(rt.alloc(), &mut desk)?,
        "the end alone",
    );
    are_bytes(&rt, desk.said(), b"bestagon cert 1\nlimi", "a front");
    Ok(())
}

// Whether a certificate is put out well, and then can't be handed on.
fn fails_at_its_end(alloc: Global, desk: &mut MemDesk) -> Result<bool, CertFault> {
    let cert = read_cert(alloc, TOO_SMALL.as_bytes())?;
    let mut piece = Piece::to_say();
    let put = write_cert(&cert, &mut piece, desk);
    Ok(put.is_ok() && piece.end(desk).is_err())
}

#[test]
fn a_cut_is_told_at_its_line(rt: HostRuntime) {
    let text = WIRED.as_bytes();
    for end in 0..text.len() {
        let front = &text[..end];
        assert_eq!(rt;
            bad_line(rt.alloc(), front),
            last_line(front),
            "{end} bytes"
        );
    }
}

// The number of the last line, behind the last line feed.
fn last_line(text: &[u8]) -> u64 {
    let feeds = text.iter().filter(|byte| **byte == b'\n').count() as u64;
    feeds.saturating_add(1)
}

// The line that is told as the first bad one, or 0 where none is told.
fn bad_line(alloc: Global, text: &[u8]) -> u64 {
    match read_cert(alloc, text) {
        Err(CertFault::BadCert(line)) => line,
        _ => 0,
    }
}

#[test]
fn a_second_end_is_a_bad_line(rt: HostRuntime) -> Result<(), Fail> {
    let text = joined(rt.alloc(), WIRED, "end\n")?;
    is_number(&rt, bad_line(rt.alloc(), &text), 11, "a second end");
    Ok(())
}

// A text in two parts.
fn joined(alloc: Global, first: &str, second: &str) -> Result<Vec<u8>, NoMemory> {
    let mut bytes = Vec::from_slice(alloc, first.as_bytes())?;
    bytes.extend_from_slice(second.as_bytes())?;
    Ok(bytes)
}

// The lines in front of those below.
const HEAD: &str = "bestagon cert 1\nlimits 1 1 1 0\n";

// What stands behind the head, and the first bad line.
const LINES: &[(&str, u64)] = &[
    // behind the last line
    ("none\nend\n\n", 5),
    ("none\nend\nend\n", 5),
    ("none\nend\nx", 5),
    ("found 1 1\nplace 0 0\nend\nplace 0 0\n", 6),
    // the order of lines
    ("end\n", 3),
    ("place 0 0\nfound 1 1\nend\n", 3),
    ("found 1 1\ncount 1 1 late 0\nend\n", 4),
    ("none\nplace 0 0\nend\n", 4),
    ("undecided 1 1 0\nplace 0 0\nend\n", 4),
    ("limits 1 1 1 0\nnone\nend\n", 3),
    ("none\nnone\nend\n", 4),
    // ranges
    ("count 0 1 late 0\nnone\nend\n", 3),
    ("count 1 145 late 0\nnone\nend\n", 3),
    ("count 1 1 late 4294967296\nnone\nend\n", 3),
    ("found 145 1\nend\n", 3),
    ("found 1 1\nplace 4294967296 0\nend\n", 4),
    ("undecided 1 0 0\nend\n", 3),
    ("undecided 1 1 4294967296\nend\n", 3),
    // a count's numbers
    ("count 1 1 late 0 0\nnone\nend\n", 3),
    ("count 1 1 crowd 0\nnone\nend\n", 3),
    ("count 1 1 clauses 1\nnone\nend\n", 3),
    ("clauses 1 1 late 0\nnone\nend\n", 3),
    // so many steps, neither more nor fewer
    ("clauses 1 1 0\nnone\nend\n", 3),
    ("clauses 1 1 1\nnone\nend\n", 4),
    ("clauses 1 1 1\n2 0 1 0\n3 0 2 0\nnone\nend\n", 5),
    ("clauses 1 1 2\n2 0 1 0\nnone\nend\n", 5),
    ("clauses 1 1 2\n2 0 1 0\n4 0 1 0\nnone\nend\n", 5),
    ("clauses 1 1 2\n2 0 1 0\n3 0 1 0", 5),
    ("clauses 1 1 1\n1 0 1 0\nnone\nend\n", 4),
    // ids for so many
    ("clauses 1 1 4294967295\n2 0 1 0\n", 3),
    ("clauses 1 1 4294967294\n2 0 1 0\n", 5),
    ("clauses 1 1 4294967294\n3 0 1 0\n", 4),
    ("clauses 1 1 2\n4294967295 0 1 0\n", 4),
    ("clauses 1 1 1\n4294967295 0 1 0\nnone\nend", 6),
    // other spellings
    ("none\r\nend\n", 3),
    ("none \nend\n", 3),
    ("None\nend\n", 3),
    ("\nnone\nend\n", 3),
    ("found 1  1\nend\n", 3),
    ("found 01 1\nend\n", 3),
    ("found 1 1\nplace 0 -1\nend\n", 4),
];

#[test]
fn the_first_bad_line_is_told(rt: HostRuntime) -> Result<(), Fail> {
    for &(lines, line) in LINES {
        let text = joined(rt.alloc(), HEAD, lines)?;
        is_number(&rt, bad_line(rt.alloc(), &text), line, lines);
    }
    Ok(())
}

// Texts with a bad front, and the first bad line.
const FRONTS: &[(&str, u64)] = &[
    ("", 1),
    ("bestagon cert 2\n", 1),
    ("limits 1 1 1 0\nnone\nend\n", 1),
    ("bestagon cert 1", 1),
    ("bestagon cert 1\n", 2),
    ("bestagon cert 1\nlimits 0 1 1 0\nnone\nend\n", 2),
    ("bestagon cert 1\nlimits 145 1 1 0\nnone\nend\n", 2),
    ("bestagon cert 1\nlimits 1 145 1 0\nnone\nend\n", 2),
    ("bestagon cert 1\nlimits 1 1 145 0\nnone\nend\n", 2),
    ("bestagon cert 1\nlimits 1 1 1 67108865\nnone\nend\n", 2),
    ("bestagon cert 1\nlimits 1 1 1\nnone\nend\n", 2),
    ("bestagon cert 1\nnone\nend\n", 2),
];

#[test]
fn a_bad_front_is_told(rt: HostRuntime) {
    for &(text, line) in FRONTS {
        is_number(&rt, bad_line(rt.alloc(), text.as_bytes()), line, text);
    }
}

#[test]
fn messages(rt: HostRuntime) -> Result<(), Fail> {
    let bad = message(rt.alloc(), CertFault::BadCert(3))?;
    is_text(
        &rt,
        bad.as_str(),
        "line 3 is no line of a certificate",
        "a bad line",
    );
    let none = message(rt.alloc(), CertFault::NoMemory)?;
    is_text(&rt, none.as_str(), "out of memory", "no memory");
    Ok(())
}

fn message(alloc: Global, fault: CertFault) -> Result<String, AllocError> {
    format!(in alloc; "{fault}")
}
