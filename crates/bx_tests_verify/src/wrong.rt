//! A wire whose output can't be read at its left, so that it takes three rows: its design and certificate as they are
//! right, and each of their parts wrong. The steps come from another program.

use crate::made::{Place, design, net};
use crate::sample::sample_without;
use crate::told::says;
use bx_cert::read_cert;
use std::alloc::Global;
use std::process::Abort;
use std::test::Fail;
use std::thread::Threads;

const WIRE: &str = "module m(a, y); input a; output y; assign y = a; endmodule";

// Forms that the library lacks: an output that is read at its left, and a wire on the left.
const OUTPUT_L: u8 = 2;

const WIRE_LL: u8 = 4;

// An input that goes on to the lower right, a wire from the upper left to the lower left, and an output that is read
// at its right.
const LONG: &[Place] = &[
    (1, 1, 0),
    (2, 3, 0),
    (3, 3, 0),
    (4, 3, 0),
    (5, 3, 0),
    (1, 3, 1),
    (5, 7, 0),
    (5, 9, 0),
    (6, 9, 0),
    (8, 9, 0),
    (9, 9, 0),
    (7, 9, 1),
    (1, 13, 0),
    (3, 15, 0),
    (4, 15, 0),
    (5, 15, 0),
    (1, 15, 1),
    (2, 15, 1),
];

// An input that goes on to the lower right, and an output that is read at its left.
const SHORT: &[Place] = &[
    (1, 1, 0),
    (2, 3, 0),
    (3, 3, 0),
    (4, 3, 0),
    (5, 3, 0),
    (1, 3, 1),
    (5, 7, 0),
    (5, 9, 0),
    (7, 9, 0),
    (8, 9, 0),
    (9, 9, 0),
    (6, 9, 1),
];

// A certificate's lines behind its first two, and what is said of it. The design is the right one.
const CERTS: &[(&str, &str, &str)] = &[
    (
        "100 144 144",
        "count 1 1 late 0\nclauses 1 2 1\n46 0 11 1 5 2 13 29 18 45 0\ncount 2 1 late 0\nfound 1 3\nplace 0 0\nplace 0 2\n",
        "minimal 1 3",
    ),
    // within a width of 1 there is no ratio of two columns
    (
        "100 1 144",
        "count 1 1 late 0\nclauses 1 2 1\n46 0 11 1 5 2 13 29 18 45 0\nfound 1 3\nplace 0 0\nplace 0 2\n",
        "minimal 1 3",
    ),
    // it ends with none, or undecided
    (
        "2 144 144",
        "count 1 1 late 0\nclauses 1 2 1\n49 0 11 1 13 29 18 46 0\ncount 2 1 late 0\nnone\n",
        "wrong last 3",
    ),
    (
        "100 144 144",
        "count 1 1 late 0\nundecided 1 2 0\n",
        "wrong last 1",
    ),
    // a ratio is left out, stands there though it isn't within the width, or is past the end of the order
    (
        "100 144 144",
        "count 1 1 late 0\nclauses 1 2 1\n46 0 11 1 5 2 13 29 18 45 0\nfound 1 3\nplace 0 0\nplace 0 2\n",
        "wrong missing 2",
    ),
    (
        "100 1 144",
        "count 1 1 late 0\nclauses 1 2 1\n46 0 11 1 5 2 13 29 18 45 0\ncount 2 1 late 0\nfound 1 3\nplace 0 0\nplace 0 2\n",
        "wrong missing 2",
    ),
    (
        "1 144 144",
        "count 1 1 late 0\nfound 1 3\nplace 0 0\nplace 0 2\n",
        "wrong missing 1",
    ),
    (
        "100 144 144",
        "found 1 3\nplace 0 0\nplace 0 2\n",
        "wrong missing 0",
    ),
    // a hint is another, or is left out, or the log is none of this formula
    (
        "100 144 144",
        "count 1 1 late 0\nclauses 1 2 1\n46 0 11 1 5 2 14 29 18 45 0\ncount 2 1 late 0\nfound 1 3\nplace 0 0\nplace 0 2\n",
        "wrong proof 1",
    ),
    (
        "100 144 144",
        "count 1 1 late 0\nclauses 1 2 1\n46 0 11 1 5 2 13 29 18 0\ncount 2 1 late 0\nfound 1 3\nplace 0 0\nplace 0 2\n",
        "wrong proof 1",
    ),
    (
        "100 144 144",
        "count 1 1 late 0\nclauses 1 2 1\n47 0 11 1 5 2 13 29 18 45 0\ncount 2 1 late 0\nfound 1 3\nplace 0 0\nplace 0 2\n",
        "wrong proof 1",
    ),
    // a count doesn't hold: in the middle, at the last section, and of another kind
    (
        "100 144 144",
        "count 1 1 late 0\ncount 1 2 late 0\ncount 2 1 late 0\nfound 1 3\nplace 0 0\nplace 0 2\n",
        "wrong proof 1",
    ),
    (
        "100 144 144",
        "count 1 1 late 0\nclauses 1 2 1\n46 0 11 1 5 2 13 29 18 45 0\ncount 2 1 late 2\nfound 1 3\nplace 0 0\nplace 0 2\n",
        "wrong proof 2",
    ),
    (
        "100 144 144",
        "count 1 1 late 0\nclauses 1 2 1\n46 0 11 1 5 2 13 29 18 45 0\ncount 2 1 cut 0\nfound 1 3\nplace 0 0\nplace 0 2\n",
        "wrong proof 2",
    ),
    // places are exchanged, on another tile, beside the grid, below it, too few and too many
    (
        "100 144 144",
        "count 1 1 late 0\nclauses 1 2 1\n46 0 11 1 5 2 13 29 18 45 0\ncount 2 1 late 0\nfound 1 3\nplace 0 2\nplace 0 0\n",
        "wrong network 3",
    ),
    (
        "100 144 144",
        "count 1 1 late 0\nclauses 1 2 1\n46 0 11 1 5 2 13 29 18 45 0\ncount 2 1 late 0\nfound 1 3\nplace 0 0\nplace 0 1\n",
        "wrong network 3",
    ),
    (
        "100 144 144",
        "count 1 1 late 0\nclauses 1 2 1\n46 0 11 1 5 2 13 29 18 45 0\ncount 2 1 late 0\nfound 1 3\nplace 0 0\nplace 1 1\n",
        "wrong network 3",
    ),
    (
        "100 144 144",
        "count 1 1 late 0\nclauses 1 2 1\n46 0 11 1 5 2 13 29 18 45 0\ncount 2 1 late 0\nfound 1 3\nplace 0 0\nplace 0 4294967295\n",
        "wrong network 3",
    ),
    (
        "100 144 144",
        "count 1 1 late 0\nclauses 1 2 1\n46 0 11 1 5 2 13 29 18 45 0\ncount 2 1 late 0\nfound 1 3\n",
        "wrong network 3",
    ),
    (
        "100 144 144",
        "count 1 1 late 0\nclauses 1 2 1\n46 0 11 1 5 2 13 29 18 45 0\ncount 2 1 late 0\nfound 1 3\nplace 0 0\nplace 0 2\nplace 0 1\n",
        "wrong network 3",
    ),
];

#[test]
fn the_first_part_of_a_certificate_that_fails_is_told(rt: HostRuntime) -> Result<(), Fail> {
    for &(limits, lines, wanted) in CERTS {
        says_of(
            &rt,
            rt.alloc(),
            &[OUTPUT_L],
            (1, 3, LONG),
            limits,
            lines,
            wanted,
        )?;
    }
    Ok(())
}

// Asserts what is said of a wire, where the library lacks these forms, the design has these sides and dots, and the
// certificate these limits and lines.
fn says_of<R: Threads + Abort + Sync>(
    rt: &R,
    alloc: Global,
    left_out: &[u8],
    (w, h, dots): (u32, u32, &[Place]),
    limits: &str,
    lines: &str,
    wanted: &str,
) -> Result<(), Fail> {
    let text = format!(in alloc; "bestagon cert 1\nlimits {limits} 100000\n{lines}end\n")?;
    let cert = read_cert(alloc, text.as_bytes())?;
    let net = net(alloc, WIRE)?;
    let library = sample_without(alloc, left_out)?;
    let design = design(alloc, w, h, dots)?;
    says(rt, alloc, &net, &library, &design, &cert, wanted)
}

// The certificate's lines that are right, those with a wrong hint, and those of too short a design.
const RIGHT: &str =
    "count 1 1 late 0\nclauses 1 2 1\n46 0 11 1 5 2 13 29 18 45 0\ncount 2 1 late 0\nfound 1 3\nplace 0 0\nplace 0 2\n";

const WRONG_HINT: &str =
    "count 1 1 late 0\nclauses 1 2 1\n46 0 11 1 5 2 14 29 18 45 0\ncount 2 1 late 0\nfound 1 3\nplace 0 0\nplace 0 2\n";

const TOO_SHORT: &str = "count 1 1 late 0\nfound 1 2\nplace 0 0\nplace 0 1\n";

// Forms that the library lacks, the rows and dots of a design of one column, how many of these dots are left out, the
// certificate's lines, and what is said.
type Case = (
    &'static [u8],
    (u32, &'static [Place], usize),
    &'static str,
    &'static str,
);

const DESIGNS: &[Case] = &[
    // another ratio, whose dots can't be read, and whose proof is wrong too
    (&[OUTPUT_L], (2, SHORT, 0), RIGHT, "wrong size 3"),
    (&[OUTPUT_L], (3, SHORT, 0), RIGHT, "wrong dots 3"),
    (&[OUTPUT_L], (2, SHORT, 0), WRONG_HINT, "wrong proof 1"),
    // no dot, one that lies in no tile, and none in the first tile or in the one between
    (&[OUTPUT_L], (3, &[], 0), RIGHT, "wrong network 3"),
    (&[OUTPUT_L], (3, &[(0, 7, 0)], 0), RIGHT, "wrong dots 3"),
    (&[OUTPUT_L], (3, LONG, 1), RIGHT, "wrong dots 3"),
    (&[OUTPUT_L], (3, LONG, 6), RIGHT, "wrong network 3"),
    // where the library has all forms the ratio before has a layout, so no log is accepted
    (&[], (3, LONG, 0), RIGHT, "wrong proof 1"),
    // with another form left out the formula is another
    (&[OUTPUT_L, WIRE_LL], (3, LONG, 0), RIGHT, "wrong proof 1"),
    // a form of the design isn't offered
    (&[OUTPUT_L], (2, SHORT, 0), TOO_SHORT, "wrong dots 1"),
];

#[test]
fn the_first_part_of_a_design_that_fails_is_told(rt: HostRuntime) -> Result<(), Fail> {
    for &(left_out, (h, dots, skipped), lines, wanted) in DESIGNS {
        let dots = dots.get(skipped..).ok_or("there are so many dots")?;
        let design = (1, h, dots);
        says_of(
            &rt,
            rt.alloc(),
            left_out,
            design,
            "100 144 144",
            lines,
            wanted,
        )?;
    }
    Ok(())
}

#[test]
fn a_net_without_a_network_is_told(rt: HostRuntime) -> Result<(), Fail> {
    let text = "module m(a, y); input a; output y; assign y = a & 1'b0; endmodule";
    is_unmapped(&rt, rt.alloc(), text, "constant 0")?;
    let chain = chain_text(rt.alloc(), 95)?;
    is_unmapped(&rt, rt.alloc(), chain.as_str(), "nodes 97")
}

// Asserts what is said of a module, whatever the design and the certificate are.
fn is_unmapped<R: Threads + Abort + Sync>(
    rt: &R,
    alloc: Global,
    text: &str,
    wanted: &str,
) -> Result<(), Fail> {
    let net = net(alloc, text)?;
    let library = sample_without(alloc, &[])?;
    let design = design(alloc, 1, 2, SHORT)?;
    let cert = read_cert(alloc, b"bestagon cert 1\nlimits 1 1 1 0\nnone\nend\n")?;
    says(rt, alloc, &net, &library, &design, &cert, wanted)
}

// So many inversions in a chain.
fn chain_text(alloc: Global, count: u32) -> Result<String, Fail> {
    let mut text = String::new(alloc);
    text.push_str(format!(in alloc;
        "module m(v0, v{count}); input v0; output v{count};"
    )?.as_str())?;
    for k in 0..count {
        text.push_str(format!(in alloc; "not(v{}, v{k});", k + 1)?.as_str())?;
    }
    text.push_str("endmodule")?;
    Ok(text)
}
