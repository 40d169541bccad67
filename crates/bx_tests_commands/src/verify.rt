//! `verify`: what is said of designs and certificates, whoever made them.

use crate::designs::{Dot, LONG_DOTS, WIRE_DOTS, design_text, rewritten};
use crate::runs::{LONG_CERT, VERIFY, desk_with_both, ends_saying, run_words};
use std::test::Fail;

// In the certificate: which line is replaced first, how many are, what stands there then, the exit status, and what is
// said.
const CERTS: &[(usize, usize, &[&str], u64, &str)] = &[
    (0, 0, &[], 0, "minimal 1 3 limits 100 144 144\n"),
    (1, 1, &["limits 99 1 3 0"], 7, "wrong missing 2\n"),
    (4, 1, &["46 0 11 1 5 2 14 29 18 45 0"], 7, "wrong proof 1\n"),
    (4, 1, &["46 0 11 1 5 2 13 29 18 0"], 7, "wrong proof 1\n"),
    (5, 1, &[], 7, "wrong missing 2\n"),
    (7, 2, &["place 0 2", "place 0 0"], 7, "wrong network 3\n"),
    (7, 1, &[], 7, "wrong network 3\n"),
    (6, 3, &["none"], 7, "wrong last 3\n"),
    (6, 3, &["undecided 1 3 0"], 7, "wrong last 3\n"),
    (4, 1000, &["46 0 11 1"], 1, "refused bad cert 5\n"),
    (10, 0, &["end"], 1, "refused bad cert 11\n"),
    (1, 1, &["limits 145 144 144 0"], 1, "refused bad cert 2\n"),
];

#[test]
fn certificates_are_judged(rt: HostRuntime) -> Result<(), Fail> {
    let design = design_text(rt.alloc(), 3, LONG_DOTS)?;
    for &(first, replaced, lines, code, said) in CERTS {
        let cert = rewritten(rt.alloc(), LONG_CERT, first, replaced, lines)?;
        let mut desk = desk_with_both(rt.alloc(), design.as_str(), cert.as_str())?;
        let status = run_words(&rt, rt.alloc(), VERIFY, &mut desk)?;
        ends_saying(&rt, &status, &desk, code, said);
    }
    Ok(())
}

// Of the first lines of a certificate the line behind them is missing.
#[test]
fn a_certificate_that_ends_early_is_refused(rt: HostRuntime) -> Result<(), Fail> {
    let design = design_text(rt.alloc(), 3, LONG_DOTS)?;
    for lines in 0..10_usize {
        let cert = rewritten(rt.alloc(), LONG_CERT, lines, 1000, &[])?;
        let mut desk = desk_with_both(rt.alloc(), design.as_str(), cert.as_str())?;
        let status = run_words(&rt, rt.alloc(), VERIFY, &mut desk)?;
        let said = format!(in rt.alloc(); "refused bad cert {}\n", lines + 1)?;
        ends_saying(&rt, &status, &desk, 1, said.as_str());
    }
    Ok(())
}

// How many rows a design has, its dots, which line is left out (behind the last is none), the exit status, and what is
// said.
const DESIGNS: &[(u32, &[Dot], usize, u64, &str)] = &[
    (2, WIRE_DOTS, 1000, 7, "wrong size 3\n"),
    (3, LONG_DOTS, 11, 7, "wrong dots 3\n"),
    (3, &[], 1000, 7, "wrong network 3\n"),
    (3, LONG_DOTS, 0, 1, "refused bad design 1\n"),
];

#[test]
fn designs_are_judged(rt: HostRuntime) -> Result<(), Fail> {
    for &(rows, dots, without, code, said) in DESIGNS {
        let whole = design_text(rt.alloc(), rows, dots)?;
        let design = rewritten(rt.alloc(), whole.as_str(), without, 1, &[])?;
        let mut desk = desk_with_both(rt.alloc(), design.as_str(), LONG_CERT)?;
        let status = run_words(&rt, rt.alloc(), VERIFY, &mut desk)?;
        ends_saying(&rt, &status, &desk, code, said);
    }
    Ok(())
}

// Words, and what is told first of files of which several are wrong.
const ORDER: &[(&str, u64, &str)] = &[
    (
        "verify lib.json net.v net.v net.v",
        1,
        "refused not taken 0 concat\n",
    ),
    ("verify net.v net.v net.v net.v", 1, "refused json\n"),
    (
        "verify net.v lib.json net.v net.v",
        1,
        "refused bad design 1\n",
    ),
    (
        "verify net.v lib.json out.sqd net.v",
        1,
        "refused bad cert 1\n",
    ),
    (
        "verify net.v lib.json out.sqd out.cert --workers 1",
        0,
        "minimal 1 3 limits 100 144 144\n",
    ),
];

#[test]
fn the_first_fault_is_told(rt: HostRuntime) -> Result<(), Fail> {
    let design = design_text(rt.alloc(), 3, LONG_DOTS)?;
    for &(line, code, said) in ORDER {
        let mut desk = desk_with_both(rt.alloc(), design.as_str(), LONG_CERT)?;
        let status = run_words(&rt, rt.alloc(), line, &mut desk)?;
        ends_saying(&rt, &status, &desk, code, said);
    }
    Ok(())
}
