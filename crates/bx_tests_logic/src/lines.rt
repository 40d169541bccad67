//! Tests of `bx_lines`: numbers at the front of texts, and texts with none.

use crate::asserts::{is_bytes_in, is_number_in, is_so_in};
use bx_lines::number_at;
use std::process::Abort;
use std::test::Fail;

// A text, a limit, and the number at the front with what stands behind it.
const NUMBERS: &[(&str, u64, u64, &str)] = &[
    ("0", 9, 0, ""),
    ("7 8", 9, 7, " 8"),
    ("4294967295\n", 4_294_967_295, 4_294_967_295, "\n"),
];

// A text and a limit up to which it has no number at the front.
const NO_NUMBERS: &[(&str, u64)] = &[
    ("10", 9),
    ("4294967296", 4_294_967_295),
    ("99999999999999999999999", 4_294_967_295),
    ("", 9),
    ("00", 9),
    ("01", 9),
    ("-1", 9),
    (" 1", 9),
    ("x", 9),
];

#[test]
fn a_number_has_one_spelling(rt: HostRuntime) -> Result<(), Fail> {
    for &(text, limit, number, behind) in NUMBERS {
        let (found, rest) = number_of(&rt, text, limit).ok_or("a number")?;
        is_number_in(&rt, text, found, number);
        is_bytes_in(&rt, text, rest, behind.as_bytes());
    }
    Ok(())
}

#[test]
fn what_is_spelled_otherwise_is_no_number(rt: HostRuntime) {
    for &(text, limit) in NO_NUMBERS {
        is_so_in(&rt, text, number_of(&rt, text, limit).is_some(), false);
    }
}

// The number at the front of a text. The limits of the tables fit 32 bits.
fn number_of<'t>(rt: &impl Abort, text: &'t str, limit: u64) -> Option<(u64, &'t [u8])> {
    assert!(rt; limit < 4_294_967_296);
    number_at(text.as_bytes(), limit)
}
