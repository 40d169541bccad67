//! One assertion for each type that is compared, so that each is proved once for all tests.

use std::process::Abort;

pub fn is_number(rt: &impl Abort, found: i64, wanted: i64) {
    assert_eq!(rt; found, wanted);
}

pub fn is_count(rt: &impl Abort, found: usize, wanted: usize) {
    assert_eq!(rt; found, wanted);
}

pub fn is_bool(rt: &impl Abort, found: bool, wanted: bool) {
    assert!(rt; found == wanted);
}

/// The same for the row of a table, by its place there.
pub fn is_bool_in_row(rt: &impl Abort, row: usize, found: bool, wanted: bool) {
    assert!(rt; found == wanted, "row {row}");
}

/// The same for the row of a table, by its place there.
pub fn is_number_in_row(rt: &impl Abort, row: usize, found: i64, wanted: i64) {
    assert_eq!(rt; found, wanted, "row {row}");
}

pub fn is_text(rt: &impl Abort, found: &str, wanted: &str) {
    assert_eq!(rt; found, wanted);
}

pub fn are_numbers(rt: &impl Abort, found: &[u32], wanted: &[u32]) {
    assert_eq!(rt; found, wanted);
}

pub fn are_bools(rt: &impl Abort, found: &[bool], wanted: &[bool]) {
    assert_eq!(rt; found, wanted);
}
