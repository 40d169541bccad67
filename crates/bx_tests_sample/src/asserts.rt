//! One assertion for each type that is compared, so that each is proved once for all tests.

use std::process::Abort;

/// A fact holds in this case.
pub fn holds(rt: &impl Abort, case: &str, fact: bool) {
    assert!(rt; fact, "{case}");
}

/// The number of this row of a table.
pub fn is_number_in_row(rt: &impl Abort, row: usize, found: u64, wanted: u64) {
    assert_eq!(rt; found, wanted, "row {row}");
}

/// Numbers are the same.
pub fn are_numbers(rt: &impl Abort, found: &[u64], wanted: &[u64]) {
    assert_eq!(rt; found, wanted);
}

/// Values are the same in this case.
pub fn are_values(rt: &impl Abort, case: &str, found: &[bool], wanted: &[bool]) {
    assert_eq!(rt; found, wanted, "{case}");
}

/// Bytes are those of a text.
pub fn is_text(rt: &impl Abort, found: &[u8], wanted: &str) {
    assert_eq!(rt; found, wanted.as_bytes());
}
