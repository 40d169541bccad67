//! The assertions, so that each is proved once for all tests.

use std::process::Abort;

pub fn is_true(rt: &impl Abort, found: bool) {
    assert!(rt; found);
}

pub fn is_number(rt: &impl Abort, found: u64, wanted: u64) {
    assert_eq!(rt; found, wanted);
}

/// The same for the row of a table, by its place there.
pub fn is_bool_in_row(rt: &impl Abort, row: usize, found: bool, wanted: bool) {
    assert!(rt; found == wanted, "row {row}");
}

/// A text for the row of a table, by its place there.
pub fn is_text_in_row(rt: &impl Abort, row: usize, found: &str, wanted: &str) {
    assert_eq!(rt; found, wanted, "row {row}");
}
