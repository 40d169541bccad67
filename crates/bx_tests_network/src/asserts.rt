//! One assertion for each type that is compared, so that each is proved once for all tests.
ghost use Rattle.std.specs.Prelude.{◌≡◌};

use std::process::Abort;

pub fn is_number(rt: &impl Abort, found: u64, wanted: u64)
    ensures { found ≡ wanted }
{
    assert_eq!(rt; found, wanted);
}

pub fn is_bool(rt: &impl Abort, found: bool, wanted: bool) {
    assert!(rt; found == wanted);
}

/// The same for the row of a table, by its place there.
pub fn is_bool_in_row(rt: &impl Abort, row: usize, found: bool, wanted: bool) {
    assert!(rt; found == wanted, "row {row}");
}

/// The same for the row of a table, by its place there.
pub fn is_number_in_row(rt: &impl Abort, row: usize, found: u64, wanted: u64) {
    assert_eq!(rt; found, wanted, "row {row}");
}

/// A number or none, for the row of a table, by its place there.
pub fn is_option_in_row(rt: &impl Abort, row: usize, found: Option<u32>, wanted: Option<u32>) {
    assert_eq!(rt; found, wanted, "row {row}");
}

/// A list of numbers for the row of a table, by its place there.
pub fn are_numbers_in_row(rt: &impl Abort, row: usize, found: &[u32], wanted: &[u32]) {
    assert_eq!(rt; found, wanted, "row {row}");
}

pub fn is_text(rt: &impl Abort, found: &str, wanted: &str) {
    assert_eq!(rt; found, wanted);
}

pub fn are_bools(rt: &impl Abort, found: &[bool], wanted: &[bool]) {
    assert_eq!(rt; found, wanted);
}

/// The same for the row of a table, by its place there.
pub fn are_bools_in_row(rt: &impl Abort, row: usize, found: &[bool], wanted: &[bool]) {
    assert_eq!(rt; found, wanted, "row {row}");
}

pub fn are_bytes(rt: &impl Abort, found: &[u8], wanted: &[u8]) {
    assert_eq!(rt; found, wanted);
}
