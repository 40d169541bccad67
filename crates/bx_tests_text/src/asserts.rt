//! The asserts of this crate, one for each type that is compared: a function that compares at many places
//! costs the check much more than one that calls these.
ghost use Rattle.std.specs.Prelude.{◌≡◌};

use std::process::Abort;

/// Two numbers are the same.
pub fn is_number(rt: &impl Abort, found: u64, wanted: u64)
    ensures { found ≡ wanted }
{
    assert_eq!(rt; found, wanted);
}

/// Something is so, or not.
pub fn is_so(rt: &impl Abort, found: bool, wanted: bool) {
    assert_eq!(rt; found, wanted);
}

/// Bytes are the same.
pub fn is_bytes(rt: &impl Abort, found: &[u8], wanted: &[u8]) {
    assert_eq!(rt; found, wanted);
}

/// Bytes are those of a text in this case.
pub fn is_bytes_in(rt: &impl Abort, case: &str, found: &[u8], wanted: &str) {
    assert_eq!(rt; found, wanted.as_bytes(), "{case}");
}

/// Texts are the same in this case.
pub fn is_text_in(rt: &impl Abort, case: &str, found: &str, wanted: &str) {
    assert_eq!(rt; found, wanted, "{case}");
}

/// Texts are the same in the row of this number.
pub fn is_text_in_row(rt: &impl Abort, row: usize, found: &str, wanted: &str) {
    assert_eq!(rt; found, wanted, "row {row}");
}

/// Values are the same in this case.
pub fn are_values_in(rt: &impl Abort, case: &str, found: &[bool], wanted: &[bool]) {
    assert_eq!(rt; found, wanted, "{case}");
}

/// The numbers of nets are the same.
pub fn are_nets(rt: &impl Abort, found: &[u32], wanted: &[u32]) {
    assert_eq!(rt; found, wanted);
}
