//! The asserts of this crate, each one function: a test that compares at many places costs the check much
//! more than one that calls these.

use std::process::Abort;

/// Two numbers are the same.
pub fn is_number(rt: &impl Abort, found: u64, wanted: u64) {
    assert_eq!(rt; found, wanted);
}

/// Two numbers, or none, are the same; `of` says of what.
pub fn is_found(rt: &impl Abort, of: &str, found: Option<u64>, wanted: Option<u64>) {
    assert_eq!(rt; found, wanted, "{of}");
}

/// Two places, or none, are the same; `of` says of which numbers.
pub fn is_place_of(rt: &impl Abort, of: &[i32], found: Option<u32>, wanted: Option<u32>) {
    assert_eq!(rt; found, wanted, "{of:?}");
}

/// Something is so, or not.
pub fn is_so(rt: &impl Abort, found: bool, wanted: bool) {
    assert_eq!(rt; found, wanted);
}

/// Something is so of these numbers, or not.
pub fn is_so_of(rt: &impl Abort, of: &[i32], found: bool, wanted: bool) {
    assert_eq!(rt; found, wanted, "{of:?}");
}

/// Two texts are the same.
pub fn is_text(rt: &impl Abort, found: &str, wanted: &str) {
    assert_eq!(rt; found, wanted);
}

/// Bytes are those of a text.
pub fn is_bytes(rt: &impl Abort, found: &[u8], wanted: &str) {
    assert_eq!(rt; found, wanted.as_bytes(), "{wanted}");
}
