//! The asserts of this crate, each one function: a test that compares at many places costs the check much
//! more than one that calls these. `of` says of which text or words something is told.

use std::process::Abort;

/// Two numbers, or none, are the same.
pub fn is_found(rt: &impl Abort, of: &str, found: Option<u64>, wanted: Option<u64>) {
    assert_eq!(rt; found, wanted, "{of}");
}

/// Two exit statuses are the same.
pub fn is_status(rt: &impl Abort, of: &str, found: u8, wanted: u8) {
    assert_eq!(rt; found, wanted, "{of}");
}

/// Something is so, or not.
pub fn is_so(rt: &impl Abort, of: &str, found: bool, wanted: bool) {
    assert_eq!(rt; found, wanted, "{of}");
}

/// Two texts are the same.
pub fn is_text(rt: &impl Abort, of: &str, found: &str, wanted: &str) {
    assert_eq!(rt; found, wanted, "{of}");
}

/// Bytes are those of a text.
pub fn is_said(rt: &impl Abort, of: &str, found: &[u8], wanted: &str) {
    assert_eq!(rt; found, wanted.as_bytes(), "{of}");
}
