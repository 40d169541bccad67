//! The asserts of the tests, one a function: a test that makes them by calls stays small for the prover. Each is
//! told what it is about, as a failure names the line here.

use std::process::Abort;

// Asserts that a fact holds.
pub(crate) fn holds(rt: &impl Abort, fact: bool, about: &str) {
    assert!(rt; fact, "{about}");
}

// Asserts which number was found.
pub(crate) fn is_number(rt: &impl Abort, found: u64, wanted: u64, about: &str) {
    assert_eq!(rt; found, wanted, "{about}");
}

// Asserts which text was found.
pub(crate) fn is_text(rt: &impl Abort, found: &str, wanted: &str, about: &str) {
    assert_eq!(rt; found, wanted, "{about}");
}

// Asserts which bytes were found.
pub(crate) fn are_bytes(rt: &impl Abort, found: &[u8], wanted: &[u8], about: &str) {
    assert_eq!(rt; found, wanted, "{about}");
}
