//! The asserts of the tests, one a function: a test that makes them by calls stays small for the prover. Each is
//! told what it is about, as a failure names the line here.

use std::process::Abort;

// Asserts which number was found.
pub(crate) fn is_number(rt: &impl Abort, found: u64, wanted: u64, about: &str) {
    assert_eq!(rt; found, wanted, "{about}");
}

// Asserts which text was found.
pub(crate) fn is_text(rt: &impl Abort, found: &str, wanted: &str, about: &str) {
    assert_eq!(rt; found, wanted, "{about}");
}
