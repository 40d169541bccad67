//! The assert of the tests: a test that makes it by a call stays small for the prover. It is told what it is about,
//! as a failure names the line here.

use std::process::Abort;

// Asserts which text was found.
pub(crate) fn is_text(rt: &impl Abort, found: &str, wanted: &str, about: &str) {
    assert_eq!(rt; found, wanted, "{about}");
}
