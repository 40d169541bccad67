//! The assert of this crate's tests.

use std::process::Abort;

/// These words are the ones that are wanted.
pub fn is_text(rt: &impl Abort, found: &str, wanted: &str) {
    assert_eq!(rt; found, wanted);
}
