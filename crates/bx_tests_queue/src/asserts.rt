//! The asserts of this crate, each one function: a test that compares at many places costs the check much
//! more than one that calls these.

use std::process::Abort;

/// Two variables, or none, are the same.
pub fn is_variable(rt: &impl Abort, found: Option<u32>, wanted: Option<u32>) {
    assert_eq!(rt; found, wanted);
}

/// Two orders are the same.
pub fn is_order(rt: &impl Abort, found: &[u32], wanted: &[u32]) {
    assert_eq!(rt; found, wanted);
}

/// A sequence of calls did the same to both; `seed` says which.
pub fn is_alike(rt: &impl Abort, seed: u32, found: bool) {
    assert_eq!(rt; found, true, "sequence {seed}");
}
