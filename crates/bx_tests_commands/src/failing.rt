//! `extract` and `verify`, of which each call of the desk fails in turn: what is blamed, and that nothing is said.

use crate::asserts::{are_bytes, is_text};
use crate::designs::{LONG_DOTS, design_text};
use crate::runs::{EXTRACT, LONG_CERT, VERIFY, blamed, desk_with_both, run_words};
use std::test::Fail;

// Words, a call that fails, how much it keeps, what is blamed, and what is said.
const FAILING: &[(&str, u64, u64, &str, &str)] = &[
    (EXTRACT, 1, 4096, "lib", ""),
    (EXTRACT, 2, 4096, "design", ""),
    (EXTRACT, 3, 0, "output", ""),
    (EXTRACT, 3, 5, "output", "ratio"),
    (VERIFY, 1, 4096, "net", ""),
    (VERIFY, 2, 4096, "lib", ""),
    (VERIFY, 3, 4096, "design", ""),
    (VERIFY, 4, 4096, "cert", ""),
    (VERIFY, 5, 0, "output", ""),
    (VERIFY, 5, 7, "output", "minimal"),
    // No call stands behind these.
    (EXTRACT, 4, 0, "none", LONG_SAID),
    (VERIFY, 6, 0, "none", "minimal 1 3 limits 100 144 144\n"),
    ("sample 1 1 0", 1, 6, "output", "sample"),
];

const LONG_SAID: &str = "ratio 1 3\nrow 0 input_r\nrow 1 wire_ll\nrow 2 output_r\nsound yes\n";

#[test]
fn a_call_that_fails_is_told(rt: HostRuntime) -> Result<(), Fail> {
    let design = design_text(rt.alloc(), 3, LONG_DOTS)?;
    for &(line, call, kept, which, said) in FAILING {
        let mut desk = desk_with_both(rt.alloc(), design.as_str(), LONG_CERT)?;
        desk.fail_at(call, kept)?;
        let status = run_words(&rt, rt.alloc(), line, &mut desk)?;
        is_text(&rt, blamed(&status), which, line);
        are_bytes(&rt, desk.said(), said.as_bytes(), line);
    }
    Ok(())
}

// Words that name a file that isn't there, and what is blamed.
const MISSING: &[(&str, &str)] = &[
    ("extract other lib.json", "lib"),
    ("extract lib.json other", "design"),
    ("verify other lib.json out.sqd out.cert", "net"),
    ("verify net.v other out.sqd out.cert", "lib"),
    ("verify net.v lib.json other out.cert", "design"),
    ("verify net.v lib.json out.sqd other", "cert"),
];

#[test]
fn a_file_that_is_missing_is_told(rt: HostRuntime) -> Result<(), Fail> {
    let design = design_text(rt.alloc(), 3, LONG_DOTS)?;
    for &(line, which) in MISSING {
        let mut desk = desk_with_both(rt.alloc(), design.as_str(), LONG_CERT)?;
        let status = run_words(&rt, rt.alloc(), line, &mut desk)?;
        is_text(&rt, blamed(&status), which, line);
        are_bytes(&rt, desk.said(), b"", line);
    }
    Ok(())
}
