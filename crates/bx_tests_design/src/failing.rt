//! A run that searches, of which each call of the desk fails in turn: what is blamed, and what each file has then.

use crate::asserts::{are_bytes, holds, is_text};
use crate::runs::{HALF_ADDER, blamed, desk_with, run_with};
use bx_desk::MemDesk;
use std::process::Abort;
use std::test::Fail;

// A call that fails and keeps nothing, what is blamed, and what design and certificate have then: nothing where they
// aren't there, and else whether they are whole or empty.
const FAILING: &[(u64, &str, Option<bool>, Option<bool>)] = &[
    (1, "net", None, None),
    (2, "lib", None, None),
    (3, "design", None, None),
    (4, "design", Some(false), None),
    (5, "cert", Some(true), None),
    (6, "cert", Some(true), Some(false)),
    (7, "output", Some(true), Some(true)),
];

#[test]
fn each_call_of_a_search_fails_in_turn(rt: HostRuntime) -> Result<(), Fail> {
    let mut whole = desk_with(rt.alloc(), HALF_ADDER.as_bytes())?;
    run_with(&rt, rt.alloc(), "", &mut whole)?;
    for &(call, which, design, cert) in FAILING {
        let mut desk = desk_with(rt.alloc(), HALF_ADDER.as_bytes())?;
        desk.fail_at(call, 0)?;
        let status = run_with(&rt, rt.alloc(), "", &mut desk)?;
        is_text(&rt, blamed(&status), which, "what failed");
        is_left(&rt, &desk, &whole, "out.sqd", design);
        is_left(&rt, &desk, &whole, "out.cert", cert);
        are_bytes(&rt, desk.said(), b"", "said");
    }
    Ok(())
}

// Asserts that the file isn't there, or is empty, or is that of the whole run.
fn is_left(rt: &impl Abort, desk: &MemDesk, whole: &MemDesk, name: &str, left: Option<bool>) {
    let has = desk.file(name);
    let is = match left {
        None => has.is_none(),
        Some(false) => has == Some(b""),
        Some(true) => has.is_some() && has == whole.file(name),
    };
    holds(rt, is, name);
}
