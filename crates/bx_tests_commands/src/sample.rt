//! `sample`: what is said of modules that are made from numbers.

use crate::runs::{ends_saying, run_words};
use bx_desk::MemDesk;
use std::test::Fail;

// Words, and what is said. Gates that no output needs change nothing.
const SAMPLES: &[(&str, &str)] = &[
    (
        "sample 1 1 0",
        "sample 1 1 0\nnodes 4 edges 3\nfound 2 3\ncount 11 clauses 0 steps 0\n",
    ),
    (
        "sample 01 1 300",
        "sample 1 1 300\nnodes 4 edges 3\nfound 2 3\ncount 11 clauses 0 steps 0\n",
    ),
];

#[test]
fn samples_are_laid_out(rt: HostRuntime) -> Result<(), Fail> {
    for &(line, said) in SAMPLES {
        let mut desk = MemDesk::new(rt.alloc());
        desk.say_room(4096)?;
        let status = run_words(&rt, rt.alloc(), line, &mut desk)?;
        ends_saying(&rt, &status, &desk, 0, said);
    }
    Ok(())
}
