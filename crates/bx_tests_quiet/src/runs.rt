//! Runs over a quiet desk.

use bx_desk::{OpenGate, QuietDesk};
use bx_engine::{InputFault, Status, run};
use bx_logic::{Name, NoMemory};
use bx_sample::sample_library_text;
use bx_syntax::ReadFault;
use std::alloc::Global;
use std::process::Abort;
use std::test::Fail;
use std::thread::Threads;

// What is held: a module under its name, and the sample library, or not; and what the status says then.
const RUNS: &[(&str, Option<&str>, bool, &str)] = &[
    (
        "a wire",
        Some("module m(a, y); input a; output y; assign y = a; endmodule"),
        true,
        "found 1 2",
    ),
    (
        "an inverter",
        Some("module m(a, y); input a; output y; not (y, a); endmodule"),
        true,
        "found 1 3",
    ),
    ("no text", None, true, "syntax 0"),
    (
        "no library",
        Some("module m(a, y); input a; output y; assign y = a; endmodule"),
        false,
        "another",
    ),
    (
        "a module without an output",
        Some("module m(a); input a; endmodule"),
        true,
        "another",
    ),
];

#[test]
fn a_run_over_a_quiet_desk_has_its_status(rt: HostRuntime) -> Result<(), Fail> {
    for &(case, net, has_library, wanted) in RUNS {
        let status = run_quietly(&rt, rt.alloc(), net, has_library)?;
        let found = told(rt.alloc(), &status)?;
        is_text(&rt, found.as_str(), wanted, case);
    }
    Ok(())
}

// The exit statuses of the same runs.
const CODES: &[(Option<&str>, bool, u8)] = &[
    (
        Some("module m(a, y); input a; output y; assign y = a; endmodule"),
        true,
        0,
    ),
    (None, true, 1),
    (
        Some("module m(a, y); input a; output y; assign y = a; endmodule"),
        false,
        1,
    ),
];

#[test]
fn a_quiet_desk_is_never_blamed(rt: HostRuntime) -> Result<(), Fail> {
    for &(net, has_library, wanted) in CODES {
        let status = run_quietly(&rt, rt.alloc(), net, has_library)?;
        is_number(&rt, u64::from(status.code()), u64::from(wanted));
    }
    Ok(())
}

// Runs the command for a module, over a desk that keeps nothing.
fn run_quietly<R: Threads + Sync>(
    rt: &R,
    alloc: Global,
    net: Option<&str>,
    has_library: bool,
) -> Result<Status, NoMemory> {
    let mut desk = QuietDesk::new(held(alloc, net, has_library)?);
    let words = words(alloc)?;
    Ok(run(rt, alloc, &words, &mut desk, &OpenGate))
}

// The texts that the desk holds.
fn held(
    alloc: Global,
    net: Option<&str>,
    has_library: bool,
) -> Result<Vec<(Name, Vec<u8>)>, NoMemory> {
    let mut held = Vec::new(alloc);
    if let Some(text) = net {
        held.push((name(alloc, "net.v")?, text.as_bytes().to_vec(alloc)?))?;
    }
    if has_library {
        held.push((name(alloc, "lib.json")?, sample_library_text(alloc)?))?;
    }
    Ok(held)
}

fn name(alloc: Global, text: &str) -> Result<Name, NoMemory> {
    Ok(Name::new(text.as_bytes().to_vec(alloc)?))
}

// The words of the command.
fn words(alloc: Global) -> Result<Vec<String>, NoMemory> {
    let mut words = Vec::new(alloc);
    for word in ["design", "net.v", "lib.json", "out.sqd", "out.cert"] {
        words.push(String::from_str(alloc, word)?)?;
    }
    Ok(words)
}

// A status, in words.
fn told(alloc: Global, status: &Status) -> Result<String, NoMemory> {
    match status {
        Status::Refused(InputFault::Read(ReadFault::Syntax(place))) => {
            Ok(format!(in alloc; "syntax {place}")?)
        }
        Status::Found(ratio) => Ok(format!(in alloc; "found {} {}", ratio.w, ratio.h)?),
        _ => Ok(String::from_str(alloc, "another")?),
    }
}

fn is_text(rt: &impl Abort, found: &str, wanted: &str, case: &str) {
    assert_eq!(rt; found, wanted, "{case}");
}

fn is_number(rt: &impl Abort, found: u64, wanted: u64) {
    assert_eq!(rt; found, wanted);
}
