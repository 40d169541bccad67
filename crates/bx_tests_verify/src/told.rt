//! What the verifier says, as a text.

use crate::asserts::is_text;
use bx_cert::Cert;
use bx_library::Library;
use bx_logic::{Net, NoMemory};
use bx_map::MapFault;
use bx_siqad::Design;
use bx_verify::{Part, Verdict, VerifyFault, verify};
use std::alloc::Global;
use std::process::Abort;
use std::test::Fail;
use std::thread::Threads;

// Asserts what is said with one worker and with four.
pub(crate) fn says<R: Threads + Abort + Sync>(
    rt: &R,
    alloc: Global,
    net: &Net,
    library: &Library,
    design: &Design,
    cert: &Cert,
    wanted: &str,
) -> Result<(), Fail> {
    let one = told(alloc, verify(rt, alloc, net, library, design, cert, 1))?;
    is_text(rt, one.as_str(), wanted, "one worker");
    let four = told(alloc, verify(rt, alloc, net, library, design, cert, 4))?;
    is_text(rt, four.as_str(), wanted, "four workers");
    Ok(())
}

// A verdict, or why there is none.
fn told(alloc: Global, said: Result<Verdict, VerifyFault>) -> Result<String, NoMemory> {
    match said {
        Ok(verdict) => verdict_text(alloc, verdict),
        Err(VerifyFault::Map(fault)) => fault_text(alloc, fault),
        Err(VerifyFault::NoMemory) => Err(NoMemory),
    }
}

fn verdict_text(alloc: Global, verdict: Verdict) -> Result<String, NoMemory> {
    match verdict {
        Verdict::Minimal(ratio) => Ok(format!(in alloc; "minimal {} {}", ratio.w, ratio.h)?),
        Verdict::Wrong(part, k) => {
            let part = part_text(part);
            Ok(format!(in alloc; "wrong {part} {k}")?)
        }
    }
}

fn part_text(part: Part) -> &'static str {
    match part {
        Part::Last => "last",
        Part::Missing => "missing",
        Part::Proof => "proof",
        Part::Size => "size",
        Part::Dots => "dots",
        Part::Network => "network",
    }
}

fn fault_text(alloc: Global, fault: MapFault) -> Result<String, NoMemory> {
    match fault {
        MapFault::ConstantOutput(j) => Ok(format!(in alloc; "constant {j}")?),
        MapFault::TooManyNodes(count) => Ok(format!(in alloc; "nodes {count}")?),
        MapFault::NoMemory => Err(NoMemory),
    }
}
