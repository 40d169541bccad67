//! Runs on a desk in memory: for the tests of whole runs.

use crate::asserts::{are_bytes, is_number};
use crate::library::library_with;
use bx_desk::{MemDesk, OpenGate};
use bx_engine::{Status, Which, run};
use bx_logic::NoMemory;
use std::alloc::Global;
use std::process::Abort;
use std::thread::Threads;

/// A module of one wire.
pub(crate) const WIRE: &str = "module m(a, y); input a; output y; assign y = a; endmodule";

/// What is cut by the library.
pub(crate) const EXTRACT: &str = "extract lib.json out.sqd";

/// What is judged.
pub(crate) const VERIFY: &str = "verify net.v lib.json out.sqd out.cert";

/// Its certificate by a library without `output_l`, for which a wire has to stand between input and output.
pub(crate) const LONG_CERT: &str =
    "bestagon cert 1\nlimits 100 144 144 100000\ncount 1 1 late 0\nclauses 1 2 1\n46 0 11 1 5 2 13 29 18 45 0\ncount 2 1 late 0\nfound 1 3\nplace 0 0\nplace 0 2\nend\n";

/// Runs the words of a line, which stand between blanks.
pub(crate) fn run_words<R: Threads + Sync>(
    rt: &R,
    alloc: Global,
    line: &str,
    desk: &mut MemDesk,
) -> Result<Status, NoMemory> {
    let mut words = Vec::new(alloc);
    for word in line.split_whitespace() {
        words.push(String::from_str(alloc, word)?)?;
    }
    Ok(run(rt, alloc, &words, desk, &OpenGate))
}

/// A desk with the sample library and this design.
pub(crate) fn desk_with_design(alloc: Global, design: &str) -> Result<MemDesk, NoMemory> {
    let mut desk = MemDesk::new(alloc);
    desk.put("lib.json", library_with(alloc, &[])?.as_bytes())?;
    desk.put("out.sqd", design.as_bytes())?;
    desk.say_room(4096)?;
    Ok(desk)
}

/// A desk with the wire, the library without `output_l`, and this design and certificate.
pub(crate) fn desk_with_both(alloc: Global, design: &str, cert: &str) -> Result<MemDesk, NoMemory> {
    let mut desk = MemDesk::new(alloc);
    desk.put("net.v", WIRE.as_bytes())?;
    let library = library_with(alloc, &[("output_l", "")])?;
    desk.put("lib.json", library.as_bytes())?;
    desk.put("out.sqd", design.as_bytes())?;
    desk.put("out.cert", cert.as_bytes())?;
    desk.say_room(4096)?;
    Ok(desk)
}

/// Asserts with which exit status a run ended, and what it said.
pub(crate) fn ends_saying(rt: &impl Abort, status: &Status, desk: &MemDesk, code: u64, said: &str) {
    is_number(rt, u64::from(status.code()), code, said);
    are_bytes(rt, desk.said(), said.as_bytes(), said);
}

/// What a fault of the desk is about.
pub(crate) fn blamed(status: &Status) -> &'static str {
    match status {
        Status::ReadFault(which) => read_name(*which),
        Status::WriteFault(Which::Output) => "output",
        _ => "none",
    }
}

fn read_name(which: Which) -> &'static str {
    match which {
        Which::NetFile => "net",
        Which::LibFile => "lib",
        Which::DesignFile => "design",
        Which::CertFile => "cert",
        Which::Output => "none",
    }
}
