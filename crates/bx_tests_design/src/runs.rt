//! Runs on a desk in memory, and what comes of them: for the tests of whole runs.

use crate::asserts::{are_bytes, holds, is_number};
use crate::library::library_with;
use bx_desk::{MemDesk, OpenGate};
use bx_engine::{Status, Which, run};
use bx_logic::NoMemory;
use std::alloc::Global;
use std::process::Abort;
use std::thread::Threads;

/// A module of one wire.
pub(crate) const WIRE: &str = "module m(a, y); input a; output y; assign y = a; endmodule";

/// What is said of it.
pub(crate) const WIRE_REPORT: &str =
    "module m\nnodes 2 edges 1\nfound 1 2\ninput a 0 0\noutput y 0 1\nrow 0 input_r\nrow 1 output_l\n";

/// Its certificate.
pub(crate) const WIRE_CERT: &str =
    "bestagon cert 1\nlimits 100 144 144 100000\ncount 1 1 late 0\nfound 1 2\nplace 0 0\nplace 0 1\nend\n";

/// An inverter.
pub(crate) const INVERTER: &str = "module m(a, y); input a; output y; not (y, a); endmodule\n";

/// A half adder.
pub(crate) const HALF_ADDER: &str =
    "module ha(a, b, s, c); input a, b; output s, c; xor (s, a, b); and (c, a, b); endmodule";

/// The words of a run for the files of the desk.
pub(crate) const DESIGN: &str = "design net.v lib.json out.sqd out.cert";

/// Runs these words, as the program hands them on.
pub(crate) fn run_words<R: Threads + Sync>(
    rt: &R,
    alloc: Global,
    line: &str,
    desk: &mut MemDesk,
) -> Result<Status, NoMemory> {
    let words = words(alloc, line)?;
    Ok(run(rt, alloc, &words, desk, &OpenGate))
}

/// A line's words.
pub(crate) fn words(alloc: Global, line: &str) -> Result<Vec<String>, NoMemory> {
    let mut words = Vec::new(alloc);
    for word in line.split_whitespace() {
        words.push(String::from_str(alloc, word)?)?;
    }
    Ok(words)
}

/// Runs the command for the files of the desk, with these options.
pub(crate) fn run_with<R: Threads + Sync>(
    rt: &R,
    alloc: Global,
    options: &str,
    desk: &mut MemDesk,
) -> Result<Status, NoMemory> {
    let line = format!(in alloc; "{DESIGN} {options}")?;
    run_words(rt, alloc, line.as_str(), desk)
}

/// A desk with a module and the sample library, places for the files that are written, and room for what these tests
/// say.
pub(crate) fn desk_with(alloc: Global, text: &[u8]) -> Result<MemDesk, NoMemory> {
    desk_of(alloc, text, library_with(alloc, &[])?.as_str())
}

/// The same with this library.
pub(crate) fn desk_of(alloc: Global, text: &[u8], library: &str) -> Result<MemDesk, NoMemory> {
    let mut desk = MemDesk::new(alloc);
    desk.put("net.v", text)?;
    desk.put("lib.json", library.as_bytes())?;
    desk.make_room("out.sqd", 65_536)?;
    desk.make_room("out.cert", 65_536)?;
    desk.say_room(4096)?;
    Ok(desk)
}

/// Asserts with which exit status a run ended, and what it said.
pub(crate) fn ends_saying(rt: &impl Abort, status: &Status, desk: &MemDesk, code: u64, said: &str) {
    is_number(rt, u64::from(status.code()), code, said);
    are_bytes(rt, desk.said(), said.as_bytes(), said);
}

/// Asserts what a file has, or that there is none.
pub(crate) fn has_file(rt: &impl Abort, desk: &MemDesk, name: &str, wanted: Option<&str>) {
    let wanted = wanted.map(|text| text.as_bytes());
    holds(rt, desk.file(name) == wanted, name);
}

/// Asserts that no file was written.
pub(crate) fn writes_nothing(rt: &impl Abort, desk: &MemDesk) {
    has_file(rt, desk, "out.sqd", None);
    has_file(rt, desk, "out.cert", None);
}

/// What a fault of the desk is about.
pub(crate) fn blamed(status: &Status) -> &'static str {
    match status {
        Status::ReadFault(Which::NetFile) => "net",
        Status::ReadFault(Which::LibFile) => "lib",
        Status::WriteFault(Which::DesignFile) => "design",
        Status::WriteFault(Which::CertFile) => "cert",
        Status::WriteFault(Which::Output) => "output",
        _ => "none",
    }
}
