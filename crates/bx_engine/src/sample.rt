//! The command `sample`: a module that is made from three numbers is laid out by the sample library, as `design` would
//! lay it out from their texts, and a summary is said of that. It reads and writes no file.
ghost use Rattle.std.specs.Prelude.{◌≡◌, ◌≤◌, length, IfOk, IfErr};
ghost use Rattle.bx_desk.specs.Desk.{CanPut};
ghost use Rattle.bx_desk.specs.Pieces.{target_of, PutsOut};
ghost use Rattle.bx_design.specs.Solutions.{IsSolution};
ghost use Rattle.bx_dots.specs.Permits.{permit_of};
ghost use Rattle.bx_lines.specs.Lines.{ended};
ghost use Rattle.bx_sample.specs.Library.{library_text};
ghost use Rattle.bx_sample.specs.Samples.{sample_text as text_of_sample};
ghost use Rattle.bx_says.specs.Reports.{nodes_line};
ghost use Rattle.bx_engine.specs.Runs.{EndsSaying, HasModule, LibraryEnds, TextEnds};
ghost use Rattle.bx_engine.specs.Samples.{by_clauses, by_count, sample_limits, sample_line, steps_in, summary_text, tally_line, tally_of};
ghost use Rattle.bx_engine.specs.Statuses.{status_of};
ghost use Rattle.bx_engine.specs.Steps.{EndsJob, sampling_of};
ghost use Rattle.bx_engine.specs.Texts.{IsTakenLibrary};

use crate::limits::{LIBRARY_BYTES, MODULE_BYTES, MODULE_NODES};
use crate::load::{Module, NoInput, library_of_text, module_of_text};
use crate::report::put_last;
use crate::say::{end_saying, refuse, status};
use crate::status::{InputFault, Status, Which};
use bx_cert::{Cert, Section};
use bx_design::{Solution, find_design};
use bx_desk::{Desk, Failed, Gate, Piece};
use bx_grid::Limits;
use bx_layout::Permit;
use bx_library::Library;
use bx_logic::NoMemory;
use bx_network::MappedNet;
use bx_proof::Refutation;
use bx_sample::{sample_library_text, sample_text};
use bx_says::{Word, put_line};
use bx_words::SampleCommand;
use std::alloc::Global;
use std::thread::Threads;

/// How the earlier ratios were refuted.
#[derive(Clone, Copy)]
pub(crate) struct Tally {
    /// How many by counting.
    pub counts: u64,
    /// How many by clauses.
    pub clauses: u64,
    /// The steps of all these.
    pub steps: u64,
}

/// Serves `sample`: makes the module, and goes on where it is taken.
pub(crate) fn serve_sample<T: Threads + Sync, D: Desk, G: Gate + Sync>(
    threads: &T,
    alloc: Global,
    command: &SampleCommand,
    desk: &mut D,
    gate: &G,
) -> Status
    ensures { EndsJob (sampling_of command.now) (D.state desk.old) (D.state desk.new) result }
{
    match sample_module(alloc, command) {
        Ok(source) => sample_from(threads, alloc, command, &source, desk, gate),
        Err(NoInput::Fault(fault)) => refuse(desk, fault),
        // (no file is read)
        Err(NoInput::Unread | NoInput::NoMemory) => Status::NoMemory,
    }
}

// Makes the library, and goes on where it is taken.
fn sample_from<T: Threads + Sync, D: Desk, G: Gate + Sync>(
    threads: &T,
    alloc: Global,
    command: &SampleCommand,
    source: &Module,
    desk: &mut D,
    gate: &G,
) -> Status
    requires { HasModule (text_of_sample command.now.number command.now.gates command.now.extra)
        source.now.net source.now.mapped }
    ensures { EndsJob (sampling_of command.now) (D.state desk.old) (D.state desk.new) result }
{
    match sample_library(alloc) {
        Ok(library) => sample_by(threads, alloc, command, source, &library, desk, gate),
        Err(NoInput::Fault(fault)) => refuse(desk, fault),
        // (no file is read)
        Err(NoInput::Unread | NoInput::NoMemory) => Status::NoMemory,
    }
}

// Lays the module out by the library, and says the summary.
fn sample_by<T: Threads + Sync, D: Desk, G: Gate + Sync>(
    threads: &T,
    alloc: Global,
    command: &SampleCommand,
    source: &Module,
    library: &Library,
    desk: &mut D,
    gate: &G,
) -> Status
    requires module { HasModule (text_of_sample command.now.number command.now.gates command.now.extra)
        source.now.net source.now.mapped }
    requires library { IsTakenLibrary library_text library.now }
    ensures { EndsJob (sampling_of command.now) (D.state desk.old) (D.state desk.new) result }
{
    match lay_out(threads, alloc, &source.mapped, library, gate) {
        Ok(solution) => say_summary(command, &source.mapped, &solution.cert, desk),
        Err(NoMemory) => Status::NoMemory,
    }
}

// The module of the sample's text, or why it has none.
fn sample_module(alloc: Global, command: &SampleCommand) -> Result<Module, NoInput>
    ensures source { IfOk result (λ source.
        HasModule (text_of_sample command.now.number command.now.gates command.now.extra)
        source.net source.mapped) }
    ensures err { IfErr result
        (TextEnds (text_of_sample command.now.number command.now.gates command.now.extra)) }
{
    let text = sample_text(alloc, command.number, command.gates, command.extra)?;
    if text.len() as u64 > MODULE_BYTES {
        return Err(NoInput::Fault(InputFault::TooLong(Which::NetFile)));
    }
    module_of_text(alloc, &text)
}

// The sample library, or why its text is none.
fn sample_library(alloc: Global) -> Result<Library, NoInput>
    ensures library { IfOk result (IsTakenLibrary library_text) }
    ensures err { IfErr result (LibraryEnds library_text) }
{
    let text = sample_library_text(alloc)?;
    if text.len() as u64 > LIBRARY_BYTES {
        return Err(NoInput::Fault(InputFault::TooLong(Which::LibFile)));
    }
    library_of_text(alloc, &text)
}

// The solution of a network by the forms of a library, within the limits and the budget of samples.
fn lay_out<T: Threads + Sync, G: Gate + Sync>(
    threads: &T,
    alloc: Global,
    mapped: &MappedNet,
    library: &Library,
    gate: &G,
) -> Result<Solution, NoMemory>
    requires { length mapped.now.nodes ≤ MODULE_NODES }
    ensures solution { IfOk result (λ solution. IsSolution mapped.now (permit_of library.now)
        sample_limits 2000 solution.cert solution.found) }
    ensures few { IfOk result (λ solution. length solution.cert.sections ≤ 20736) }
{
    let permit = Permit::same(library.offers());
    let limits = Limits {
        area: 36,
        width: 144,
        height: 144,
    };
    let solution = find_design(threads, alloc, mapped, &permit, limits, 2000, 4, gate)?;
    Ok(solution)
}

// Says the summary of a sample.
fn say_summary<D: Desk>(
    command: &SampleCommand,
    mapped: &MappedNet,
    cert: &Cert,
    desk: &mut D,
) -> Status
    requires { length cert.now.sections ≤ 20736 }
    ensures { EndsSaying (D.state desk.old) (D.state desk.new) (status_of cert.now.last)
        (summary_text command.now.number command.now.gates command.now.extra mapped.now cert.now)
        result }
{
    let mut piece = Piece::to_say();
    match put_summary(command, mapped, cert, &mut piece, desk) {
        Ok(()) => end_saying(piece, desk, status(cert)),
        Err(Failed) => Status::WriteFault(Which::Output),
    }
}

// Puts out the summary of a sample.
fn put_summary<D: Desk>(
    command: &SampleCommand,
    mapped: &MappedNet,
    cert: &Cert,
    piece: &mut Piece,
    desk: &mut D,
) -> Result<(), Failed>
    requires can { CanPut (target_of piece.old) (D.state desk.old) }
    requires few { length cert.now.sections ≤ 20736 }
    ensures { PutsOut (D.state desk.old) (D.state desk.new) result piece.old piece.new
        (summary_text command.now.number command.now.gates command.now.extra mapped.now cert.now) }
{
    put_sample(command, piece, desk)?;
    put_size(mapped, piece, desk)?;
    put_last(cert.last(), piece, desk)?;
    put_tally(count_up(cert.sections().as_slice()), piece, desk)
}

// Puts out the line of the numbers of a sample.
fn put_sample<D: Desk>(
    command: &SampleCommand,
    piece: &mut Piece,
    desk: &mut D,
) -> Result<(), Failed>
    requires { CanPut (target_of piece.old) (D.state desk.old) }
    ensures { PutsOut (D.state desk.old) (D.state desk.new) result piece.old piece.new
        (ended (sample_line command.now.number command.now.gates command.now.extra)) }
{
    let words = [
        Word::Number(u64::from(command.number)),
        Word::Number(u64::from(command.gates)),
        Word::Number(u64::from(command.extra)),
    ];
    put_line(b"sample", &words, piece, desk)
}

// Puts out the line of the size of a network.
fn put_size<D: Desk>(mapped: &MappedNet, piece: &mut Piece, desk: &mut D) -> Result<(), Failed>
    requires { CanPut (target_of piece.old) (D.state desk.old) }
    ensures { PutsOut (D.state desk.old) (D.state desk.new) result piece.old piece.new
        (ended (nodes_line (length mapped.now.nodes) (length mapped.now.edges))) }
{
    let nodes = Word::Number(u64::from(mapped.node_count()));
    let edges = Word::Number(u64::from(mapped.edge_count()));
    put_line(b"nodes", &[nodes, Word::Text(b"edges"), edges], piece, desk)
}

// Puts out the line of how the earlier ratios were refuted.
fn put_tally<D: Desk>(tally: Tally, piece: &mut Piece, desk: &mut D) -> Result<(), Failed>
    requires { CanPut (target_of piece.old) (D.state desk.old) }
    ensures { PutsOut (D.state desk.old) (D.state desk.new) result piece.old piece.new
        (ended (tally_line tally)) }
{
    let words = [
        Word::Number(tally.counts),
        Word::Text(b"clauses"),
        Word::Number(tally.clauses),
        Word::Text(b"steps"),
        Word::Number(tally.steps),
    ];
    put_line(b"count", &words, piece, desk)
}

// How the ratios of these sections were refuted.
fn count_up(sections: &[Section]) -> Tally
    requires { length sections.now ≤ 20736 }
    ensures { result ≡ tally_of sections.now }
{
    let mut counts: u64 = 0;
    let mut clauses: u64 = 0;
    let mut steps: u64 = 0;
    for section in sections {
        counts += by_count(&section.proof);
        clauses += by_clauses(&section.proof);
        steps += steps_in(&section.proof);
    }
    Tally {
        counts,
        clauses,
        steps,
    }
}

// One where a refutation counts, and else nothing.
fn by_count(proof: &Refutation) -> u64
    ensures value { result ≡ by_count proof.now }
    ensures few { result ≤ 1 }
{
    match proof {
        Refutation::Count(_) => 1,
        Refutation::Clauses(_) => 0,
    }
}

// One where a refutation has clauses, and else nothing.
fn by_clauses(proof: &Refutation) -> u64
    ensures value { result ≡ by_clauses proof.now }
    ensures few { result ≤ 1 }
{
    match proof {
        Refutation::Count(_) => 0,
        Refutation::Clauses(_) => 1,
    }
}

// How many steps a refutation has.
fn steps_in(proof: &Refutation) -> u64
    ensures value { result ≡ steps_in proof.now }
    ensures few { result ≤ 4294967295 }
{
    match proof {
        Refutation::Count(_) => 0,
        Refutation::Clauses(steps) => u64::from(steps.len()),
    }
}
