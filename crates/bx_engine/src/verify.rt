//! The command `verify`: whether a design and a certificate are right for a module and a library, whoever made them.
//! The four are read in this order, each where those before it are taken, and judged by bx_verify. It says the verdict,
//! and writes no file.
ghost use Rattle.std.specs.Prelude.{◌≡◌};
ghost use Rattle.bx_desk.specs.Desk.{CanPut};
ghost use Rattle.bx_desk.specs.Pieces.{target_of, PutsOut};
ghost use Rattle.bx_engine.specs.Runs.{EndsSaying, ReadsModule, ReadsLibrary, ReadsDesign, ReadsCert};
ghost use Rattle.bx_engine.specs.Steps.{EndsJob, judgement_of};
ghost use Rattle.bx_engine.specs.Verdicts.{minimal_line, part_text, status_for, verdict_text, wrong_line};
ghost use Rattle.bx_lines.specs.Lines.{ended};

use crate::load::{Module, NoInput, load_cert, load_design, load_library, load_module};
use crate::say::{end_saying, refuse};
use crate::status::{Status, Which};
use bx_cert::Cert;
use bx_desk::{Desk, Failed, Piece};
use bx_grid::{Limits, Ratio};
use bx_library::Library;
use bx_says::{Word, put_line};
use bx_siqad::Design;
use bx_verify::{Part, Verdict, VerifyFault, verify};
use bx_words::VerifyCommand;
use std::alloc::Global;
use std::thread::Threads;

/// Serves `verify`: loads the module, and goes on where it is taken.
pub(crate) fn serve_verify<T: Threads + Sync, D: Desk>(
    threads: &T,
    alloc: Global,
    command: &VerifyCommand,
    desk: &mut D,
) -> Status
    ensures { EndsJob (judgement_of command.now) (D.state desk.old) (D.state desk.new) result }
{
    match load_module(alloc, command.net, desk) {
        Ok(source) => verify_module(threads, alloc, command, &source, desk),
        Err(NoInput::Fault(fault)) => refuse(desk, fault),
        Err(NoInput::Unread) => Status::ReadFault(Which::NetFile),
        Err(NoInput::NoMemory) => Status::NoMemory,
    }
}

// Loads the library, and goes on where it is taken.
fn verify_module<T: Threads + Sync, D: Desk>(
    threads: &T,
    alloc: Global,
    command: &VerifyCommand,
    source: &Module,
    desk: &mut D,
) -> Status
    requires { ReadsModule (D.state desk.old).files command.now.net.now
        source.now.net source.now.mapped }
    ensures { EndsJob (judgement_of command.now) (D.state desk.old) (D.state desk.new) result }
{
    match load_library(alloc, command.lib, desk) {
        Ok(library) => verify_by(threads, alloc, command, source, &library, desk),
        Err(NoInput::Fault(fault)) => refuse(desk, fault),
        Err(NoInput::Unread) => Status::ReadFault(Which::LibFile),
        Err(NoInput::NoMemory) => Status::NoMemory,
    }
}

// Loads the design, and goes on where it is taken.
fn verify_by<T: Threads + Sync, D: Desk>(
    threads: &T,
    alloc: Global,
    command: &VerifyCommand,
    source: &Module,
    library: &Library,
    desk: &mut D,
) -> Status
    requires module { ReadsModule (D.state desk.old).files command.now.net.now
        source.now.net source.now.mapped }
    requires library { ReadsLibrary (D.state desk.old).files command.now.lib.now library.now }
    ensures { EndsJob (judgement_of command.now) (D.state desk.old) (D.state desk.new) result }
{
    match load_design(alloc, command.design, desk) {
        Ok(design) => verify_design(threads, alloc, command, source, library, &design, desk),
        Err(NoInput::Fault(fault)) => refuse(desk, fault),
        Err(NoInput::Unread) => Status::ReadFault(Which::DesignFile),
        Err(NoInput::NoMemory) => Status::NoMemory,
    }
}

// Loads the certificate, and goes on where it is taken.
fn verify_design<T: Threads + Sync, D: Desk>(
    threads: &T,
    alloc: Global,
    command: &VerifyCommand,
    source: &Module,
    library: &Library,
    design: &Design,
    desk: &mut D,
) -> Status
    requires module { ReadsModule (D.state desk.old).files command.now.net.now
        source.now.net source.now.mapped }
    requires library { ReadsLibrary (D.state desk.old).files command.now.lib.now library.now }
    requires design { ReadsDesign (D.state desk.old).files command.now.design.now design.now }
    ensures { EndsJob (judgement_of command.now) (D.state desk.old) (D.state desk.new) result }
{
    match load_cert(alloc, command.cert, desk) {
        Ok(cert) => judge(
            threads, alloc, command, source, library, design, &cert, desk,
        ),
        Err(NoInput::Fault(fault)) => refuse(desk, fault),
        Err(NoInput::Unread) => Status::ReadFault(Which::CertFile),
        Err(NoInput::NoMemory) => Status::NoMemory,
    }
}

// Judges the design and the certificate, and says the verdict.
fn judge<T: Threads + Sync, D: Desk>(
    threads: &T,
    alloc: Global,
    command: &VerifyCommand,
    source: &Module,
    library: &Library,
    design: &Design,
    cert: &Cert,
    desk: &mut D,
) -> Status
    requires module { ReadsModule (D.state desk.old).files command.now.net.now
        source.now.net source.now.mapped }
    requires library { ReadsLibrary (D.state desk.old).files command.now.lib.now library.now }
    requires design { ReadsDesign (D.state desk.old).files command.now.design.now design.now }
    requires cert { ReadsCert (D.state desk.old).files command.now.cert.now cert.now }
    ensures { EndsJob (judgement_of command.now) (D.state desk.old) (D.state desk.new) result }
{
    match verify(
        threads,
        alloc,
        &source.net,
        library,
        design,
        cert,
        command.workers,
    ) {
        Ok(verdict) => say_verdict(cert, verdict, desk),
        // (the module's net was mapped when it was read)
        Err(VerifyFault::Map(_)) => unreachable!(),
        Err(VerifyFault::NoMemory) => Status::NoMemory,
    }
}

/// Says a verdict, and ends with its status.
pub fn say_verdict<D: Desk>(cert: &Cert, verdict: Verdict, desk: &mut D) -> Status
    ensures { EndsSaying (D.state desk.old) (D.state desk.new) (status_for verdict)
        (verdict_text cert.now verdict) result }
{
    let mut piece = Piece::to_say();
    match put_verdict(cert, verdict, &mut piece, desk) {
        Ok(()) => end_saying(piece, desk, status(verdict)),
        Err(Failed) => Status::WriteFault(Which::Output),
    }
}

// The status of a verdict.
fn status(verdict: Verdict) -> Status
    ensures { result ≡ status_for verdict }
{
    match verdict {
        Verdict::Minimal(ratio) => Status::Minimal(ratio),
        Verdict::Wrong(part, k) => Status::Wrong(part, k),
    }
}

// Puts out the line of a verdict.
fn put_verdict<D: Desk>(
    cert: &Cert,
    verdict: Verdict,
    piece: &mut Piece,
    desk: &mut D,
) -> Result<(), Failed>
    requires { CanPut (target_of piece.old) (D.state desk.old) }
    ensures { PutsOut (D.state desk.old) (D.state desk.new) result piece.old piece.new
        (verdict_text cert.now verdict) }
{
    match verdict {
        Verdict::Minimal(ratio) => put_minimal(ratio, cert.limits(), piece, desk),
        Verdict::Wrong(part, k) => put_wrong(part, k, piece, desk),
    }
}

// Puts out the line of a minimal ratio, with the limits within which it is the first.
fn put_minimal<D: Desk>(
    ratio: Ratio,
    limits: Limits,
    piece: &mut Piece,
    desk: &mut D,
) -> Result<(), Failed>
    requires { CanPut (target_of piece.old) (D.state desk.old) }
    ensures { PutsOut (D.state desk.old) (D.state desk.new) result piece.old piece.new
        (ended (minimal_line ratio limits)) }
{
    let words = [
        Word::Number(u64::from(ratio.w)),
        Word::Number(u64::from(ratio.h)),
        Word::Text(b"limits"),
        Word::Number(u64::from(limits.area)),
        Word::Number(u64::from(limits.width)),
        Word::Number(u64::from(limits.height)),
    ];
    put_line(b"minimal", &words, piece, desk)
}

// Puts out the line of a part that fails, and where.
fn put_wrong<D: Desk>(part: Part, k: u64, piece: &mut Piece, desk: &mut D) -> Result<(), Failed>
    requires { CanPut (target_of piece.old) (D.state desk.old) }
    ensures { PutsOut (D.state desk.old) (D.state desk.new) result piece.old piece.new
        (ended (wrong_line part k)) }
{
    let words = [Word::Text(part_word(part)), Word::Number(k)];
    put_line(b"wrong", &words, piece, desk)
}

// A part, as a word.
fn part_word(part: Part) -> &'static [u8]
    ensures { result.now ≡ part_text part }
{
    match part {
        Part::Last => b"last",
        Part::Missing => b"missing",
        Part::Proof => b"proof",
        Part::Size => b"size",
        Part::Dots => b"dots",
        Part::Network => b"network",
    }
}
