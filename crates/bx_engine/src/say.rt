//! What is said at the end of a run, and the status that goes with it: a report, or a refusal. Where it can't be said
//! the status tells that instead. Which text it is, is for the modules of reports and of refusals.
ghost use Rattle.std.specs.Prelude.{◌≡◌};
ghost use Rattle.bx_desk.specs.Pieces.{pending, IsToSay};
ghost use Rattle.bx_engine.specs.Runs.{EndsSaying};
ghost use Rattle.bx_engine.specs.Said.{search_text, refusal_text, word_fault_text, input_fault_text};
ghost use Rattle.bx_engine.specs.Statuses.{status_of};
ghost use Rattle.bx_engine.specs.Steps.{HasPlaces};

use crate::load::Module;
use crate::refusal::{put_fault, put_word_fault};
use crate::report::put_report;
use crate::status::{InputFault, Status, Which};
use bx_cert::{Cert, CertLast};
use bx_design::Solution;
use bx_desk::{Desk, Failed, Piece};
use bx_words::WordFault;

/// Says the report of a search.
pub(crate) fn report<D: Desk>(source: &Module, solution: &Solution, desk: &mut D) -> Status
    requires { HasPlaces source.now.mapped solution.now.found }
    ensures { EndsSaying (D.state desk.old) (D.state desk.new) (status_of solution.now.cert.last)
        (search_text source.now.net source.now.mapped solution.now.cert.last solution.now.found)
        result }
{
    let mut piece = Piece::to_say();
    match put_report(source, solution, &mut piece, desk) {
        Ok(()) => end_saying(piece, desk, status(&solution.cert)),
        Err(Failed) => Status::WriteFault(Which::Output),
    }
}

/// The status of how a search ended.
pub(crate) fn status(cert: &Cert) -> Status
    ensures { result ≡ status_of cert.now.last }
{
    match cert.last() {
        CertLast::Found(ratio, _) => Status::Found(*ratio),
        CertLast::Undecided(ratio, spent) => Status::Undecided(*ratio, *spent),
        CertLast::NoneWithin => Status::NoneWithin,
    }
}

/// Says the refusal of an input.
pub fn refuse<D: Desk>(desk: &mut D, fault: InputFault) -> Status
    ensures { EndsSaying (D.state desk.old) (D.state desk.new) (Status.Refused fault)
        (refusal_text (input_fault_text fault)) result }
{
    let mut piece = Piece::to_say();
    match put_fault(&fault, &mut piece, desk) {
        Ok(()) => end_saying(piece, desk, Status::Refused(fault)),
        Err(Failed) => Status::WriteFault(Which::Output),
    }
}

/// Says the refusal of words.
pub fn refuse_words<D: Desk>(desk: &mut D, fault: WordFault) -> Status
    ensures { EndsSaying (D.state desk.old) (D.state desk.new) (Status.Words fault)
        (refusal_text (word_fault_text fault)) result }
{
    let mut piece = Piece::to_say();
    match put_word_fault(fault, &mut piece, desk) {
        Ok(()) => end_saying(piece, desk, Status::Words(fault)),
        Err(Failed) => Status::WriteFault(Which::Output),
    }
}

/// Hands on what a piece holds, and ends with the status if that is said.
pub fn end_saying<D: Desk>(mut piece: Piece, desk: &mut D, status: Status) -> Status
    requires { IsToSay piece }
    ensures { EndsSaying (D.state desk.old) (D.state desk.new) status (pending piece) result }
{
    match piece.end(desk) {
        Ok(()) => status,
        Err(Failed) => Status::WriteFault(Which::Output),
    }
}
