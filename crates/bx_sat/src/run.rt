//! The one call that the program makes: from its words to what is said, and a status.

ghost use Rattle.std.specs.Prelude.{◌≡◌, ◌<◌, ◌≤◌, length, Option, IsSome, OnOk, OnErr};
ghost use Rattle.bx_cnf.specs.Formulas.{Formula};
ghost use Rattle.bx_desk.specs.Desk.{DeskState, Starts, Writes, WritesFront};
ghost use Rattle.bx_proof.specs.Steps.{StepList};
ghost use Rattle.bx_proof.specs.Texts.{log_text};
ghost use Rattle.bx_sat.specs.Commands.{name_of};
ghost use Rattle.bx_sat.specs.Files.{LeavesUnread, FailsToWrite};
ghost use Rattle.bx_sat.specs.Runs.{EndsRun, EndsCheck, EndsSolve, EndsFast, KeepsProof, FailsToKeep, Unanswered};
ghost use Rattle.bx_sat.specs.Words.{texts, request_of};

use crate::checking::verify;
use crate::command::Command;
use crate::load::{Unread, load_formula, load_proof};
use crate::say::{say, say_answer, say_bad_line, say_finding};
use crate::solving::{Answer, decide, decide_fast};
use crate::status::SatStatus;
use bx_desk::{Desk, Failed, Piece};
use bx_logic::NoMemory;
use bx_proof::{Steps, write_steps};
use std::alloc::Global;
use std::thread::Threads;

// What is said where the words are no command.
const USAGE: &[u8] =
    b"the words are check FORMULA PROOF [--workers N], solve FORMULA BUDGET [PROOF] or \
solve FORMULA --fast CONFLICTS [PROOF]\n";

/// Does what the words ask for: `check FORMULA PROOF [--workers N]` checks a proof, `solve FORMULA BUDGET
/// [PROOF]` and `solve FORMULA --fast CONFLICTS [PROOF]` solve a formula, and write the proof where it has no
/// solution. Where they ask for nothing it says what the words are.
pub fn run_sat<T: Threads + Sync, D: Desk>(
    threads: &T,
    alloc: Global,
    words: &[String],
    desk: &mut D,
) -> SatStatus
    ensures { EndsRun (request_of (texts words.now)) (D.state desk.old) (D.state desk.new) result }
{
    match Command::of_words(words) {
        Some(
            Command::Check {
                formula,
                proof,
                workers,
            },
        ) => check_files(threads, alloc, formula, proof, workers.number, desk),
        Some(
            Command::Solve {
                formula,
                budget,
                proof,
            },
        ) => solve_file(alloc, formula, budget, proof, desk),
        Some(
            Command::SolveFast {
                formula,
                conflicts,
                proof,
            },
        ) => solve_file_fast(alloc, formula, conflicts, proof, desk),
        None => say(USAGE, SatStatus::Words, desk),
    }
}

// Checks the proof of a formula with so many workers.
fn check_files<T: Threads + Sync, D: Desk>(
    threads: &T,
    alloc: Global,
    formula: &str,
    proof: &str,
    workers: u32,
    desk: &mut D,
) -> SatStatus
    requires { (1 ≤ workers) × (workers ≤ 16) }
    ensures { EndsCheck formula.now proof.now (D.state desk.old) (D.state desk.new) result }
{
    let read = match load_formula(alloc, formula, desk) {
        Ok(read) => read,
        Err(fault) => return say_unread(formula, fault, desk),
    };
    let steps = match load_proof(alloc, &read.clauses, proof, desk) {
        Ok(steps) => steps,
        Err(fault) => return say_unread(proof, fault, desk),
    };
    match verify(threads, alloc, &read.clauses, &steps, workers) {
        Ok(finding) => say_finding(finding, desk),
        Err(NoMemory) => SatStatus::NoMemory,
    }
}

// Solves a formula, and writes the proof where it has no solution and there is a file for it.
fn solve_file<D: Desk>(
    alloc: Global,
    formula: &str,
    budget: u64,
    proof: Option<&str>,
    desk: &mut D,
) -> SatStatus
    ensures { EndsSolve formula.now budget (name_of proof.entry)
        (D.state desk.old) (D.state desk.new) result }
{
    let read = match load_formula(alloc, formula, desk) {
        Ok(read) => read,
        Err(fault) => return say_unread(formula, fault, desk),
    };
    let answer = match decide(alloc, &read.clauses, budget) {
        Ok(answer) => answer,
        Err(NoMemory) => return SatStatus::NoMemory,
    };
    if keep_proof(&answer, proof, desk).is_err() {
        return SatStatus::Failed;
    }
    say_answer(&answer, read.vars, desk)
}

// Likewise, by the fast search over so many conflicts.
fn solve_file_fast<D: Desk>(
    alloc: Global,
    formula: &str,
    conflicts: u64,
    proof: Option<&str>,
    desk: &mut D,
) -> SatStatus
    ensures { EndsFast formula.now (name_of proof.entry)
        (D.state desk.old) (D.state desk.new) result }
{
    let read = match load_formula(alloc, formula, desk) {
        Ok(read) => read,
        Err(fault) => return say_unread(formula, fault, desk),
    };
    let answer = match decide_fast(alloc, &read.clauses, conflicts) {
        Ok(answer) => answer,
        Err(NoMemory) => return SatStatus::NoMemory,
    };
    if keep_proof(&answer, proof, desk).is_err() {
        return SatStatus::Failed;
    }
    say_answer(&answer, read.vars, desk)
}

// Writes the proof of an answer that has one, where there is a file for it.
fn keep_proof<D: Desk>(answer: &Answer, proof: Option<&str>, desk: &mut D) -> Result<(), Failed>
    requires { (log : StepList) → answer.now ≡ Answer.Unsatisfiable log → 0 < length log.steps }
    ensures ok { OnOk result (KeepsProof
        (D.state desk.old) (D.state desk.new) answer.now (name_of proof.entry)) }
    ensures err { OnErr result (FailsToKeep
        (D.state desk.old) (D.state desk.new) answer.now (name_of proof.entry)) }
{
    match answer {
        Answer::Unsatisfiable(steps) => match proof {
            Some(name) => write_proof(steps, name, desk),
            None => Ok(()),
        },
        Answer::Satisfiable(_) | Answer::Unknown => Ok(()),
    }
}

// Writes steps, of which there is one at least, into a file.
fn write_proof<D: Desk>(steps: &Steps, name: &str, desk: &mut D) -> Result<(), Failed>
    requires { 0 < length steps.now.steps }
    ensures ok { OnOk result ((mid : DeskState) × Starts (D.state desk.old) mid name.now
        × Writes mid (D.state desk.new) (log_text steps.now)) }
    ensures err { OnErr result (FailsToWrite
        (D.state desk.old) (D.state desk.new) name.now (log_text steps.now)) }
{
    desk.start(name)?;
    put_proof(steps, desk)
}

// Writes steps, of which there is one at least, into the started file.
fn put_proof<D: Desk>(steps: &Steps, desk: &mut D) -> Result<(), Failed>
    requires some { 0 < length steps.now.steps }
    requires started { IsSome (D.state desk.old).started }
    ensures ok { OnOk result (Writes (D.state desk.old) (D.state desk.new) (log_text steps.now)) }
    ensures err { OnErr result (WritesFront
        (D.state desk.old) (D.state desk.new) (log_text steps.now)) }
{
    let mut piece = Piece::to_file();
    match write_steps(steps, &mut piece, desk) {
        Ok(()) => piece.end(desk),
        Err(Failed) => Err(Failed),
    }
}

// Says why a file wasn't read.
fn say_unread<D: Desk>(name: &str, fault: Unread, desk: &mut D) -> SatStatus
    ensures { (of : Option Formula) (old : DeskState)
        → LeavesUnread of old (D.state desk.old) name.now fault
        → Unanswered of name.now old (D.state desk.new) result }
{
    match fault {
        Unread::BadLine(line) => say_bad_line(name, line, desk),
        Unread::Failed => SatStatus::Failed,
        Unread::NoMemory => SatStatus::NoMemory,
    }
}
