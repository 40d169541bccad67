//! Reading the two files of a run. Only a load that fails changes the desk, and then its count of such failures alone.

ghost use Rattle.std.specs.Prelude.{◌≡◌, ◌+◌, ◌≤◌, length, IfOk, IfErr, OnOk, Some, None};
ghost use Rattle.bx_desk.specs.Desk.{IsFile};
ghost use Rattle.bx_sat.specs.Files.{IsFormulaIn, IsProofIn, LeavesUnloaded, LeavesUnread};

use bx_cnf::Clauses;
use bx_desk::{Desk, LoadFault};
use bx_dimacs::{DimacsFormula, LratProof, TextFault, read_formula, read_proof};
use std::alloc::Global;

// The longest file that is read, in bytes: 64 GiB.
const LONGEST: u64 = 68_719_476_736;

/// Why a file wasn't read.
#[derive(Clone, Copy)]
pub(crate) enum Unread {
    /// Its first line that can't be read.
    BadLine(u64),
    /// The desk couldn't read it, or it is too long.
    Failed,
    /// Memory was refused.
    NoMemory,
}

/// The formula of a file.
pub(crate) fn load_formula<D: Desk>(
    alloc: Global,
    name: &str,
    desk: &mut D,
) -> Result<DimacsFormula, Unread>
    ensures said { IfOk result (IsFormulaIn (D.state desk.old) name.now) }
    ensures declared { IfOk result (λ formula. formula.vars ≤ formula.clauses.vars) }
    ensures ok_stays { OnOk result (D.state desk.new ≡ D.state desk.old) }
    ensures err { IfErr result (LeavesUnread None (D.state desk.old) (D.state desk.new) name.now) }
{
    let text = load(alloc, name, desk)?;
    read_formula(alloc, &text).map_err(|fault| match fault {
        TextFault::BadLine(line) => Unread::BadLine(line),
        TextFault::NoMemory => Unread::NoMemory,
    })
}

/// The proof of a file, for a formula.
pub(crate) fn load_proof<D: Desk>(
    alloc: Global,
    clauses: &Clauses,
    name: &str,
    desk: &mut D,
) -> Result<LratProof, Unread>
    ensures said { IfOk result (IsProofIn clauses.now (D.state desk.old) name.now) }
    ensures numbered { IfOk result (λ proof. proof.steps.first ≡ length clauses.now.clauses + 1) }
    ensures named { IfOk result (λ proof. length proof.ids.items ≡ length proof.steps.steps) }
    ensures ok_stays { OnOk result (D.state desk.new ≡ D.state desk.old) }
    ensures err { IfErr result (LeavesUnread (Some clauses.now)
        (D.state desk.old) (D.state desk.new) name.now) }
{
    let text = load(alloc, name, desk)?;
    read_proof(alloc, clauses, &text).map_err(|fault| match fault {
        TextFault::BadLine(line) => Unread::BadLine(line),
        TextFault::NoMemory => Unread::NoMemory,
    })
}

// The bytes of a file.
fn load<D: Desk>(alloc: Global, name: &str, desk: &mut D) -> Result<Vec<u8>, Unread>
    ensures whole { IfOk result (λ text. IsFile (D.state desk.old).files name.now text.items) }
    ensures ok_stays { OnOk result (D.state desk.new ≡ D.state desk.old) }
    ensures err { IfErr result (LeavesUnloaded (D.state desk.old) (D.state desk.new) name.now) }
{
    let mut text = Vec::new(alloc);
    match desk.load(name, LONGEST, &mut text) {
        Ok(()) => Ok(text),
        Err(LoadFault::Failed) => Err(Unread::Failed),
        Err(LoadFault::TooLong) => Err(Unread::Failed),
        Err(LoadFault::NoMemory) => Err(Unread::NoMemory),
    }
}
