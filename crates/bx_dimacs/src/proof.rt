//! A proof that was read from a file.
ghost use Rattle.std.specs.Prelude.{◌≡◌, ◌≢◌, ℕ, ◌+◌, ◌≤◌, ◌<◌, [], ◌∷◌, length, slice_get, Some, Err, IfOk, IfErr, IsSome, All};
ghost use Rattle.std.specs.List.Sorted.{IsStrictlyIncreasing};
ghost use Rattle.bx_proof.specs.Steps.{Step};
ghost use Rattle.bx_dimacs.specs.Faults.{IsStuckAt};
ghost use Rattle.bx_dimacs.specs.Proofs.{AreWithin, IsProofOf};
ghost use Rattle.bx_dimacs.specs.ProofTexts.{proof_of};

use crate::TextFault;
use crate::read::read_steps;
use bx_cnf::Clauses;
use bx_proof::Steps;
use std::alloc::Global;

/// The steps of a proof, up to and with the first that is empty, or up to the first that can't pass.
#[derive(Drop)]
pub struct LratProof {
    /// The steps, numbered on from the clauses of the formula.
    pub steps: Steps,
    /// The file's id of each step.
    pub ids: Vec<u64>,
    /// The file's id of the step behind them, where it can't pass whatever it says: it has no hint, or one
    /// that names no clause before it, or its literals are no clause over the formula's variables.
    pub ill: Option<u64>,
}

/// The proof of a text, for a formula.
///
/// # Errors
///
/// The first line that can't be read, or `NoMemory`.
pub fn read_proof(alloc: Global, clauses: &Clauses, text: &[u8]) -> Result<LratProof, TextFault>
    // The steps begin behind the formula's clauses, and are over its variables.
    ensures numbered { IfOk result (λ read. read.steps.first ≡ length clauses.now.clauses + 1) }
    ensures within { IfOk result (λ read. AreWithin clauses.now.vars read.steps.steps) }
    // Each has an id, and ids ascend from above those of the formula.
    ensures named { IfOk result (λ read. length read.ids.items ≡ length read.steps.steps) }
    ensures ascending { IfOk result (λ read.
        IsStrictlyIncreasing (length clauses.now.clauses ∷ read.ids.items)) }
    // An empty one is the last, and what comes behind it isn't read.
    ensures ended { IfOk result (λ read. (k : ℕ) (step : Step)
        → slice_get read.steps.steps k ≡ Some step
        → step.literals ≡ [] → k + 1 ≡ length read.steps.steps) }
    ensures unread { IfOk result (λ read. IsSome read.ill
        → All (λ step. step.literals ≢ []) read.steps.steps) }
    // It keeps what the text says: its steps with their ids, up to the first that is empty or can't pass.
    ensures said { IfOk result (IsProofOf clauses.now text.now) }
    // It is refused where the text is stuck, and that line is told.
    ensures stuck { IfErr result (IsStuckAt (proof_of clauses.now text.now)) }
    // Lines are counted from 1.
    ensures counted { (k : ℕ) → result ≡ Err (TextFault.BadLine k) → 0 < k }
{
    read_steps(alloc, clauses, text)
}
