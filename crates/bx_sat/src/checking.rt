//! Whether a proof that was read shows that a formula has no solution, or which of its steps fails first.
ghost use Rattle.std.specs.Prelude.{◌≡◌, ◌≢◌, ◌+◌, ◌≤◌, List, Bool, length, IfOk};
ghost use Rattle.bx_cnf.specs.Formulas.{AllTrue};
ghost use Rattle.bx_proof.specs.Accepted.{IsAccepted};
ghost use Rattle.bx_sat.specs.Checking.{IsFinding, IsNotAccepted};

use bx_check::{check_chunks, first_failure};
use bx_cnf::Clauses;
use bx_dimacs::LratProof;
use bx_logic::NoMemory;
use std::alloc::Global;
use std::thread::Threads;

/// What a proof is.
#[derive(Clone, Copy)]
pub enum Finding {
    /// Its steps are accepted.
    Verified,
    /// The step of this id, the file's own, is the first that fails.
    Fails(u64),
    /// All steps pass, and none is empty.
    Open,
}

/// Whether a proof is accepted for a formula, or which step fails first. Where it is verified, no bits
/// make all clauses true. So many workers check its steps, whose number makes no difference.
///
/// # Errors
///
/// `NoMemory`.
pub fn verify<T: Threads + Sync>(
    threads: &T,
    alloc: Global,
    clauses: &Clauses,
    proof: &LratProof,
    workers: u32,
) -> Result<Finding, NoMemory>
    requires workers { (1 ≤ workers) × (workers ≤ 16) }
    requires numbered { proof.now.steps.first ≡ length clauses.now.clauses + 1 }
    requires named { length proof.now.ids.items ≡ length proof.now.steps.steps }
    ensures finding { IfOk result (IsFinding clauses.now proof.now) }
    ensures verified { IfOk result (λ finding. IsAccepted clauses.now proof.now.steps
        → finding ≡ Finding.Verified) }
    ensures sound { IfOk result (λ finding. finding ≡ Finding.Verified → (bits : List Bool)
        → AllTrue bits clauses.now.clauses → ⊥) }
{
    if check_chunks(threads, alloc, clauses, &proof.steps, workers)? {
        return Ok(Finding::Verified);
    }
    failure_of(alloc, clauses, proof)
}

// Which step fails first, of a proof that isn't accepted.
fn failure_of(alloc: Global, clauses: &Clauses, proof: &LratProof) -> Result<Finding, NoMemory>
    requires numbered { proof.now.steps.first ≡ length clauses.now.clauses + 1 }
    requires named { length proof.now.ids.items ≡ length proof.now.steps.steps }
    requires not_accepted { IsNotAccepted clauses.now proof.now }
    ensures finding { IfOk result (IsFinding clauses.now proof.now) }
    ensures not_verified { IfOk result (λ finding. finding ≢ Finding.Verified) }
{
    if let Some(k) = first_failure(alloc, clauses, &proof.steps)? {
        return Ok(Finding::Fails(proof.ids[k as usize]));
    }
    match proof.ill {
        Some(id) => Ok(Finding::Fails(id)),
        None => Ok(Finding::Open),
    }
}
