//! The last look at an answer: bits are given only where they make all clauses true, steps only where
//! they are accepted. Who found them, and how, plays no part.
ghost use Rattle.std.specs.Prelude.{◌≡◌, ◌≢◌, IfOk};
ghost use Rattle.bx_fast.specs.Fast.{IsCertified};

use crate::outcome::FastOutcome;
use crate::trimming::trim;
use bx_check::check;
use bx_cnf::{Bits, Clauses, all_true};
use bx_logic::NoMemory;
use bx_proof::Steps;
use std::alloc::Global;

/// The answer that bits give.
pub(crate) fn certify_bits(clauses: &Clauses, bits: Vec<bool>) -> FastOutcome
    ensures certified { IsCertified clauses.now result }
    ensures goes_on { result ≢ FastOutcome.Stopped }
{
    let bits = Bits::new(bits);
    let row = bits.as_slice();
    if row.len() == clauses.vars() as usize && all_true(clauses, row) {
        return FastOutcome::Sat(bits);
    }
    FastOutcome::Unknown
}

/// The answer that steps give, of which those go that aren't needed.
///
/// # Errors
///
/// `NoMemory`.
pub(crate) fn certify_steps(
    alloc: Global,
    clauses: &Clauses,
    steps: &Steps,
) -> Result<FastOutcome, NoMemory>
    ensures certified { IfOk result (IsCertified clauses.now) }
    ensures goes_on { IfOk result (λ end. end ≢ FastOutcome.Stopped) }
{
    let trimmed = trim(alloc, steps)?;
    if check(alloc, clauses, &trimmed)? {
        return Ok(FastOutcome::Unsat(trimmed));
    }
    Ok(FastOutcome::Unknown)
}
