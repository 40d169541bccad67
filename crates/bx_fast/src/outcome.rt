//! How a fast search ends. What each end promises is for `solve_fast` to say.

use bx_cnf::Bits;
use bx_proof::Steps;

/// The end of a fast search.
#[derive(Drop)]
pub enum FastOutcome {
    /// These bits, one for each variable, make all clauses true.
    Sat(Bits),
    /// These steps are accepted, and end with the empty clause.
    Unsat(Steps),
    /// It came to no answer within its conflicts, or within the ids of a log.
    Unknown,
    /// The pulse asked to stop.
    Stopped,
}
