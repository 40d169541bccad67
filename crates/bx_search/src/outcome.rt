//! How a search ends.

use bx_cnf::Bits;
use bx_proof::Steps;

/// The end of a search.
#[derive(Drop)]
pub enum Outcome {
    /// These bits, one for each variable, make all clauses true.
    Sat(Bits),
    /// These steps end with the empty clause.
    Unsat(Steps),
    /// The next step would pass the budget, of which so much is spent.
    Undecided(u64),
    /// The pulse asked to stop.
    Stopped,
}
