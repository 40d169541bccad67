//! Refutations: why a ratio has no layout. Whether one is right is for the checkers above to say.

use crate::Steps;
use bx_grid::CountProof;

/// Why there is no layout of a ratio.
#[derive(Drop)]
pub enum Refutation {
    /// An inequality between counts.
    Count(CountProof),
    /// Steps that refute the ratio's formula.
    Clauses(Steps),
}
