//! Why a text can't be read.

use bx_logic::NoMemory;
use thiserror::Error;

/// Why no formula, or no proof, was read.
#[derive(Clone, Copy, Debug, Error)]
pub enum TextFault {
    /// The first line that can't be read, counted from 1. Where clauses of a formula are missing it is the
    /// line behind the last.
    #[error("line {0} can't be read")]
    BadLine(u64),
    /// Memory was refused.
    #[error("out of memory")]
    NoMemory,
}

impl From<NoMemory> for TextFault {
    ghost use Rattle.std.specs.Prelude.{◌≡◌};
    ghost use Rattle.bx_dimacs.specs.declared.fault.TextFault.TheVariants.{NoMemory};

    ghost from_gives = { λ _ fault. fault ≡ NoMemory };

    fn from(_: NoMemory) -> Self {
        TextFault::NoMemory
    }
}
