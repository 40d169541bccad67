//! Why bytes are no log.

use bx_logic::NoMemory;
use thiserror::Error;

/// Why no steps were read.
#[derive(Clone, Copy, Debug, Error)]
pub enum StepFault {
    /// The first bad line, counted from 1: up to it the lines aren't those of any log.
    #[error("line {0} is no step of a log")]
    BadStep(u64),
    /// Memory was refused.
    #[error("out of memory")]
    NoMemory,
}

impl From<NoMemory> for StepFault {
    ghost use Rattle.std.specs.Prelude.{◌≡◌};
    ghost use Rattle.bx_proof.specs.declared.fault.StepFault.TheVariants.{NoMemory};

    ghost from_gives = { λ _ fault. fault ≡ NoMemory };

    fn from(_: NoMemory) -> Self {
        StepFault::NoMemory
    }
}
