//! Why bytes are no design.

use std::alloc::AllocFailed;
use thiserror::Error;

/// Why no design was read.
#[derive(Clone, Copy, Debug, Error)]
pub enum DesignFault {
    /// The first bad line, counted from 1: up to it the lines aren't those of any design.
    #[error("line {0} is no line of a design")]
    BadDesign(u64),
    /// Memory was refused.
    #[error("out of memory")]
    NoMemory,
}

impl<T: Drop> From<AllocFailed<T>> for DesignFault {
    ghost use Rattle.std.specs.Prelude.{◌≡◌};
    ghost use Rattle.bx_siqad.specs.declared.fault.DesignFault.TheVariants.{NoMemory};

    ghost from_gives = { λ _ fault. fault ≡ NoMemory };

    fn from(_: AllocFailed<T>) -> Self {
        DesignFault::NoMemory
    }
}
