//! What can be in the way of cutting a set of dots into tiles. Which of these comes first is for
//! the definitions to say.
ghost use Rattle.std.specs.Prelude.{◌≡◌};
ghost use Rattle.bx_dots.specs.declared.fault.CutFault.TheVariants.{NoMemory as OutOfMemory};

use bx_library::Dot;
use bx_logic::NoMemory;
use std::alloc::{AllocError, AllocFailed};

/// Why a set of dots is cut into no form grid. `NoMemory` is no fault of the dots, and may come at
/// any time.
#[derive(Clone, Copy)]
pub enum CutFault {
    /// The dot lies in no tile, the first such.
    StrayDot(Dot),
    /// Every dot lies in a tile, and the dots of this one are neither none nor those of a form of
    /// its row, the least such.
    StrangeTile(u32),
    /// Memory was refused.
    NoMemory,
}

impl From<NoMemory> for CutFault {
    ghost from_gives = { λ _ fault. fault ≡ OutOfMemory };

    fn from(_: NoMemory) -> Self {
        CutFault::NoMemory
    }
}

impl From<AllocError> for CutFault {
    ghost from_gives = { λ _ fault. fault ≡ OutOfMemory };

    fn from(_: AllocError) -> Self {
        CutFault::NoMemory
    }
}

impl<T: Drop> From<AllocFailed<T>> for CutFault {
    ghost from_gives = { λ _ fault. fault ≡ OutOfMemory };

    fn from(_: AllocFailed<T>) -> Self {
        CutFault::NoMemory
    }
}
