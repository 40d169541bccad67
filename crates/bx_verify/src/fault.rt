//! Why there is no verdict.

use bx_logic::NoMemory;
use bx_map::MapFault;

/// Why nothing was verified.
#[derive(Clone, Copy)]
pub enum VerifyFault {
    /// The net has no mapped network, or too large a one. Never with want of memory.
    Map(MapFault),
    /// Memory was refused.
    NoMemory,
}

impl From<NoMemory> for VerifyFault {
    ghost use Rattle.std.specs.Prelude.{◌≡◌};
    ghost use Rattle.bx_verify.specs.declared.fault.VerifyFault.TheVariants.{NoMemory};

    ghost from_gives = { λ _ fault. fault ≡ NoMemory };

    fn from(_: NoMemory) -> Self {
        VerifyFault::NoMemory
    }
}

impl From<MapFault> for VerifyFault {
    ghost use Rattle.std.specs.Prelude.{◌≡◌};
    ghost use Rattle.bx_verify.specs.Answers.{told_as};

    ghost from_gives = { λ why fault. fault ≡ told_as why };

    fn from(why: MapFault) -> Self {
        match why {
            MapFault::NoMemory => VerifyFault::NoMemory,
            _ => VerifyFault::Map(why),
        }
    }
}
