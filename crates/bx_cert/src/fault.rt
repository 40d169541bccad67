//! Why bytes are no certificate.

use bx_logic::NoMemory;
use std::alloc::AllocFailed;
use thiserror::Error;

/// Why no certificate was read.
#[derive(Clone, Copy, Debug, Error)]
pub enum CertFault {
    /// The first bad line, counted from 1: up to it the lines aren't those of any certificate.
    #[error("line {0} is no line of a certificate")]
    BadCert(u64),
    /// Memory was refused.
    #[error("out of memory")]
    NoMemory,
}

impl From<NoMemory> for CertFault {
    ghost use Rattle.std.specs.Prelude.{◌≡◌};
    ghost use Rattle.bx_cert.specs.declared.fault.CertFault.TheVariants.{NoMemory};

    ghost from_gives = { λ _ fault. fault ≡ NoMemory };

    fn from(_: NoMemory) -> Self {
        CertFault::NoMemory
    }
}

impl<T: Drop> From<AllocFailed<T>> for CertFault {
    ghost use Rattle.std.specs.Prelude.{◌≡◌};
    ghost use Rattle.bx_cert.specs.declared.fault.CertFault.TheVariants.{NoMemory};

    ghost from_gives = { λ _ fault. fault ≡ NoMemory };

    fn from(_: AllocFailed<T>) -> Self {
        CertFault::NoMemory
    }
}
