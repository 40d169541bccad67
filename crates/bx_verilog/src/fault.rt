//! The faults of a module that is in the grammar: what can be wrong with it, and with which of its names.
//! Which fault comes first is for the definitions that contracts cite to say, and for others to find.
ghost use Rattle.std.specs.Prelude.{◌≡◌};
ghost use Rattle.bx_verilog.specs.declared.fault.NetFault.TheVariants.{NoMemory as OutOfMemory};

use bx_logic::{Name, NoMemory};

/// Why a module has no net. The faults come in this order, and of one kind that of the least-numbered
/// name comes first. `NoMemory` is no fault of the module, and may come at any time.
#[derive(Debug, Drop)]
pub enum NetFault {
    /// The name stands twice in the header, has two directions, stands in the header without one, or has
    /// one and doesn't stand there.
    BadPort(Name),
    /// No port is an output.
    NoOutput,
    /// Two things drive the name.
    TwoDrivers(Name),
    /// The name is read or is an output, and nothing drives it.
    NoDriver(Name),
    /// The name depends on itself.
    Cycle(Name),
    /// Memory was refused.
    NoMemory,
}

impl From<NoMemory> for NetFault {
    ghost from_gives = { λ _ fault. fault ≡ OutOfMemory };

    fn from(_: NoMemory) -> Self {
        NetFault::NoMemory
    }
}
