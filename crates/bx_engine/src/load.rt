//! From the files that are read to what they hold: a module with its network, a library, a design, a certificate. It
//! promises what the file holds and else why there is none, and says nothing.
mod cert;
mod design;
mod library;
mod network;

use crate::status::InputFault;
use bx_logic::{Net, NoMemory};
use bx_network::MappedNet;
pub use cert::load_cert;
pub use design::{cut_design, load_design};
pub(crate) use library::library_of_text;
pub use library::load_library;
pub use network::load_module;
pub(crate) use network::module_of_text;

/// A module's net, and the network that it is mapped to.
#[derive(Drop)]
pub struct Module {
    pub net: Net,
    pub mapped: MappedNet,
}

/// Why nothing was made of a file. Nothing was said yet.
#[derive(Drop)]
pub enum NoInput {
    /// The file was read and is refused.
    Fault(InputFault),
    /// The file could not be read.
    Unread,
    /// Memory was refused.
    NoMemory,
}

impl From<NoMemory> for NoInput {
    ghost use Rattle.std.specs.Prelude.{◌≡◌};
    ghost use Rattle.bx_engine.specs.declared.load.NoInput.TheVariants.{NoMemory as Refused};

    ghost from_gives = { λ _ end. end ≡ Refused };

    fn from(_fault: NoMemory) -> Self {
        NoInput::NoMemory
    }
}
