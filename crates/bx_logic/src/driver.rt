//! What gives a net its value. Which numbers may stand in a driver is for the net to say.
ghost use Rattle.std.specs.Prelude.{◌≡◌};
ghost use Rattle.bx_logic.specs.Nets.{arguments_of};

use crate::{Args, Op};

/// What gives a net its value: an input by its number, a constant, or a gate that reads other nets.
#[derive(Drop)]
pub enum Driver {
    Input(u32),
    Constant(bool),
    Gate(Op, Args),
}

impl Driver {
    /// The numbers of the nets that it reads, in order.
    pub(crate) fn arguments(&self) -> &[u32]
        ensures { result.now ≡ arguments_of self.now }
    {
        match self {
            Driver::Gate(_, args) => args.as_slice(),
            Driver::Input(_) | Driver::Constant(_) => &[],
        }
    }
}
