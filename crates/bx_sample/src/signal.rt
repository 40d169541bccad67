//! The signals of a sample, in the order in which they come: the inputs, the gates of which the last
//! ones are outputs, and further gates.
ghost use Rattle.std.specs.Prelude.{◌≡◌, Some};
ghost use Rattle.bx_sample.specs.Signals.{name_of, signal_of};

use std::fmt;

/// How many inputs a sample has.
pub(crate) const INPUTS: u32 = 4;

/// A signal, by its number among those of its kind.
#[derive(Clone, Copy)]
pub enum Signal {
    Input(u32),
    Gate(u32),
    Extra(u32),
}

impl Signal {
    /// The signal with this number, where there are so many gates that aren't extra.
    pub fn of(gates: u32, number: u32) -> Signal
        ensures { result ≡ signal_of gates number }
    {
        if number < INPUTS {
            Signal::Input(number)
        } else if number - INPUTS < gates {
            Signal::Gate(number - INPUTS)
        } else {
            Signal::Extra(number - INPUTS - gates)
        }
    }
}

impl fmt::Display for Signal {
    ghost output = { λ signal. Some (name_of signal) };

    fn fmt<W: fmt::Write>(&self, f: &mut fmt::Formatter<W>) -> fmt::Result {
        match *self {
            Signal::Input(k) => write!(f, "i{k}"),
            Signal::Gate(k) => write!(f, "g{k}"),
            Signal::Extra(k) => write!(f, "x{k}"),
        }
    }
}
