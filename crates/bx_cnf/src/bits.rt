//! Values of variables. Which variable has which bit is for the formula to say: bit 0 is that of
//! variable 1.
ghost use Rattle.std.specs.Prelude.{◌≡◌, List, Bool};

use std::marker::Model;

/// One value for each variable. Contracts see it as the list of them.
#[derive(Drop)]
pub struct Bits {
    values: Vec<bool>,
}

impl Model for Bits {
    ghost Value = { List Bool };

    ghost view = { λ bits. bits.values.items };
}

impl Bits {
    /// These values. Takes no memory.
    pub fn new(values: Vec<bool>) -> Self
        ensures { result ≡ values.items }
    {
        Bits { values }
    }

    /// The values, in order.
    pub fn as_slice(&self) -> &[bool]
        ensures { result.now ≡ self.now }
    {
        &self.values
    }

    /// The values, taken out. Takes no memory.
    pub fn into_vec(self) -> Vec<bool>
        ensures { result.items ≡ self }
    {
        self.values
    }
}
