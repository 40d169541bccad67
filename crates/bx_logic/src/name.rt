//! Names of modules and nets. A name is its bytes and nothing else: which bytes may stand in one is
//! for the reader to say, and so is whether two names are one.
ghost use Rattle.std.specs.Prelude.{◌≡◌, List, ℕ};

use std::marker::Model;

/// A name, as its bytes. Contracts see it as the list of them.
#[derive(Debug, Drop)]
pub struct Name {
    bytes: Vec<u8>,
}

impl Model for Name {
    ghost Value = { List ℕ };

    ghost view = { λ name. name.bytes.items };
}

impl Name {
    /// The name with these bytes. Takes no memory.
    pub fn new(bytes: Vec<u8>) -> Self
        ensures { result ≡ bytes.items }
    {
        Name { bytes }
    }

    /// The bytes of the name.
    pub fn as_slice(&self) -> &[u8]
        ensures { result.now ≡ self.now }
    {
        &self.bytes
    }

    /// The bytes, taken out of the name. Takes no memory.
    pub fn into_vec(self) -> Vec<u8>
        ensures { result.items ≡ self }
    {
        self.bytes
    }
}
