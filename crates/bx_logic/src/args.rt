//! The arguments of a gate. There is at least one, and the type keeps this; whether the numbers are
//! those of nets is for the net to say.
ghost use Rattle.std.specs.Prelude.{◌≡◌, ◌<◌, List, ℕ, length};

use std::marker::Model;

/// The numbers of the nets that a gate reads, of which there is at least one. Contracts see it as the
/// list of them.
#[derive(Drop)]
pub struct Args {
    nets: Vec<u32>,
}

impl Model for Args {
    ghost Value = { List ℕ };

    ghost view = { λ args. args.nets.items };

    ghost invariant = { λ args. 0 < length args.nets.items };
}

impl Args {
    /// The arguments with these numbers. Takes no memory.
    pub fn new(nets: Vec<u32>) -> Self
        requires { 0 < length nets.items }
        ensures { result ≡ nets.items }
    {
        Args { nets }
    }

    /// The numbers, in order.
    pub fn as_slice(&self) -> &[u32]
        ensures same { result.now ≡ self.now }
        ensures some { 0 < length self.now }
    {
        &self.nets
    }

    /// The numbers, taken out of the arguments. Takes no memory.
    pub fn into_vec(self) -> Vec<u32>
        ensures same { result.items ≡ self }
        ensures some { 0 < length self }
    {
        self.nets
    }
}
