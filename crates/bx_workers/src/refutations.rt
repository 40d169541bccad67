//! Refutations in the order of ratios.
ghost use Rattle.std.specs.Prelude.{◌≡◌};

use bx_proof::Refutation;
use std::marker::Model;

/// Why the first ratios have no layout, one after the other. Contracts see it as the list of refutations.
#[derive(Drop)]
pub struct Refutations {
    proofs: Vec<Refutation>,
}

impl Model for Refutations {
    ghost use Rattle.std.specs.Prelude.{List};
    ghost use Rattle.bx_proof.specs.declared.refutation.Refutation.{Refutation};

    ghost Value = { List Refutation };

    ghost view = { λ refutations. refutations.proofs.items };
}

impl Refutations {
    /// These refutations. Takes no memory.
    pub fn new(proofs: Vec<Refutation>) -> Refutations
        ensures { result ≡ proofs.items }
    {
        Refutations { proofs }
    }

    /// The refutations, in order.
    pub fn as_slice(&self) -> &[Refutation]
        ensures { result.now ≡ self.now }
    {
        &self.proofs
    }

    /// The refutations, taken out. Takes no memory.
    pub fn into_vec(self) -> Vec<Refutation>
        ensures { result.items ≡ self }
    {
        self.proofs
    }
}
