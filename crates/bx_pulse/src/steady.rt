//! The pulse of a search that nothing stops. It has no bytes: how often it was asked is known to proofs
//! alone, by the tokens of a ledger, which the caller opens.
ghost use Rattle.std.specs.Prelude.{◌≡◌, ◌<◌};

use crate::pulse::Pulse;
use std::marker::Model;
use std::sync::ledger::{Blank, Book, Ledger, Share};

/// A pulse that always says yes. Contracts see how often it was asked.
#[derive(Drop)]
pub struct Steady<L: Ledger> {
    book: Book<L>,
    share: Share<L>,
}

impl<L: Ledger> Model for Steady<L> {
    ghost use Rattle.std.specs.Prelude.{ℕ, ◌<◌};

    ghost Value = { ℕ };

    ghost view = { λ p. p.book.total };

    ghost invariant = { λ p. 0 < p.share.parts };
}

impl<L: Ledger> Steady<L> {
    /// It was not asked yet. The ledger is a new one, of one part or more.
    pub fn new(blank: Blank) -> Self
        requires name { blank.name ≡ L.name }
        requires parts { blank.parts ≡ L.parts }
        requires some { 0 < blank.parts }
        ensures { result ≡ 0 }
    {
        let (book, share) = blank.open::<L>();
        Steady { book, share }
    }
}

impl<L: Ledger> Pulse for Steady<L> {
    ghost use Rattle.std.specs.Prelude.{◌≤◌, ⊤};
    ghost use Rattle.std.proofs.Math.Nat.{le_refl, le_trans};

    ghost asked = { λ p. p };

    ghost stops = { λ _. 0 };

    ghost ready = { λ _. ⊤ };

    ghost leads = { λ p q. p ≤ q };

    fn wanted(&mut self) -> bool {
        self.book.add(&mut self.share, 1);
        true
    }

    ghost leads_to_itself = { le_refl };

    ghost leads_on = { λ p q r. le_trans };
}
