//! What a race came to.
ghost use Rattle.std.specs.Prelude.{◌≡◌};

use crate::view::View;
use atomic_table::Seat;

/// A race that is over, made by `Race::finish` alone. When the program runs it holds the least word; what
/// all seats did together is there for proofs alone.
#[derive(Drop)]
pub struct Finished {
    pub(crate) least: u64,
    pub(crate) whole: Seat<(), View>,
}

impl Finished {
    ghost use Rattle.bx_race.specs.Finished.{least_of};

    /// The least index that was offered, or the number of indices where none was.
    pub fn least(&self) -> u64
        ensures { result ≡ least_of self.now }
    {
        self.least
    }
}
