//! What a worker takes part in a race with.
ghost use Rattle.std.specs.Prelude.{◌≡◌, ◌≤◌, []};

use crate::view::View;
use atomic_table::Seat;

/// A worker's seat. When the program runs it holds the index that is current, if there is one; what it
/// drew, how often it looked and for how many seats it stands is there for proofs alone.
#[derive(Drop)]
pub struct RaceSeat {
    pub(crate) current: Option<u64>,
    pub(crate) seat: Seat<(), View>,
    ghost same: { current ≡ seat.me.0.draws.current },
    ghost some_seat: { 1 ≤ seat.me.0.stands },
    ghost no_slot: { seat.me.1 ≡ [] },
}
