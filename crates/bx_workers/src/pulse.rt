//! The pulse of a worker's searches: each time that a search asks whether it is still wanted, the worker's seat
//! looks.

use bx_pulse::Pulse;
use bx_race::{Race, RaceSeat};

/// A seat of a race with a current index, while that one is tried.
#[derive(Drop)]
pub(crate) struct Looking<'a> {
    pub(crate) race: &'a Race,
    pub(crate) seat: &'a mut RaceSeat,
}

impl Pulse for Looking<'_> {
    ghost use Rattle.std.specs.Prelude.{length, IsSome};
    ghost use Rattle.bx_race.specs.Seats.{draws, looks, IsSeatOf};
    ghost use Rattle.bx_workers.specs.Pulses.{LooksOn, looks-to_itself, looks-on};

    ghost asked = { λ p. looks p.seat.now };

    ghost stops = { λ p. length (draws p.seat.now).dropped };

    ghost ready = { λ p. IsSeatOf p.race.now p.seat.now × IsSome (draws p.seat.now).current };

    ghost leads = { LooksOn };

    fn wanted(&mut self) -> bool {
        self.race.look(self.seat)
    }

    ghost leads_to_itself = { looks-to_itself };

    ghost leads_on = { looks-on };
}
