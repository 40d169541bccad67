//! A pulse that says yes so often, and then no.
ghost use Rattle.std.specs.Prelude.{◌≡◌, ◌<◌, ◌≤◌, ◌+◌, false, IsTrue};

use bx_pulse::Pulse;

/// It was asked so often, says yes so often, and said no so often.
#[derive(Drop)]
pub struct Few {
    pub asked: u64,
    pub yes: u64,
    pub stops: u64,
}

impl Pulse for Few {
    ghost use Rattle.std.specs.Prelude.{◌≡◌, ◌<◌, ◌≤◌};

    ghost asked = { λ p. p.asked };

    ghost stops = { λ p. p.stops };

    ghost ready = { λ p. (p.asked ≤ p.yes) × (p.yes < 1000000) × (p.stops ≡ 0) };

    ghost leads = { λ p q. Unit {0} };

    fn wanted(&mut self) -> bool {
        self.asked += 1;
        let yes = self.asked <= self.yes;
        if !yes {
            self.stops += 1;
        }
        yes
    }

    ghost leads_to_itself = { λ p. tt };

    ghost leads_on = { λ p q r a b. tt };
}
