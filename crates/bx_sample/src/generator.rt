//! Pseudo-random numbers: a linear congruential generator, with the multiplier and the increment of
//! the C standard's example of `rand`, modulo 2^31. It promises its states and what it draws from
//! them; what is drawn is for others to say. Turned down: the low bits of a state, which have short
//! periods (Knuth, 1969).
ghost use Rattle.std.specs.Prelude.{◌≡◌, ◌<◌};
ghost use Rattle.bx_sample.specs.Draws.{next, pick};

const MULTIPLIER: u64 = 1_103_515_245;

const INCREMENT: u64 = 12_345;

const MODULUS: u64 = 2_147_483_648;
// Two to the number of the low bits that no draw has a part in.
const LOW: u32 = 65_536;

/// A generator, by its state.
#[derive(Drop)]
pub(crate) struct Generator {
    state: u32,
}

impl Generator {
    /// The generator whose first state is this number.
    pub fn new(number: u32) -> Self
        ensures { result.state ≡ number }
    {
        Generator { state: number }
    }

    /// Goes on to the next state, and draws from it one of the numbers from 0 that are below `many`.
    pub fn draw(&mut self, many: u32) -> u32
        requires { 0 < many }
        ensures state { self.new.state ≡ next self.old.state }
        ensures drawn { result ≡ pick many self.new.state }
    {
        let state = (u64::from(self.state) * MULTIPLIER + INCREMENT) % MODULUS;
        self.state = state as u32;
        self.state / LOW % many
    }
}
