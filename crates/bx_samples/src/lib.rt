//! What the tests of several crates are tried on: small mapped networks, written out by node and by edge, and
//! permits that lack some forms. It stands for tests alone, and no program is made of it.
#![tactic(auto)]

mod networks;
mod permits;

pub use networks::{branching, conjunction, half_adder, inversion, passing, twice, unused};
pub use permits::without;
