//! Whether a search is still wanted. Who runs a search decides it by a `Pulse`, which the search asks as
//! it goes; what a pulse looks at, as a clock or another thread, is its own. `Steady` is the pulse of a
//! search that nothing stops. Searches stand in crates above, so that two of them can share a pulse.
#![tactic(auto)]

mod pulse;
mod steady;

pub use pulse::Pulse;
pub use steady::Steady;
