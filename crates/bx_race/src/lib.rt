//! A race: workers on several threads draw the indices below a number one by one, and give up an index
//! once one below it is decided, without a lock and without waiting. Two shared words are all that they
//! share: how many draws there were, and the least index that was offered. What all workers did together
//! is known at the end, whatever the schedule was.
//!
//! Nothing here knows what an index stands for, starts a thread or says when a worker is to look.
#![tactic(auto)]

mod finished;
pub mod laws;
mod race;
mod rule;
mod seat;
mod threads;
mod view;

pub use finished::Finished;
pub use race::Race;
pub use seat::RaceSeat;
