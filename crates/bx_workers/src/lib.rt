//! Workers race the ratios of a problem. Each draws ratios one by one and finds out what is known of them, and gives
//! one up once an earlier one is decided; what comes out is what one of them alone would find, however many there
//! are and whatever the schedule was: why each ratio before the first that isn't refuted has no layout, and what is
//! known of that one.
//!
//! Each worker has its results for itself, so nothing waits for anything, and what two threads share is the race
//! alone. How indices are drawn and given up is for bx_race to say, what a verdict is for bx_verdict, and what is
//! made of the verdicts for those above.
#![tactic(auto)]

mod order;
mod problem;
mod pulse;
mod racing;
mod refutations;
mod results;
mod threads;
mod worker;

pub use bx_verdict::Last;
pub use problem::Problem;
pub use racing::{Raced, race_all};
pub use refutations::Refutations;
pub use results::{Ended, Results, Tried};
pub use worker::Worker;
