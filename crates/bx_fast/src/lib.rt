//! The fast solver: one that is free in how it searches, and whose every answer is checked before it is
//! given. `solve_fast` promises that bits it gives make all clauses true, and that steps it gives are
//! accepted; of the search itself only that each call returns. So what the search keeps are plain tables
//! of numbers, which are read by `at` and written by `put`: a place outside of a table reads as a number
//! that does no harm. A search that went wrong ends in `Unknown`, and never in a wrong answer.
//!
//! A variable is its number in the formula, from 1 on. A literal is kept as its code: twice the variable,
//! and one more where it is negated. A clause of three literals or more is named by its place in the
//! arena, one of two stands in the lists of watches alone.
#![tactic(auto)]

mod analyze;
mod arena;
mod assigned;
mod certify;
mod codes;
mod decide;
mod learn;
mod load;
mod log;
mod minimize;
mod outcome;
mod pace;
mod propagate;
mod queue;
mod reduce;
mod scores;
mod search;
mod solver;
mod table;
mod trimming;
mod watch;

pub use outcome::FastOutcome;
pub use search::solve_fast;
pub use trimming::trim;
