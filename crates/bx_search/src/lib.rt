//! A clause-learning solver. What it answers, and each byte of its log, is a function of formula and
//! budget, and the definition of the search says which: the state after each event as lists, and how the
//! search ends. `solve` promises exactly that end, unless a `Pulse` that it asks as it goes stops it.
//!
//! The state is kept in parts, each a type with a contract of its own: the trail and the queue, the
//! clauses under the trail, what was learned, and the marks of conflict analysis. `solver` keeps them in
//! agreement; `propagate`, `decide`, `learn` and `backtrack` each make one event of the definition.
#![tactic(auto)]

mod analyze;
mod backtrack;
mod decide;
pub mod laws;
mod learn;
mod marks;
mod outcome;
mod propagate;
mod search;
mod solver;
mod tally;
mod trail;

pub use outcome::Outcome;
pub use search::{solve, solve_counted};
pub use tally::Tally;
