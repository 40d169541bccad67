//! The SAT solver and its checker, as a program has them: `check FORMULA PROOF` says whether a proof in
//! LRAT text shows that a DIMACS formula has no solution, and `solve FORMULA BUDGET [PROOF]` searches for
//! one, and writes such a proof where there is none; `solve FORMULA --fast CONFLICTS [PROOF]` does so by the
//! fast search, whose answers are as sure, and of which it isn't promised that there is one. What is said,
//! and the exit statuses, are those of the SAT competitions.
//!
//! `verify`, `decide` and `decide_fast` are what is behind them, over clauses and steps that were read: a
//! proof is verified exactly where its steps are accepted, and then no bits make all clauses true; bits
//! that are found make them true; and a log that is found is accepted. `run_sat` reads the words and the
//! files, and says what they answer. What is read of the two formats is `bx_dimacs`'s.
#![tactic(auto)]

mod checking;
mod command;
pub mod laws;
mod load;
mod run;
mod say;
mod solving;
mod status;
mod workers;

pub use checking::{Finding, verify};
pub use run::run_sat;
pub use solving::{Answer, decide, decide_fast};
pub use status::SatStatus;
