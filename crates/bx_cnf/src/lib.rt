//! Literals, and formulas in conjunctive normal form: what everything that speaks of satisfiability
//! stands on. A literal is a variable, numbered from 1, or its negation; a clause is a list of literals,
//! of which one is to be true; a formula is a list of clauses, all of which are to be true.
//!
//! `Clauses` keeps a formula in one vector of literals and one of ends, so that a clause more takes no
//! allocation of its own. `all_true` says exactly whether bits make all clauses true. What clauses mean,
//! who makes them and who solves them is left to the crates above.
#![tactic(auto)]

mod bits;
mod clauses;
mod flat;
pub mod laws;
mod lit;

pub use bits::Bits;
pub use clauses::{Clauses, all_true, is_clause};
pub use flat::Flat;
pub use lit::Lit;
