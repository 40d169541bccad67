//! The checker of proof logs. `check` says yes exactly on logs that are accepted: each step follows from
//! the clauses before it by propagation of its own hints, in their order, and the last step, and no other,
//! has no literals. Where it says yes, no bits make all clauses of the formula true, whoever made the log.
//! `first_failure` names the first step that doesn't follow so, whether the log ends or not. `check_chunks`
//! says what `check` says, and checks the steps in chunks, on several threads.
//!
//! A step takes work linear in its literals and those of the clauses that its hints name: the values of
//! the variables are one array for each chunk, of which only what a step has written is set back after it.
//! It is for no more variables than there are literals; others, which only a file with gaps in its numbers
//! names, have their values in a tree.
#![tactic(auto)]

mod assignment;
mod checker;
mod chunks;
pub mod laws;
mod left;
mod values;

pub use checker::{check, first_failure};
pub use chunks::check_chunks;
