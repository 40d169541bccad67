//! Proof logs: steps, each a clause that is added to a formula and the ids of the clauses from which it
//! follows by propagation, in the order in which they are to be propagated.
//!
//! `Steps` keeps its literals and its hints in one vector each, with one of ends, so that a step takes no
//! allocation of its own. It promises the list of the steps, with ids that go up by one, hints that name
//! clauses before the step, and literals that ascend by variable. Whether the steps prove anything is
//! for `bx_check` to say.
//!
//! A log has one text, whose lines are those of LRAT (Cruz-Filipe and others, 2017) without deletions:
//!
//! ```text
//! 46 -1 3 0 11 1 5 0
//! 47 0 46 45 0
//! ```
//!
//! `write_steps` puts out exactly that text, and `read_steps` reads it and nothing else: where bytes are no
//! log's text it names the first bad line.
#![tactic(auto)]

mod fault;
pub mod laws;
mod line;
mod read;
mod refutation;
mod steps;
mod write;

pub use fault::StepFault;
pub use read::read_steps;
pub use refutation::Refutation;
pub use steps::{Steps, is_step};
pub use write::{print_steps, write_steps};
