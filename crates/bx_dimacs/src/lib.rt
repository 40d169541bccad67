//! Formulas in the format of DIMACS and proofs in the text of LRAT, from anywhere: as solvers, checkers and
//! collections of instances write them.
//!
//! ```text
//! c a formula of three variables and two clauses
//! p cnf 3 2
//! 1 -3 0
//! 2
//! 3 -1 0
//! ```
//!
//! `read_formula` takes comments, several clauses a line, clauses over several lines, and literals in any
//! order and twice. A clause with a variable and its negation keeps its number: in its place stands a clause
//! over two variables of its own, beyond those that the file declares.
//!
//! ```text
//! 3 d 1 0
//! 5 2 1 0 1 2 0
//! 9 0 5 2 0
//! ```
//!
//! `read_proof` takes literals in any order and twice, deletions, comments, and ids with gaps. It keeps the
//! file's id of each step, and tells that of a step that can't pass whatever it says.
//!
//! Both promise that what they read is what the text says, as `specs/FormulaTexts.antt` and
//! `specs/ProofTexts.antt` have it, or that the line that is told is the first at which it is stuck. It can be
//! handed on as it is: the clauses are a formula's; the steps begin behind its clauses, are over its variables
//! and end with the first that is empty. Whether the steps prove anything is for `bx_check` to say.
#![tactic(auto)]

mod draft;
mod fault;
mod formula;
pub mod laws;
mod line;
mod literals;
mod proof;
mod read;
mod scan;

pub use fault::TextFault;
pub use formula::{DimacsFormula, read_formula};
pub use proof::{LratProof, read_proof};
