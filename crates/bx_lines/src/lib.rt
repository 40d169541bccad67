//! What the readers of bestagon's texts have in common: decimal numbers, lines, and the first line at which
//! bytes stop being a text.
//!
//! A grammar of texts is a way to go on from each line: a state at the start, the lines that lead from one
//! state to another, and the states in which a text may end. Its first bad line is the least number k such
//! that the first k lines of the bytes aren't the first k lines of any text. A reader that goes from line
//! to line, and stops where no line goes on, has found it, if a text can be ended from each state. So an
//! exact place costs a reader nothing. What a line says is left to the crates above.
#![tactic(auto)]

mod decimal;
pub mod laws;

pub use decimal::number_at;
