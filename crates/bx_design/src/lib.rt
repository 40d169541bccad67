//! The solution of a network: the layout of least area, and then of least width, within limits, with a certificate
//! that no ratio before it in the order has one; or the first ratio that the budget leaves undecided; or none.
//!
//! What is promised is a function of network, permit, limits and budget, and a law says what it is worth: each
//! section refutes its ratio, so no earlier ratio has a legal layout, and the form grid that was found is sound
//! and computes the network. How a ratio is refuted or found is for bx_verdict, what a certificate's text is for
//! bx_cert, and what is written and said is for those above.
#![tactic(auto)]

mod certificate;
mod find;
pub mod laws;
mod solution;

pub use find::find_design;
pub use solution::{LaidOut, Solution};
