//! The decision queue of the solver: variables in an order that bumping changes, and which of them are
//! assigned. A move, an assignment and its undoing take a few steps, however many variables there are; a
//! search for a free variable goes on where the last one ended.
#![tactic(auto)]

pub mod laws;
mod queue;
mod ring;

pub use queue::MoveFront;
