//! A layout of a mapped network at once, in lanes, however large the network is. Edges run down in
//! columns, and the nodes take them one after the other, two rows for each step. Here stand this grid, its
//! pins, and why there is none. It makes no claim of least size, and what a grid computes is for the
//! layouts to say.
#![tactic(auto)]

pub mod laws;
mod missing;
// Public, since contracts speak of it.
pub mod operation;
mod pins;
mod quick;
mod rows;
mod state;
mod walk;
mod width;

pub use quick::{Quick, QuickFault, Tiles, lay_quick};
