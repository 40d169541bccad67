//! The forms of a hexagonal tile, as one table: which sides a form uses, the kind of node that it
//! holds, and what goes out below for what comes in above. With it stand the kinds of nodes, their
//! operands and slots, and what a node gives to each slot. The table is data; where a tile stands,
//! and what a network is, is for the crates above to say. No call takes memory.
#![tactic(auto)]

mod form;
mod kind;
pub mod laws;
mod set;
mod side;
mod table;

pub use form::Form;
pub use kind::Kind;
pub use set::FormSet;
pub use side::{Side, Sides};
