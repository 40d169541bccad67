//! The meaning of modules of the Verilog profile (IEEE 1364-2005, gate primitives and assignments): the
//! net of a module, or the first thing that is wrong with it.
#![tactic(auto)]

mod check;
mod drivers;
mod elaborate;
mod expression;
pub mod fault;
pub mod laws;
mod mentions;
mod names;
mod ports;
// Public, since contracts speak of it.
pub mod role;
mod sorted_names;
mod uses;

pub use bx_syntax::{Construct, Module, ReadFault, read_module};
pub use elaborate::to_net;
pub use fault::NetFault;
