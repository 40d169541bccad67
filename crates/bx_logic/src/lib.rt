//! What every crate of bestagon stands on: the one answer for want of memory, names as they stand in
//! a user's file, and the nets of a module with their values. Nothing here reads a file, prints or
//! decides anything.
#![tactic(auto)]

mod args;
mod components;
mod cycle;
mod driver;
mod eval;
mod gate;
pub mod laws;
mod memory;
mod name;
mod net;
mod op;
pub mod ranks;

pub use args::Args;
pub use cycle::least_net_on_cycle;
pub use driver::Driver;
pub use memory::NoMemory;
pub use name::Name;
pub use net::Net;
pub use op::Op;
