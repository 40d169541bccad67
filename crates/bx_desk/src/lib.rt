//! Files, output and gates, as bestagon sees them. Everything above works over the trait `Desk`, so
//! it is proved over any desk; `StdDesk` is the one real one. A text goes through a `Piece`, which gathers
//! it, and a `Printer`, which puts words and lines into the piece. A `QuietDesk` never fails and keeps nothing. The
//! desk for tests and worked examples is in the module `memory`.
#![tactic(auto)]

mod desk;
pub mod faults;
mod gate;
mod held;
pub mod laws;
pub mod memory;
mod piece;
mod printer;
mod quiet;
mod standard;
mod target;

pub use desk::{Desk, Failed, LoadFault};
pub use gate::{Gate, OpenGate};
pub use memory::MemDesk;
pub use piece::Piece;
pub use printer::{Printer, Word};
pub use quiet::QuietDesk;
pub use standard::StdDesk;
