//! The picture of a design: its words, the files that they name, and what stands on standard output. A library and a design
//! make the grid; a module and its certificate, where they are named too, make the names of the ports and the nodes of the
//! tiles, once all four are verified as `verify` verifies them.
//!
//! What is promised is which text a picture is, of which tiles, names and dots; that text is bx_draw's. Reading files,
//! refusing them and saying a verdict are bx_engine's.
#![tactic(auto)]

mod labels;
mod run;
mod words;

pub use run::run_draw;
