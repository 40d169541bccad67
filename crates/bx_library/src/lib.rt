//! The dot library: which dots make each form of a tile, as its maker writes them down in JSON.
//! Here stand dots and their order, the groups of forms, what a library keeps, and the reader,
//! which tells the first thing that is wrong. Where a tile stands on a grid, and what a form means
//! there, is for the crates above to say.
#![tactic(auto)]

mod alike;
mod dot;
mod fault;
mod fields;
mod forms;
mod group;
pub mod laws;
mod library;
mod names;
mod read;
// Public, since contracts speak of it.
pub mod values;

pub use alike::same_list;
pub use dot::Dot;
pub use fault::{Field, LibraryFault};
pub use group::Group;
pub use library::Library;
pub use read::read_library;
