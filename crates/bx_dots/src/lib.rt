//! From form grids to dots and back. A form grid has the dots of its tiles' forms, each where its
//! tile stands; a set of dots is cut into tiles, of which each is known by its dots and its row.
//! What a form's dots are is for the library to say, what a form grid means for layouts, and how
//! dots are written down for the crates above.
#![tactic(auto)]

mod cuts;
mod dots;
mod fault;
pub mod laws;
mod place;
mod tile;

pub use cuts::cut;
pub use dots::dots_of;
pub use fault::CutFault;
