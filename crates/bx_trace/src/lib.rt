//! Whether a form grid is that of some legal layout of a network, where it is known on which tiles
//! the nodes stand: not that the grid computes the same, but that it is a layout of this network.
//! The layout is found from the forms alone, each edge followed from tile to tile, and then judged
//! by what the layouts themselves ask of it. How a form grid or places are read is for others.
#![tactic(auto)]

mod around;
mod border_edges;
mod forms;
pub mod laws;
mod legal;
mod nodes;
mod passed;
mod passing;
mod trace;
mod ways;

pub use trace::traces;
