//! Layouts of mapped networks on a grid, and the form grids that they give. A legal layout stands
//! for a grid of forms that is sound and computes the network; what a form is, where a tile stands
//! and what a network is are the business of the crates below, and how a layout is found that of
//! those above.
#![tactic(auto)]

mod around;
mod eval;
mod forms;
mod grid;
pub mod laws;
mod layout;
mod legal;
mod permit;
mod sides;
mod sound;
mod tile_form;

pub use eval::{eval_grid, out_value};
pub use forms::form_grid;
pub use grid::FormGrid;
pub use layout::{Borders, Layout, Places};
pub use legal::is_legal;
pub use permit::Permit;
pub use sound::is_sound;
