//! The grid on which layouts stand, and the order in which its sizes are tried. Rows run from the
//! inputs down to the outputs, and a signal goes only from a row to the next. The crate knows
//! tiles, the borders between them and the ratios within given limits; what stands on a tile, and
//! what a border carries, is left to the layers above.
#![tactic(auto)]

mod count;
pub mod laws;
mod ratio;
mod ratios;
mod tiles;

pub use count::CountProof;
pub use ratio::{Limits, MOST_LIMIT, MOST_TILES, Ratio};
pub use ratios::Ratios;
pub use tiles::{below, border, column_and_row, entering};
