//! A form grid as a picture, in SVG 1.1: hexagons as they lie, each in the colour of its clock zone, with the symbol of
//! its form and a title that a browser tells under the pointer; ports with their names; and a legend. Where dots are
//! drawn too they lie at their true places, and the hexagons are stretched under them. The picture is text alone: no
//! script, no font of its own, no link to the outside.
//!
//! What is promised is each byte: each tile of the grid is drawn once, in order, and names are escaped, whatever their
//! bytes are. Whether the grid is sound, where it comes from and where the picture goes is for the crates above.
#![tactic(auto)]

mod dots;
mod escape;
mod frame;
pub mod laws;
mod picture;
mod port;
mod symbols;

pub use dots::draw_dots;
pub use picture::draw_grid;
pub use port::{Place, PortName};
