//! Designs: the dots of a grid of tiles, as a text in the layout of SiQAD's design files.
//!
//! A [`Design`] keeps the sides of a grid and the dots on it, and in its type that they are in their ranges
//! and in the order of dots, by `m`, then `l`, then `n`. Which tiles the dots make up is for others to say.
//!
//! A design has one text, each line of which ends with a line feed. The fifth line has the sides of the grid,
//! and each dot has a line of its own:
//!
//! ```text
//! <?xml version="1.0" encoding="UTF-8"?>
//! <siqad>
//! <program>
//! <file_purpose>save</file_purpose>
//! <created_by>bestagon 1 2</created_by>
//! </program>
//! <layers>
//! <layer_prop><name>Surface</name><type>DB</type></layer_prop>
//! </layers>
//! <design>
//! <layer type="DB">
//! <dbdot><latcoord n="1" m="1" l="0"/></dbdot>
//! <dbdot><latcoord n="2" m="3" l="0"/></dbdot>
//! </layer>
//! </design>
//! </siqad>
//! ```
//!
//! `write_design` puts out exactly that text, and `read_design` reads it and nothing else: where bytes are no
//! design's text it names the first bad line. Other files that SiQAD saves aren't read.
#![tactic(auto)]

mod design;
mod fault;
pub mod laws;
mod lines;
mod read;
mod scan;
mod write;

pub use design::Design;
pub use fault::DesignFault;
pub use read::read_design;
pub use write::write_design;
