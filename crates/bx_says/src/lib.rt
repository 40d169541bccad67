//! What is said of a layout, line by line:
//!
//! ```text
//! module ha
//! nodes 8 edges 8
//! unused c
//! found 3 5
//! input a 0 0
//! output s 1 4
//! row 0 input_r empty input_l
//! ```
//!
//! `say_head` puts out the lines of the module, its network and its unused inputs, `say_pins` those of the
//! ports, and `say_rows` those of the rows. Each puts out exactly its lines, or after a failure of the desk a
//! front of them. A report shows one layout and no other, as the laws say. Whether the layout is worth
//! anything, what ratio was found, and what else is said is for the crates above to say.
#![tactic(auto)]

mod head;
pub mod laws;
mod pins;
mod rows;
mod words;

pub use bx_desk::Word;
pub use head::say_head;
pub use pins::say_pins;
pub use rows::say_rows;
pub use words::{put_line, put_spaced, put_word, put_words};
