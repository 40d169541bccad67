//! The grammar of the Verilog profile (IEEE 1364-2005, gate primitives and assignments): the tree of a
//! text's tokens, or why there is none. It promises a module exactly where the tokens have a tree in the
//! grammar in which nothing nests deeper than 256, unless memory runs out, and then that tree, which is
//! the only one. Any other tokens have one fault: the first token, or the end of the text, with which they
//! begin no text of the grammar. Its place and its kind are promised too. What a tree means is left to
//! others.
#![tactic(auto)]

mod construct;
mod expression;
pub mod fault;
mod header;
mod item;
pub mod laws;
mod lookahead;
mod module;
mod part;
mod read;
mod reserved;
mod stop;
pub mod terminal;
mod terminals;
pub mod tree;

pub use fault::{Construct, ReadFault};
pub use read::read_module;
pub use tree::Module;
