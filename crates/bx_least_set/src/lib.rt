//! A set of numbers below a bound that knows its least number, as a tree of bits: each word says which
//! of 64 numbers are in it, and the words of the level above which of 64 words have one. So a call
//! touches one word a level, and six levels serve all numbers of 32 bits. A heap would take memory
//! when a number is put in, and would hold one twice or look for it first; a plain list of bits would
//! be gone through from its start.
#![tactic(auto)]

mod layer;
mod least_set;
mod level;
mod words;

pub use least_set::LeastSet;
