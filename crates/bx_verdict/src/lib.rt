//! What is known of the ratios of a network, in their order, and of each by itself. The verdict of a ratio is the
//! first count that refutes it, or else how the search of its formula ends: with bits that mean a layout, with
//! steps that show that there is none, or undecided within the budget. `judge` gives the verdict of a ratio unless
//! a pulse stops it, and `settle` goes through the ratios in their order up to the first that isn't refuted, one
//! formula at a time.
//!
//! A refuted ratio has no legal layout under the permit, whatever refutes it, and found bits are such as
//! `bx_decode` makes a legal layout of. What refutes a ratio, how a search goes and what bits mean is for the crates
//! below to say; where a verdict is written and read, and who tries ratios at one time, for those above.
#![tactic(auto)]

pub mod laws;
mod settled;
mod verdict;

pub use settled::{Last, Settled, settle};
pub use verdict::{Ended, MOST_SEARCH_BUDGET, Trial, judge};
