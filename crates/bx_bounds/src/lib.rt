//! Refutations of ratios by counting. Most ratios have no layout for a reason that a person can
//! check by hand: too long a path, too many nodes for some rows, or too many edges for the borders
//! between two rows. Here stand these inequalities, the search for the first that holds, and that
//! one that holds leaves no legal layout, whatever forms are permitted. No call takes memory.
#![tactic(auto)]

mod counting;
mod crowd;
mod cut;
mod late;
pub mod laws;
mod pair;
mod rows;
mod windows;

pub use counting::{check_count, refute};
pub use rows::MOST_COUNTED;
