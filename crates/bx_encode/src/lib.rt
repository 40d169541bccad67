//! The layouts of a mapped network on a grid as a formula in conjunctive normal form, in fourteen families
//! of clauses: what may stand where, what borders carry, how edges go through tiles, and which forms are
//! permitted. `encode` gives exactly these clauses, and `bits_of` exactly what each variable says of a legal
//! layout. These bits make every clause true, for each permit under which the layout is legal: so no legal
//! layout is lost by the formula, and where it has no solution there is none. The way back, from bits that
//! make every clause true to a legal layout, isn't here.
#![tactic(auto)]

mod around;
mod bits;
mod borders;
mod formula;
mod frame;
pub mod laws;
mod literals;
mod numbers;
mod permitted;
mod places;
mod push;
mod rule;
mod variable;
mod ways;
mod writer;

pub use bits::bits_of;
pub use formula::encode;
pub use numbers::{MOST_AREA, MOST_NODES, var_of};
pub use rule::Rule;
pub use variable::Variable;
