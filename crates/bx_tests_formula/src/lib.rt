//! Tests of the formulas: of literals and clauses, of the formula of a network on a grid, and of the layouts
//! that bits mean. The values come from another encoder or were worked out by hand. Nothing here is part of a
//! program.
#![tactic(auto)]

#[cfg(test)]
mod asserts;
#[cfg(test)]
mod cnf;
#[cfg(test)]
mod decode;
#[cfg(test)]
mod encode;
#[cfg(test)]
mod laid;
#[cfg(test)]
mod large;
