//! Tests of the SAT program's crates: `bx_dimacs` and `bx_sat`, a module each, over their public calls.
//! `asserts` has an assert for each type that is compared.
#![tactic(auto)]

#[cfg(test)]
mod asserts;
#[cfg(test)]
mod dimacs;
#[cfg(test)]
mod sat;
