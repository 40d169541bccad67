//! Tests of the layout in lanes, over public calls: small grids that were worked out by hand, what a grid computes
//! against its module, and large ones. Nothing here is part of a program.
#![tactic(auto)]

#[cfg(test)]
mod asserts;
#[cfg(test)]
mod computes;
#[cfg(test)]
mod faults;
#[cfg(test)]
mod known;
#[cfg(test)]
mod large;
#[cfg(test)]
mod modules;
