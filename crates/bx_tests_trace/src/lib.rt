//! Tests of the tracing of form grids: on layouts that were worked out by hand, and on small grids against a
//! search over all layouts. Nothing here is part of a program.
#![tactic(auto)]

#[cfg(test)]
mod asserts;
#[cfg(test)]
mod change;
#[cfg(test)]
mod known;
#[cfg(test)]
mod sample;
#[cfg(test)]
mod searched;
