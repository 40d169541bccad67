//! Tests of `bx_workers`, over its public calls: what races of several workers come to, and what their gate is told.
#![tactic(auto)]

#[cfg(test)]
mod asserts;
#[cfg(test)]
mod gate;
#[cfg(test)]
mod lines;
#[cfg(test)]
mod problems;
#[cfg(test)]
mod race;
