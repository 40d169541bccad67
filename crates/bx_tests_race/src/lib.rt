//! Tests of `bx_race`, over its public calls.
#![tactic(auto)]

#[cfg(test)]
mod race;
#[cfg(test)]
mod workers;
