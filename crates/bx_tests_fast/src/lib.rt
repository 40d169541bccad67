//! Tests of `bx_fast`, over its public calls: that it answers, and which way. That an answer it gives is
//! right is proved.
#![tactic(auto)]

#[cfg(test)]
mod asserts;
#[cfg(test)]
mod pulse;
#[cfg(test)]
mod solve;
