//! Tests of what is told of a long search.
#![tactic(auto)]

#[cfg(test)]
mod line;
