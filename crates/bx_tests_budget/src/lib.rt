//! Tests of the budget that is enough for each formula over so many variables.
#![tactic(auto)]

#[cfg(test)]
mod budget;
