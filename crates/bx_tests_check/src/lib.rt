//! Tests of the check in chunks, over the public calls of `bx_check`: whatever the number of workers is, the answer
//! is that of the check in one piece. `made` makes formulas and steps of numbers; `chain` makes long logs, and such
//! with one bad step.
#![tactic(auto)]

#[cfg(test)]
mod chain;
#[cfg(test)]
mod chunks;
#[cfg(test)]
mod made;
