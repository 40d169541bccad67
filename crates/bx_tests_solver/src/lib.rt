//! Tests of the solver's crates: `bx_proof`, `bx_check`, `bx_watch` and `bx_search`, a module each, over
//! their public calls. `asserts` has an assert for each type that is compared; `made` makes
//! formulas and steps of numbers and says what they are in words; `samples` has the formulas that several
//! modules try.
#![tactic(auto)]

#[cfg(test)]
mod asserts;
#[cfg(test)]
mod check;
#[cfg(test)]
mod made;
#[cfg(test)]
mod proof;
#[cfg(test)]
mod samples;
#[cfg(test)]
mod search;
#[cfg(test)]
mod sequences;
#[cfg(test)]
mod trial;
#[cfg(test)]
mod watch;
