//! Tests of the verifier: designs and certificates that are right, those that a search has found and those that were
//! written by hand, and such as are wrong in one part or in several, each told by the first, with one worker and with
//! four. Texts and dots were worked out by hand or come from another program.
#![tactic(auto)]

#[cfg(test)]
mod asserts;
#[cfg(test)]
mod found;
#[cfg(test)]
mod made;
#[cfg(test)]
mod sample;
#[cfg(test)]
mod told;
#[cfg(test)]
mod wrong;
