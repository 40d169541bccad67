//! Tests of `bx_queue` over its public calls: what the calls do one after the other, and many sequences of
//! them beside a plain vector, among them some in which all stamps are numbered anew.
#![tactic(auto)]

#[cfg(test)]
mod asserts;
#[cfg(test)]
mod beside;
#[cfg(test)]
mod calls;
#[cfg(test)]
mod sequences;
