//! Tests of whole runs over a desk that tells nothing and never fails: what is answered follows from the words and the
//! texts that it holds, also where nothing of it can be seen but the status.
#![tactic(auto)]

#[cfg(test)]
mod runs;
