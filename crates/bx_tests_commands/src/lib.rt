//! Tests of the commands that write no file, as whole runs on a desk in memory: what is said of designs and certificates
//! that are right, wrong in one part or no texts of their kind, of samples, of pictures, and what comes of each load that fails.
//! Expected values were worked out by hand or come from another program.
#![tactic(auto)]

#[cfg(test)]
mod asserts;
#[cfg(test)]
mod designs;
#[cfg(test)]
mod extract;
#[cfg(test)]
mod failing;
#[cfg(test)]
mod library;
#[cfg(test)]
mod picture;
#[cfg(test)]
mod runs;
#[cfg(test)]
mod sample;
#[cfg(test)]
mod verify;
