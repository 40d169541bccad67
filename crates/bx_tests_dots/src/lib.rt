//! Tests of the crates that have to do with dots, and of what is said: dot libraries, the dots of form grids, the
//! texts of designs, and reports. They make calls that a user of the crates could make, and nothing is built of
//! them. Most expected values were worked out by hand.
#![tactic(auto)]

#[cfg(test)]
mod asserts;
#[cfg(test)]
mod dots;
#[cfg(test)]
mod library;
#[cfg(test)]
mod pictures;
#[cfg(test)]
mod sample;
#[cfg(test)]
mod says;
#[cfg(test)]
mod siqad;
