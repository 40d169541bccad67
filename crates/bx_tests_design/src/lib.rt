//! Tests of the crates that make a design of a network: certificates, verdicts of ratios, designs, and whole runs of
//! the tool on a desk in memory. They make calls that a user of the crates could make, and nothing is built of them.
//! Most expected values come from another program or were worked out by hand.
#![tactic(auto)]

#[cfg(test)]
mod asserts;
#[cfg(test)]
mod cert;
#[cfg(test)]
mod design;
#[cfg(test)]
mod engine;
#[cfg(test)]
mod failing;
#[cfg(test)]
mod gate;
#[cfg(test)]
mod libraries;
#[cfg(test)]
mod library;
#[cfg(test)]
mod runs;
#[cfg(test)]
mod verdict;
