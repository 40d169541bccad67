//! Tests of nets and networks, of the forms and grids that they stand on, and of layouts and counts. The values
//! were worked out by hand. Nothing here is part of a program.
#![tactic(auto)]

#[cfg(test)]
mod asserts;
#[cfg(test)]
mod bounds;
#[cfg(test)]
mod forms;
#[cfg(test)]
mod grid;
#[cfg(test)]
mod layout;
#[cfg(test)]
mod logic;
#[cfg(test)]
mod map;
#[cfg(test)]
mod nets;
#[cfg(test)]
mod network;
