//! Tests of what the text formats and the logic stand on: `bx_logic`, `bx_lines`, `bx_desk` and `bx_words`, over
//! their public calls. Each has a module or some, and `asserts` has an assert for each type that is compared.
#![tactic(auto)]

#[cfg(test)]
mod asserts;
#[cfg(test)]
mod cycles;
#[cfg(test)]
mod desk;
#[cfg(test)]
mod files;
#[cfg(test)]
mod lines;
#[cfg(test)]
mod pieces;
#[cfg(test)]
mod printers;
#[cfg(test)]
mod quiet;
#[cfg(test)]
mod words;
