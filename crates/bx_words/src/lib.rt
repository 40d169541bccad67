//! The words of the command line: which command they name, its files and its options, or the first thing
//! that is wrong with them. The words of a command are read by `clap`; which words it has no matches for, and
//! what it finds in the others, is what `clap`'s own definitions say of a command that is written out here.
//! What a command does is left to the engine.
#![tactic(auto)]

mod commands;
mod design;
mod faults;
pub mod laws;
mod limits;
mod names;
mod numbers;
mod opts;
mod others;
mod parse;
mod read;
mod verbs;

pub use commands::{Command, DesignCommand, ExtractCommand, SampleCommand, VerifyCommand};
pub use faults::{NoCommand, WordFault};
pub use limits::{MOST_BUDGET, MOST_WORK, MOST_WORKERS};
pub use opts::Opt;
pub use read::read_words;
