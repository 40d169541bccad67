//! Samples: a module that is drawn from a number, and a dot library, so that everybody can make the
//! same jobs from a few numbers. It promises the text of each, byte for byte. What is made of these
//! texts is for others to say: here none is read.
#![tactic(auto)]

mod gate;
mod generator;
pub mod laws;
mod library;
mod sample;
mod signal;

pub use library::sample_library_text;
pub use sample::sample_text;
