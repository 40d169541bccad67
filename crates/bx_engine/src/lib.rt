//! The one call that the program makes, and what its answers mean.
#![tactic(auto)]

mod engine;
mod extract;
pub mod laws;
pub mod limits;
mod load;
mod plan;
mod refusal;
mod report;
mod sample;
mod say;
mod status;
mod verify;
mod write;

pub use bx_words::{Opt, WordFault};
pub use engine::run;
pub use load::{Module, NoInput, cut_design, load_cert, load_design, load_library, load_module};
pub use say::{end_saying, refuse, refuse_words};
pub use status::{InputFault, Status, Which};
pub use verify::say_verdict;
