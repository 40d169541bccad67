//! What a long search tells while it runs: a gate that counts the ratios on which work began and ended, and a ticker that
//! tells of them in one line, renewed in place and wiped at the end. The counts are atomic, so the gate never waits and
//! steers nothing. What the search itself answers is others'; here only what a person sees on standard error.
#![tactic(auto)]

mod count;
mod line;
mod ticker;

pub use count::Progress;
pub use line::{WIPE, line_text};
pub use ticker::tell;
