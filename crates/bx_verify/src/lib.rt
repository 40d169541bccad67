//! The verifier: whether a design is right and nothing smaller exists, for anyone who is handed a net, a library, a
//! design and a certificate, whoever made them. [`verify`] says that the found ratio is minimal exactly where no part
//! of the two fails, and else which part fails first, and where. Minimal means that the design's dots, cut by the
//! library, make a sound grid of forms that computes the net, and that no earlier ratio within the certificate's
//! limits has a layout of the library's forms.
//!
//! It stands on no search and on nothing that makes designs: what refutes a ratio, what dots are cut into and what a
//! layout is are the business of the crates below, each of which decides it by itself. Reading files and saying the
//! verdict is left to those above.
#![tactic(auto)]

mod claims;
mod fault;
mod judge;
pub mod laws;
mod places;
mod refuted;
mod verdict;

pub use fault::VerifyFault;
pub use judge::verify;
pub use verdict::{Part, Verdict};
