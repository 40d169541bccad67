//! Certificates: the evidence that no ratio before the last one has a layout, as a value and as a text that
//! another program can check.
//!
//! A [`Cert`] keeps the limits and the budget of a search, a section for each ratio that was refuted, in
//! order, and how the search ended. It keeps in its type that its numbers are in their ranges, and that a
//! section by clauses has a step at least. Whether a section's proof refutes its ratio is for bx_bounds and
//! bx_check to say, and whether the ratios are those of the order is for a verifier.
//!
//! A certificate has one text:
//!
//! ```text
//! bestagon cert 1
//! limits 100 144 144 100000
//! count 1 1 late 0
//! clauses 1 2 1
//! 46 0 11 1 5 2 13 29 18 45 0
//! count 2 1 late 0
//! found 1 3
//! place 0 0
//! place 0 2
//! end
//! ```
//!
//! `write_cert` puts out exactly that text, and `read_cert` reads it and nothing else: where bytes are no
//! certificate's text it names the first bad line.
#![tactic(auto)]

mod fault;
pub mod laws;
mod line;
mod parts;
mod read;
mod scan;
mod value;
mod write;

pub use fault::CertFault;
pub use parts::{CertLast, MOST_CERT_BUDGET, Section, Sections, Spot, Spots};
pub use read::read_cert;
pub use value::Cert;
pub use write::write_cert;
