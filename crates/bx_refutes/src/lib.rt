//! What refutes ratios, whoever found it: a count whose inequality holds, or steps that a checker of proofs accepts
//! for the ratio's formula. It promises that a refuted ratio has no legal layout, and so those of the sections of a
//! certificate. How a refutation is found, by counting or by a search, is for others; so this crate stands on no
//! search, and who checks a certificate needs to trust none.
#![tactic(auto)]

pub mod laws;
