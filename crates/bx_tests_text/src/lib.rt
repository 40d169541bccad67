//! Tests of the readers of a module's text: `bx_lex`, `bx_syntax` and `bx_verilog`, over their public calls. Each
//! has a module or some, `asserts` has an assert for each type that is compared, and `modules` reads the texts.
#![tactic(auto)]

#[cfg(test)]
mod asserts;
#[cfg(test)]
mod large;
#[cfg(test)]
mod lex;
#[cfg(test)]
mod modules;
#[cfg(test)]
mod nesting;
#[cfg(test)]
mod syntax;
#[cfg(test)]
mod verilog;
