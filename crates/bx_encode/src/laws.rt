//! Laws about the definitions alone, each the clause of a function with an empty body, so that a reader
//! can trust what the contracts say. Nothing here runs.
pub mod examples;
pub mod formulas;
pub mod layouts;
pub mod numbers;
pub mod windows;
