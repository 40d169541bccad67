//! Laws about the definitions alone, each the clause of a function with an empty body, so that a
//! reader can trust what the contracts say.
pub mod answers;
pub mod effects;
pub mod limits;
pub mod reports;
pub mod tasks;
pub mod verified;
pub mod worth;
