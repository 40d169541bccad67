//! Laws about the definitions alone, each the clause of a function with an empty body.
pub mod grids;
pub mod layouts;
pub mod near_misses;
