//! From true bits to a legal layout. Bits are true where they make every clause of a ratio's formula true;
//! they mean the layout on which a node stands on a tile, and a border carries an edge, exactly where the bit
//! that says so is true. `decode` gives that layout, and it is legal. The other variables, that a tile is taken
//! and that a border is used, are never read: on a tile without a node no clause keeps the first one false.
//!
//! Which families of clauses carry which condition of a legal layout:
//!
//! | condition | families |
//! |---|---|
//! | each node has one place, and no two the same | 1, 2; 3 |
//! | a border carries one edge at most | 7 |
//! | inputs stand in the first row, outputs in the last | 5 |
//! | nothing leads off the grid | 6 |
//! | an edge is balanced on each tile | 9 to 12, and 3 |
//! | a tile with a node carries its edges alone | 4, 13, and 3 |
//! | forms are permitted | 8, 14, and 13 |
//!
//! What the clauses are is for the encoder to say, and when a layout is legal for the layouts.
#![tactic(auto)]

pub mod laws;
mod read;

pub use read::decode;
