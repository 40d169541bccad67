//! What a solver does next about its clauses.

use bx_cnf::Lit;

/// An active clause, by its number.
#[derive(Clone, Copy)]
pub enum Active {
    /// All its literals but this one are false, and the variable of this one is free.
    Unit(u32, Lit),
    /// All its literals are false.
    False(u32),
}
