//! Codes of literals: twice the variable, and one more for its negation. A table of literals is one by
//! code.

use bx_cnf::Lit;

/// The code of a literal.
pub(crate) fn code_of(lit: Lit) -> u32 {
    code_from(lit.var(), lit.is_positive())
}

/// The code of a variable's literal.
pub(crate) fn code_from(var: u32, positive: bool) -> u32 {
    let own = var.wrapping_mul(2);
    if positive { own } else { own | 1 }
}

/// The code of the negation.
pub(crate) fn negated(code: u32) -> u32 {
    code ^ 1
}

/// The variable of a code.
pub(crate) fn var_of(code: u32) -> u32 {
    code / 2
}

/// Whether the literal of a code is its variable itself.
pub(crate) fn is_positive(code: u32) -> bool {
    code % 2 == 0
}

/// The literal of a code. Codes 0 and 1, which no literal has, are read as those of variable 1.
pub(crate) fn literal_of(code: u32) -> Lit {
    let var = (code / 2).max(1);
    if is_positive(code) {
        Lit::positive(var)
    } else {
        Lit::negative(var)
    }
}
