//! Clauses that are added behind others: one, and one for each two of some literals.
ghost use Rattle.std.specs.Prelude.{[], ◌∷◌, map, IfOk};
ghost use Rattle.bx_cnf.specs.Formulas.{IsClause};
ghost use Rattle.bx_encode.specs.Families.{pairs};
ghost use Rattle.bx_encode.specs.Sizes.{Adds};

use bx_cnf::{Clauses, Lit};
use bx_logic::NoMemory;

// Adds a clause. By a law the store has room for every formula within the limits of `encode`. A count that each
// caller proves would take the place of this test, and make each of their clauses longer by one.
pub fn push(clauses: &mut Clauses, literals: &[Lit]) -> Result<(), NoMemory>
    requires { IsClause clauses.old.vars literals.now }
    ensures { IfOk result (λ _. Adds clauses.old clauses.new (literals.now ∷ [])) }
{
    if !clauses.has_room() {
        return Err(NoMemory);
    }
    clauses.push(literals)
}

// Adds a clause for each two of the literals.
pub fn push_pairs(clauses: &mut Clauses, literals: &[Lit]) -> Result<(), NoMemory>
    requires { IsClause clauses.old.vars literals.now }
    ensures { IfOk result (λ _. Adds clauses.old clauses.new (pairs literals.now)) }
{
    for k in 0..literals.len() {
        push_with_each(clauses, literals[k], &literals[k + 1..])?;
    }
    Ok(())
}

// Adds a clause of this literal and each of these later ones.
fn push_with_each(clauses: &mut Clauses, first: Lit, later: &[Lit]) -> Result<(), NoMemory>
    requires { IsClause clauses.old.vars (first ∷ later.now) }
    ensures { IfOk result (λ _. Adds clauses.old clauses.new
        (map (λ y. first ∷ y ∷ []) later.now)) }
{
    for second in later {
        push(clauses, &[first, *second])?;
    }
    Ok(())
}
