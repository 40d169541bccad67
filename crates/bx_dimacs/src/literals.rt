//! Literals as a file has them: any number, in any order, and twice.
ghost use Rattle.std.specs.Prelude.{◌≡◌, ◌<◌, ◌↔◌, ◌⊎◌, true, false, pos, All, Contains, IfSome, IfNone};
ghost use Rattle.bx_cnf.specs.Literals.{Literal, literal_of as literal_in};
ghost use Rattle.bx_cnf.specs.Formulas.{AscendAbove};
ghost use Rattle.bx_dimacs.specs.FormulaTexts.{is_tautology};

use bx_cnf::Lit;

/// The literal that a number is, where one has it.
pub(crate) fn literal_of(number: i64) -> Option<Lit>
    ensures some { IfSome result (λ l. (l ≡ literal_in number) × (0 < l.var)) }
    ensures none { IfNone result ((number ≡ pos 0) ⊎ (2147483647 < (literal_in number).var)) }
{
    Lit::from_number(i32::try_from(number).ok()?)
}

/// Orders literals by variable, and takes out those that stand twice. A variable stays twice where its
/// negation stands there too.
pub(crate) fn put_in_order(literals: &mut Vec<Lit>)
    ensures same { All (λ l. 0 < l.var) literals.old.items → (l : Literal)
        → Contains literals.old.items l ↔ Contains literals.new.items l }
    ensures ascending { is_tautology literals.old.items ≡ false
        → All (λ l. 0 < l.var) literals.old.items → AscendAbove 0 literals.new.items }
    ensures twice { is_tautology literals.old.items ≡ true
        → All (λ l. 0 < l.var) literals.old.items → AscendAbove 0 literals.new.items → ⊥ }
{
    literals.sort_unstable_by_key(|literal| literal.var());
    literals.dedup();
}
