//! Laws about the definitions alone, each the clause of a function with an empty body. Nothing here
//! runs.
ghost use Rattle.std.specs.Prelude.{◌≡◌, ◌<◌, ◌↔◌, ◌⊎◌, ℤ, ℕ, List, [], Bool, All, AllPairs, Contains};
ghost use Rattle.bx_cnf.specs.Literals.{Literal, IsLiteral, literal_of, number_of, negated, IsLiteralTrue, IsLiteralFalse};
ghost use Rattle.bx_cnf.specs.Formulas.{IsClause, IsClauseTrue};
ghost use Rattle.bx_cnf.specs.Assignments.{IsClauseFalse, LeavesOne};

/// A literal and its signed number give each other.
pub fn a_literal_has_one_number()
    ensures number { (z : ℤ) → number_of (literal_of z) ≡ z }
    ensures literal { (l : Literal) → IsLiteral l → literal_of (number_of l) ≡ l }
{}

/// Under bits a literal is true or false, and never both.
pub fn a_literal_is_true_or_false()
    ensures some { (bits : List Bool) (l : Literal)
        → IsLiteralTrue bits l ⊎ IsLiteralFalse bits l }
    ensures one { (bits : List Bool) (l : Literal)
        → IsLiteralTrue bits l → IsLiteralFalse bits l → ⊥ }
{}

/// A negation is true where the literal is false, and the negation of a negation is the literal.
pub fn a_negation_is_true_where_the_literal_is_false()
    ensures negation { (bits : List Bool) (l : Literal)
        → IsLiteralTrue bits (negated l) ↔ IsLiteralFalse bits l }
    ensures twice { (l : Literal) → negated (negated l) ≡ l }
{}

/// No bits make the empty clause true, and all bits make a clause with a literal and its negation true.
pub fn what_the_empty_clause_and_a_tautology_are()
    ensures empty { (bits : List Bool) → IsClauseTrue bits [] → ⊥ }
    ensures tautology { (bits : List Bool) (clause : List Literal) (l : Literal)
        → Contains clause l → Contains clause (negated l) → IsClauseTrue bits clause }
{}

/// In a clause each variable is below every later one, so none stands twice.
pub fn the_variables_of_a_clause_ascend()
    ensures { (vars : ℕ) (clause : List Literal)
        → IsClause vars clause → AllPairs (λ a b. a.var < b.var) clause }
{}

/// Where bits make literals true, they make no clause true that is false under these, and of a clause
/// that they make true and that leaves one literal, they make this one true.
pub fn propagation_is_sound()
    ensures conflict { (bits : List Bool) (trues clause : List Literal)
        → All (IsLiteralTrue bits) trues → IsClauseFalse trues clause
        → IsClauseTrue bits clause → ⊥ }
    ensures propagated { (bits : List Bool) (trues clause : List Literal) (l : Literal)
        → All (IsLiteralTrue bits) trues → LeavesOne trues clause l
        → IsClauseTrue bits clause → IsLiteralTrue bits l }
{}
