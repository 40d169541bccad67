//! Laws about the definitions alone, each the clause of a function with an empty body. Nothing here
//! runs.
ghost use Rattle.std.specs.Prelude.{◌≡◌, ℕ};
ghost use Rattle.bx_watch.specs.Watching.{Watch, IsWatch, IsLeastActive, NoneActive};
ghost use Rattle.bx_watch.specs.declared.active.Active.{Active as Clause};

/// At most one clause is the least-numbered active one, and as one thing: a clause is never both unit and
/// false, and it leaves one literal.
pub fn one_clause_is_the_least()
    ensures { (w : Watch) (one other : Clause) → IsWatch w → IsLeastActive w one
        → IsLeastActive w other → one ≡ other }
{}

/// Where a clause is the least-numbered active one, some clause is active.
pub fn the_least_is_active()
    ensures { (w : Watch) (active : Clause) → IsLeastActive w active → NoneActive w.trail w.clauses
        → ⊥ }
{}
