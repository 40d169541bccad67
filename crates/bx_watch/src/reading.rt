//! What a clause is under a trail, read literal by literal.
ghost use Rattle.bx_cnf.specs.Formulas.{IsClause};
ghost use Rattle.bx_watch.specs.Readings.{IsRead};

use crate::trail::Trail;
use bx_cnf::Lit;

/// What was read of a clause.
#[derive(Clone, Copy)]
pub(crate) enum Reading {
    /// All its literals are false.
    False,
    /// All but this one, whose variable is free.
    Unit(Lit),
    /// All but this one, which is true.
    Met(Lit),
    /// Two of its literals aren't false.
    Other,
}

/// What a clause is under a trail.
pub(crate) fn read(clause: &[Lit], trail: &Trail) -> Reading
    requires { IsClause trail.now.vars clause.now }
    ensures { IsRead trail.now.literals clause.now result }
{
    let mut reading = Reading::False;
    for lit in clause {
        reading = reading.with(*lit, trail.value(*lit));
        if reading.is_other() {
            return Reading::Other;
        }
    }
    reading
}

impl Reading {
    ghost use Rattle.std.specs.Prelude.{IsTrue, ◌↔◌, ◌≡◌, ◌++◌, ◌∷◌, [], ◌<◌, List, All, Contains};
    ghost use Rattle.bx_cnf.specs.Assignments.{IsFree};
    ghost use Rattle.bx_watch.specs.Watching.{AreApart};
    ghost use Rattle.bx_watch.specs.Readings.{IsValue, IsRead, is_open};
    ghost use Rattle.bx_cnf.specs.Literals.{Literal};

    // What is read of a clause with one more literal, of this value and over a variable of its own.
    fn with(self, lit: Lit, value: Option<bool>) -> Self
        ensures { (trail clause : List Literal) → AreApart trail → IsRead trail clause self
            → IsValue trail lit value → All (λ l. l.var < lit.var) clause → IsRead trail (clause ++ lit ∷ []) result }
    {
        match value {
            Some(true) => self.with_true(lit),
            Some(false) => self,
            None => self.with_free(lit),
        }
    }

    // The same where the variable of the literal is free.
    fn with_free(self, lit: Lit) -> Self
        ensures { (trail clause : List Literal) → IsRead trail clause self → IsFree trail lit
            → All (λ l. l.var < lit.var) clause → IsRead trail (clause ++ lit ∷ []) result }
    {
        match self {
            Reading::False => Reading::Unit(lit),
            Reading::Unit(_) => Reading::Other,
            Reading::Met(_) => Reading::Other,
            Reading::Other => Reading::Other,
        }
    }

    // The same where the literal is true.
    fn with_true(self, lit: Lit) -> Self
        ensures { (trail clause : List Literal) → AreApart trail → IsRead trail clause self
            → Contains trail lit → All (λ l. l.var < lit.var) clause → IsRead trail (clause ++ lit ∷ []) result }
    {
        match self {
            Reading::False => Reading::Met(lit),
            Reading::Unit(_) | Reading::Met(_) | Reading::Other => Reading::Other,
        }
    }

    /// Whether two literals of the clause aren't false.
    pub(crate) fn is_other(&self) -> bool
        ensures { IsTrue result ↔ (self.now ≡ Reading.Other) }
    {
        matches!(self, Reading::Other)
    }

    /// Whether the clause is false or unit.
    pub(crate) fn is_active(&self) -> bool
        ensures { result ≡ is_open self.now }
    {
        matches!(self, Reading::False | Reading::Unit(_))
    }
}
