//! The clauses of a formula and behind them those that were learned, under one numbering. The formula is
//! the caller's, and only what was learned is kept here.
ghost use Rattle.std.specs.Prelude.{◌≡◌, ◌++◌, ◌∷◌, [], ◌-◌, ◌<◌, ◌≤◌, length, slice_get, Some, OnOk};
ghost use Rattle.bx_cnf.specs.Formulas.{IsClause, IsFormula};

use bx_cnf::{Clauses, Lit};
use bx_logic::NoMemory;
use std::alloc::Global;
use std::marker::Model;

/// A formula's clauses, and behind them others over its variables. Contracts see it as one formula.
#[derive(Drop)]
pub(crate) struct Store<'a> {
    formula: &'a Clauses,
    learned: Clauses,
}

impl<'a> Model for Store<'a> {
    ghost use Rattle.std.specs.Prelude.{◌≡◌, ◌++◌};
    ghost use Rattle.bx_cnf.specs.Formulas.{Formula, IsFormula};

    ghost Value = { Formula };

    ghost view = { λ s. record {
      vars = s.formula.now.vars;
      clauses = s.formula.now.clauses
          ++ s.learned.clauses;
    } };

    ghost invariant = { λ s.
        IsFormula (record {
          vars = s.formula.now.vars;
          clauses = s.formula.now.clauses
              ++ s.learned.clauses;
        }) × (s.learned.vars ≡ s.formula.now.vars) };
}

impl<'a> Store<'a> {
    /// A formula, with nothing learned. Takes no memory.
    pub(crate) fn new(alloc: Global, formula: &'a Clauses) -> Self
        ensures { result ≡ formula.now }
    {
        let learned = Clauses::new(alloc, formula.vars());
        Store { formula, learned }
    }

    /// Adds a clause behind the others.
    ///
    /// # Errors
    ///
    /// `NoMemory`.
    pub(crate) fn push(&mut self, literals: &[Lit]) -> Result<(), NoMemory>
        requires clause { IsClause self.old.vars literals.now }
        requires room { length self.old.clauses < 4294967295 }
        ensures pushed { OnOk result (self.new
            ≡ record self.old { clauses = self.old.clauses ++ literals.now ∷ [] }) }
        ensures formed { OnOk result (IsFormula self.new) }
    {
        self.learned.push(literals)?;
        Ok(())
    }

    /// The number of variables.
    pub(crate) fn vars(&self) -> u32
        ensures vars { result ≡ self.now.vars }
        ensures formed { IsFormula self.now }
    {
        self.formula.vars()
    }

    /// The number of clauses.
    pub(crate) fn len(&self) -> u32
        ensures count { result ≡ length self.now.clauses }
        ensures formed { IsFormula self.now }
    {
        self.formula.len() + self.learned.len()
    }

    /// The clause of this number, counted from 0.
    pub(crate) fn clause(&self, number: u32) -> &[Lit]
        requires { number < length self.now.clauses }
        ensures value { slice_get self.now.clauses number ≡ Some result.now }
        ensures formed { IsClause self.now.vars result.now }
    {
        let own = self.formula.len();
        if number < own {
            self.formula.clause(number + 1)
        } else {
            self.learned.clause(number - own + 1)
        }
    }
}
