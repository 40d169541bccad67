//! A formula that is still being read: unlike those of a store of clauses, its variables can become more.
ghost use Rattle.std.specs.Prelude.{◌≡◌, ◌++◌, ◌+◌, ◌<◌, ◌≤◌, [], ◌∷◌, length, OnOk, OnErr, IfOk};
ghost use Rattle.bx_cnf.specs.Formulas.{IsClause, IsFormula};
ghost use Rattle.bx_dimacs.specs.Keeping.{own_clause};

use bx_cnf::{Clauses, Flat, Lit};
use bx_logic::NoMemory;
use std::alloc::Global;
use std::marker::Model;

/// A number of variables, and clauses over them. Contracts see it as a formula.
#[derive(Drop)]
pub(crate) struct Draft {
    vars: u32,
    clauses: Flat<Lit>,
}

impl Model for Draft {
    ghost use Rattle.bx_cnf.specs.Formulas.{Formula, IsFormula};

    ghost Value = { Formula };

    ghost view = { λ d. record { vars = d.vars; clauses = d.clauses } };

    ghost invariant = { λ d. IsFormula (record { vars = d.vars; clauses = d.clauses }) };
}

impl Draft {
    /// A formula of this many variables and no clause. Takes no memory.
    pub(crate) fn new(alloc: Global, vars: u32) -> Self
        requires { vars ≤ 2147483647 }
        ensures { result ≡ record { vars = vars; clauses = [] } }
    {
        Draft {
            vars,
            clauses: Flat::new(alloc),
        }
    }

    /// The number of variables.
    pub(crate) fn vars(&self) -> u32
        ensures vars { result ≡ self.now.vars }
        ensures formed { IsFormula self.now }
    {
        self.vars
    }

    /// The number of clauses.
    pub(crate) fn len(&self) -> u32
        ensures { result ≡ length self.now.clauses }
    {
        self.clauses.len() as u32
    }

    /// Adds a clause behind the others.
    ///
    /// # Errors
    ///
    /// `NoMemory`, and the formula is then as before.
    pub(crate) fn push(&mut self, literals: &[Lit]) -> Result<(), NoMemory>
        requires clause { IsClause self.old.vars literals.now }
        requires room { length self.old.clauses < 4294967295 }
        ensures ok { OnOk result (self.new
            ≡ record self.old { clauses = self.old.clauses ++ literals.now ∷ [] }) }
        ensures err { OnErr result (self.new ≡ self.old) }
    {
        self.clauses.push(literals)
    }

    /// Adds two variables, and a clause of these alone behind the others.
    ///
    /// # Errors
    ///
    /// `NoMemory`, and the formula is then as before.
    pub(crate) fn push_apart(&mut self) -> Result<(), NoMemory>
        requires vars { self.old.vars ≤ 2147483645 }
        requires room { length self.old.clauses < 4294967295 }
        ensures ok { OnOk result (self.new ≡ record {
          vars = self.old.vars + 2;
          clauses = self.old.clauses ++ own_clause self.old.vars ∷ [];
        }) }
        ensures err { OnErr result (self.new ≡ self.old) }
    {
        let pair = [Lit::positive(self.vars + 1), Lit::positive(self.vars + 2)];
        self.clauses.push(&pair)?;
        self.vars += 2;
        Ok(())
    }

    /// The formula in a store of clauses.
    ///
    /// # Errors
    ///
    /// `NoMemory`.
    pub(crate) fn into_clauses(self, alloc: Global) -> Result<Clauses, NoMemory>
        ensures { IfOk result (λ clauses. clauses ≡ self) }
    {
        copied(alloc, self.vars, &self.clauses)
    }
}

// A store of these clauses.
fn copied(alloc: Global, vars: u32, lists: &Flat<Lit>) -> Result<Clauses, NoMemory>
    requires { IsFormula (record { vars = vars; clauses = lists.now }) }
    ensures { IfOk result (λ clauses. clauses ≡ record { vars = vars; clauses = lists.now }) }
{
    let mut clauses = Clauses::new(alloc, vars);
    for k in 0..lists.len() {
        clauses.push(lists.list(k))?;
    }
    Ok(clauses)
}
