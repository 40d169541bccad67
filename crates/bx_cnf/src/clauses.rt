//! The store of clauses. It keeps one vector of literals and one of ends, and in its type that each
//! clause's variables ascend strictly within the formula's.
ghost use Rattle.std.specs.Prelude.{◌≡◌, ◌-◌, ◌<◌, ◌≤◌, ◌^◌, ◌↔◌, List, [], ◌∷◌, length, slice_get, Some, OnOk, OnErr, IsTrue, All};
ghost use Rattle.bx_cnf.specs.Formulas.{IsClause, IsClauseTrue, AllTrue};

use crate::flat::Flat;
use crate::lit::Lit;
use bx_logic::NoMemory;
use std::alloc::Global;
use std::marker::Model;

/// A formula: a number of variables, and clauses, numbered from 1. Contracts see it as these two.
#[derive(Drop)]
pub struct Clauses {
    vars: u32,
    clauses: Flat<Lit>,
}

impl Model for Clauses {
    ghost use Rattle.bx_cnf.specs.Formulas.{Formula, IsFormula};

    ghost Value = { Formula };

    ghost view = { λ c. record { vars = c.vars; clauses = c.clauses } };

    ghost invariant = { λ c. IsFormula (record { vars = c.vars; clauses = c.clauses }) };
}

impl Clauses {
    ghost use Rattle.bx_cnf.specs.Formulas.{IsFormula, with_clause};

    /// A formula of this many variables and no clause. Takes no memory.
    pub fn new(alloc: Global, vars: u32) -> Self
        requires { vars ≤ 2147483647 }
        ensures { result ≡ record { vars = vars; clauses = [] } }
    {
        Clauses {
            vars,
            clauses: Flat::new(alloc),
        }
    }

    /// Adds a clause behind the others.
    ///
    /// # Errors
    ///
    /// `NoMemory`, and the formula is then as before.
    pub fn push(&mut self, literals: &[Lit]) -> Result<(), NoMemory>
        requires clause { IsClause self.old.vars literals.now }
        requires room { length self.old.clauses < 4294967295 }
        ensures ok { OnOk result (self.new ≡ with_clause self.old literals.now) }
        ensures err { OnErr result (self.new ≡ self.old) }
    {
        self.clauses.push(literals)
    }

    /// The number of variables.
    pub fn vars(&self) -> u32
        ensures vars { result ≡ self.now.vars }
        ensures formed { IsFormula self.now }
    {
        self.vars
    }

    /// The number of clauses.
    pub fn len(&self) -> u32
        ensures count { result ≡ length self.now.clauses }
        ensures formed { IsFormula self.now }
    {
        self.clauses.len() as u32
    }

    /// Whether there is a number left for one clause more.
    pub fn has_room(&self) -> bool
        ensures { IsTrue result ↔ (length self.now.clauses < 4294967295) }
    {
        self.clauses.len() < u32::MAX as usize
    }

    /// Whether there is no clause.
    pub fn is_empty(&self) -> bool
        ensures { IsTrue result ↔ (self.now.clauses ≡ []) }
    {
        self.clauses.len() == 0
    }

    /// The clause of this number, from 1 to `len`.
    pub fn clause(&self, id: u32) -> &[Lit]
        requires above { 0 < id }
        requires below { id ≤ length self.now.clauses }
        ensures value { slice_get self.now.clauses (id - 1) ≡ Some result.now }
        ensures formed { IsClause self.now.vars result.now }
    {
        self.clauses.list(id as usize - 1)
    }
}

/// Whether literals make a clause over variables 1 to `vars`: their variables are among these, and they
/// ascend strictly.
pub fn is_clause(literals: &[Lit], vars: u32) -> bool
    ensures { IsTrue result ↔ IsClause vars literals.now }
{
    let mut last = 0;
    for lit in literals {
        let var = lit.var();
        if var <= last || var > vars {
            return false;
        }
        last = var;
    }
    true
}

/// Whether the bits, one for each variable, make all clauses true.
pub fn all_true(clauses: &Clauses, bits: &[bool]) -> bool
    requires { length bits.now ≡ clauses.now.vars }
    ensures { IsTrue result ↔ AllTrue bits.now clauses.now.clauses }
{
    for k in 0..clauses.len() {
        if !is_clause_true(clauses.clause(k + 1), bits) {
            return false;
        }
    }
    true
}

// Whether one of the literals is true.
fn is_clause_true(literals: &[Lit], bits: &[bool]) -> bool
    requires { All (λ l. l.var ≤ length bits.now) literals.now }
    ensures { IsTrue result ↔ IsClauseTrue bits.now literals.now }
{
    literals.iter().any(|lit| lit.is_true(bits))
}
