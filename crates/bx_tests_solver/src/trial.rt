//! Clauses under a trail, once in a `Watched` and once as lists. What the calls require is looked at when
//! they run. The active clauses are found a second time, by the words of their definition over the lists
//! alone, with no value of a variable.
ghost use Rattle.std.specs.Prelude.{◌≡◌, ◌≢◌, IsTrue, IfOk, All};
ghost use Rattle.bx_cnf.specs.Assignments.{IsFree};

use crate::made::literals;
use bx_cnf::{Clauses, Lit, is_clause};
use bx_watch::{Active, Watched};
use std::alloc::Global;
use std::marker::Model;
use std::test::Fail;

/// A `Watched`, and the clauses and the trail that it is to have.
#[derive(Drop)]
pub struct Trial<'a> {
    watched: Watched<'a>,
    clauses: Clauses,
    trail: Vec<Lit>,
}

impl<'a> Model for Trial<'a> {
    ghost use Rattle.std.specs.Prelude.{◌≡◌};
    ghost use Rattle.bx_watch.specs.Watching.{Watch};

    ghost Value = { Watch };

    ghost view = { λ t. t.watched };

    ghost invariant = { λ t. t.watched ≡ record { vars = t.clauses.vars; clauses = t.clauses.clauses; trail = t.trail.items } };
}

impl<'a> Trial<'a> {
    /// These clauses, with no variable assigned.
    pub fn new(alloc: Global, formula: &'a Clauses) -> Result<Self, Fail> {
        Ok(Trial {
            watched: Watched::new(alloc, formula)?,
            clauses: copy_of(alloc, formula)?,
            trail: Vec::new(alloc),
        })
    }

    /// Whether the literal of this number is over a variable that is free.
    pub fn is_free(&self, number: i32) -> bool {
        match Lit::from_number(number) {
            Some(lit) => lit.var() <= self.clauses.vars() && is_free(&self.trail, lit),
            None => false,
        }
    }

    /// Whether no variable is assigned.
    pub fn is_empty(&self) -> bool {
        self.trail.is_empty()
    }

    /// Assigns the literal of this number; an error where its variable isn't free.
    pub fn assigned(self, number: i32) -> Result<Self, Fail> {
        let lit = Lit::from_number(number).ok_or("no literal")?;
        self.assigned_literal(lit)
    }

    // Assigns a literal.
    fn assigned_literal(self, lit: Lit) -> Result<Self, Fail> {
        let Trial {
            mut watched,
            clauses,
            mut trail,
        } = self;
        if lit.var() > clauses.vars() || !is_free(&trail, lit) {
            return Err("not a free variable".into());
        }
        watched.assigned(lit)?;
        trail.push(lit)?;
        Ok(Trial {
            watched,
            clauses,
            trail,
        })
    }

    /// Frees the variable that was assigned last; an error where none is.
    pub fn freed(self) -> Result<Self, Fail> {
        let Trial {
            mut watched,
            clauses,
            mut trail,
        } = self;
        let lit = trail.pop().ok_or("no variable is assigned")?;
        watched.freed(lit.var())?;
        Ok(Trial {
            watched,
            clauses,
            trail,
        })
    }

    /// Adds the clause of these numbers.
    pub fn add(self, alloc: Global, numbers: &[i32]) -> Result<Self, Fail> {
        let literals = literals(alloc, numbers)?;
        self.add_literals(&literals)
    }

    // Adds the clause of these literals.
    fn add_literals(self, literals: &[Lit]) -> Result<Self, Fail> {
        let Trial {
            mut watched,
            mut clauses,
            trail,
        } = self;
        if !is_clause(literals, clauses.vars()) || clauses.len() > 100 {
            return Err("no clause".into());
        }
        watched.add(literals)?;
        clauses.push(literals)?;
        Ok(Trial {
            watched,
            clauses,
            trail,
        })
    }

    /// What `Watched` answers.
    pub fn least_active(&self) -> Option<Active> {
        self.watched.least_active()
    }

    /// The least-numbered clause of which no literal is left, or one that is free.
    pub fn expected(&self, alloc: Global) -> Result<Option<Active>, Fail> {
        for before in 0..self.clauses.len() {
            let clause = self.clauses.clause(before + 1);
            let active = active(alloc, before + 1, clause, &self.trail)?;
            if active.is_some() {
                return Ok(active);
            }
        }
        Ok(None)
    }
}

// The same clauses once more.
fn copy_of(alloc: Global, clauses: &Clauses) -> Result<Clauses, Fail>
    ensures { IfOk result (λ copy. copy ≡ clauses.now) }
{
    let mut copy = Clauses::new(alloc, clauses.vars());
    for before in 0..clauses.len() {
        copy.push(clauses.clause(before + 1))?;
    }
    Ok(copy)
}

// Whether no literal of the trail is over the variable of this one.
fn is_free(trail: &[Lit], lit: Lit) -> bool
    ensures { IsTrue result → IsFree trail.now lit }
{
    for other in trail {
        if other.var() == lit.var() {
            return false;
        }
    }
    true
}

// Whether the clause, which has this number, is active: which of its literals are left decides it.
fn active(alloc: Global, id: u32, clause: &[Lit], trail: &[Lit]) -> Result<Option<Active>, Fail> {
    Ok(match left(alloc, clause, trail)?.as_slice() {
        [] => Some(Active::False(id)),
        [lit] if !trail.contains(lit) => Some(Active::Unit(id, *lit)),
        _ => None,
    })
}

// The literals of the clause whose negation isn't in the trail.
fn left(alloc: Global, clause: &[Lit], trail: &[Lit]) -> Result<Vec<Lit>, Fail> {
    let mut left = Vec::new(alloc);
    for lit in clause {
        if !trail.contains(&!*lit) {
            left.push(*lit)?;
        }
    }
    Ok(left)
}
