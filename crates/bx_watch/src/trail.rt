//! The literals that are assigned, in the order in which they were, with the value and the place of each
//! variable, so that one look tells what a literal is.
ghost use Rattle.std.specs.Prelude.{◌≡◌, ◌++◌, ◌∷◌, [], ◌<◌, ◌≤◌, true, false, IfOk, OnOk, Contains};
ghost use Rattle.bx_cnf.specs.Assignments.{IsFree, IsFalse};
ghost use Rattle.bx_watch.specs.Watching.{IsOver};
ghost use Rattle.bx_watch.specs.Readings.{IsValue, IsRank, Outlasts, IsTrail, TakesLast};

use bx_cnf::Lit;
use bx_logic::NoMemory;
use std::alloc::Global;
use std::marker::Model;

/// Assigned literals. Contracts see them in their order, and how many variables there are.
#[derive(Drop)]
pub(crate) struct Trail {
    literals: Vec<Lit>,
    // of each variable, variable 1 first
    values: Vec<Option<bool>>,
    // of each variable that is assigned, the place of its literal; of the others anything
    places: Vec<usize>,
}

impl Model for Trail {
    ghost use Rattle.std.specs.Prelude.{length};
    ghost use Rattle.bx_watch.specs.Readings.{Assigned, IsTrail, AreValues, ArePlaces};

    ghost Value = { Assigned };

    ghost view = { λ t. record { vars = length t.values.items; literals = t.literals.items } };

    ghost invariant = { λ t.
        IsTrail (record { vars = length t.values.items; literals = t.literals.items })
        × AreValues (length t.values.items) t.values.items t.literals.items
        × ArePlaces (length t.values.items) t.places.items t.literals.items };
}

impl Trail {
    /// No literal of so many variables.
    ///
    /// # Errors
    ///
    /// `NoMemory`.
    pub(crate) fn new(alloc: Global, vars: u32) -> Result<Self, NoMemory>
        ensures { IfOk result (λ t. t ≡ record { vars = vars; literals = [] }) }
    {
        Ok(Trail {
            literals: Vec::new(alloc),
            values: vec![in alloc; None; vars as usize]?,
            places: vec![in alloc; 0; vars as usize]?,
        })
    }

    /// Assigns a literal whose variable is free.
    ///
    /// # Errors
    ///
    /// `NoMemory`.
    pub(crate) fn push(&mut self, lit: Lit) -> Result<(), NoMemory>
        requires over { IsOver self.old.vars lit }
        requires is_free { IsFree self.old.literals lit }
        ensures { OnOk result (self.new
            ≡ record self.old { literals = self.old.literals ++ lit ∷ [] }) }
    {
        let place = self.literals.len();
        self.literals.push(lit)?;
        let at = lit.var() as usize - 1;
        self.values[at] = Some(lit.is_positive());
        self.places[at] = place;
        Ok(())
    }

    /// Takes the last literal off, and gives it.
    pub(crate) fn pop(&mut self) -> Option<Lit>
        ensures { TakesLast self.old self.new result }
    {
        let lit = self.literals.pop()?;
        self.values[lit.var() as usize - 1] = None;
        Some(lit)
    }

    /// Whether a literal is true, none where its variable is free.
    pub(crate) fn value(&self, lit: Lit) -> Option<bool>
        requires { IsOver self.now.vars lit }
        ensures value { IsValue self.now.literals lit result }
        ensures formed { IsTrail self.now }
    {
        match self.values[lit.var() as usize - 1] {
            Some(value) => Some(value == lit.is_positive()),
            None => None,
        }
    }

    /// Whether a literal is true.
    pub(crate) fn is_true(&self, lit: Lit) -> bool
        requires { IsOver self.now.vars lit }
        ensures yes { result ≡ true → Contains self.now.literals lit }
        ensures no { result ≡ false → Contains self.now.literals lit → ⊥ }
    {
        match self.value(lit) {
            Some(value) => value,
            None => false,
        }
    }

    /// Whether a literal is false.
    pub(crate) fn is_false(&self, lit: Lit) -> bool
        requires { IsOver self.now.vars lit }
        ensures yes { result ≡ true → IsFalse self.now.literals lit }
        ensures no { result ≡ false → IsFalse self.now.literals lit → ⊥ }
    {
        match self.value(lit) {
            Some(value) => !value,
            None => false,
        }
    }

    /// Whether a literal was not false yet where another one became so, or isn't false now.
    pub(crate) fn outlasts(&self, lit: Lit, other: Lit) -> bool
        requires over { IsOver self.now.vars lit }
        requires other_over { IsOver self.now.vars other }
        requires apart { lit ≡ other → ⊥ }
        ensures yes { result ≡ true → Outlasts self.now.literals lit other }
        ensures no { result ≡ false → Outlasts self.now.literals other lit }
    {
        self.rank(lit) >= self.rank(other)
    }

    // The place at which a literal became false, and for one that isn't false the end of the trail.
    fn rank(&self, lit: Lit) -> usize
        requires { IsOver self.now.vars lit }
        ensures rank { IsRank self.now.literals lit result }
        ensures formed { IsTrail self.now }
    {
        if self.is_false(lit) {
            self.places[lit.var() as usize - 1]
        } else {
            self.literals.len()
        }
    }
}
