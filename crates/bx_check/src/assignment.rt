//! Literals that are taken to be true, with the value of each variable at hand. What was taken is kept
//! in order, so that it can be given back at the price of what was taken.
ghost use Rattle.std.specs.Prelude.{◌≡◌, ◌++◌, ◌<◌, ◌↔◌, [], ◌∷◌, IfOk, OnOk, IsTrue};
ghost use Rattle.bx_cnf.specs.Assignments.{IsFalse};

use crate::values::Values;
use bx_cnf::Lit;
use bx_logic::NoMemory;
use std::alloc::Global;
use std::marker::Model;

/// Literals of which no two contradict each other. Contracts see the list of them.
#[derive(Drop)]
pub(crate) struct Assignment {
    values: Values,
    taken: Vec<Lit>,
}

impl Model for Assignment {
    ghost use Rattle.std.specs.Prelude.{List};
    ghost use Rattle.bx_cnf.specs.Literals.{Literal};
    ghost use Rattle.bx_check.specs.Valued.{AreValues};

    ghost Value = { List Literal };

    ghost view = { λ a. a.taken.items };

    ghost invariant = { λ a. AreValues a.values a.taken.items };
}

impl Assignment {
    /// No literal is taken. The values of so many variables stand in an array.
    pub(crate) fn new(alloc: Global, count: u32) -> Result<Self, NoMemory>
        ensures { IfOk result (λ a. a ≡ []) }
    {
        Ok(Assignment {
            values: Values::new(alloc, count)?,
            taken: Vec::new(alloc),
        })
    }

    /// Whether the negation of a literal is taken.
    pub(crate) fn is_false(&self, lit: Lit) -> bool
        ensures { IsTrue result ↔ IsFalse self.now lit }
    {
        match self.values.get(lit.var()) {
            Some(value) => value != lit.is_positive(),
            None => false,
        }
    }

    /// Takes a literal, whose negation isn't taken.
    pub(crate) fn take(&mut self, lit: Lit) -> Result<(), NoMemory>
        requires { IsFalse self.old lit → ⊥ }
        ensures { OnOk result (self.new ≡ self.old ++ lit ∷ []) }
    {
        self.taken.push(lit)?;
        let room = self.values.set(lit.var(), lit.is_positive());
        if room.is_err() {
            self.taken.pop();
        }
        room
    }

    /// Gives all literals back.
    pub(crate) fn clear(&mut self)
        ensures { self.new ≡ [] }
    {
        while let Some(lit) = self.taken.pop() {
            self.values.unset(lit.var());
        }
    }
}
