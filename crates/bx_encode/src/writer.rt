//! Where the clauses of a formula are put, one behind the other.
ghost use Rattle.std.specs.Prelude.{◌<◌, ℕ, ◌++◌, [], ◌∷◌, map, length, IfOk, Contains};
ghost use Rattle.bx_cnf.specs.Formulas.{IsClause};
ghost use Rattle.bx_encode.specs.Variables.{HasBorders, isnt};
ghost use Rattle.bx_encode.specs.declared.variable.Variable.TheVariants.{EdgeOn};
ghost use Rattle.bx_encode.specs.Families.{pairs};
ghost use Rattle.bx_encode.specs.Sizes.{Adds};

use crate::frame::Frame;
use crate::push::{push, push_pairs};
use crate::variable::Variable;
use bx_cnf::{Clauses, Lit};
use bx_logic::NoMemory;

// The clauses so far, and a list for the literals of the next ones. Between two families, and two tiles or
// edges of one, the list holds what it may.
#[derive(Drop)]
pub struct Writer {
    pub list: Vec<Lit>,
    pub clauses: Clauses,
}

impl Writer {
    // Adds a clause.
    pub fn add(&mut self, literals: &[Lit]) -> Result<(), NoMemory>
        requires { IsClause self.old.clauses.vars literals.now }
        ensures { IfOk result (λ _. Adds self.old.clauses self.new.clauses (literals.now ∷ [])) }
    {
        push(&mut self.clauses, literals)
    }

    // Adds the clause of the list's literals.
    pub fn add_list(&mut self) -> Result<(), NoMemory>
        requires { IsClause self.old.clauses.vars self.old.list.items }
        ensures { IfOk result (λ _. Adds self.old.clauses self.new.clauses
            (self.old.list.items ∷ [])) }
    {
        push(&mut self.clauses, &self.list)
    }

    // Adds a clause for each two of the list's literals.
    pub fn add_pairs(&mut self) -> Result<(), NoMemory>
        requires { IsClause self.old.clauses.vars self.old.list.items }
        ensures { IfOk result (λ _. Adds self.old.clauses self.new.clauses
            (pairs self.old.list.items)) }
    {
        push_pairs(&mut self.clauses, &self.list)
    }

    // Adds for each of the borders the clause that the edge isn't on it, with the list's literals before and
    // these behind.
    pub fn add_each(
        &mut self,
        frame: &Frame,
        e: u32,
        borders: &[u32],
        behind: &[Lit],
    ) -> Result<(), NoMemory>
        requires edge { e < length frame.now.net.now.edges }
        requires borders { HasBorders frame.now.ratio borders.now }
        requires clause { (b : ℕ) → Contains borders.now b → IsClause self.old.clauses.vars
            (self.old.list.items
            ++ isnt frame.now.net.now frame.now.ratio (EdgeOn e b) ∷ behind.now) }
        ensures { IfOk result (λ _. Adds self.old.clauses self.new.clauses
            (map (λ b. self.old.list.items
            ++ isnt frame.now.net.now frame.now.ratio (EdgeOn e b) ∷ behind.now) borders.now)) }
    {
        let length = self.list.len();
        for b in borders {
            self.list.push(frame.isnt(Variable::EdgeOn(e, *b)))?;
            self.list.extend_from_slice(behind)?;
            push(&mut self.clauses, &self.list)?;
            self.list.truncate(length);
        }
        Ok(())
    }
}
