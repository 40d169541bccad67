//! The clauses, the trail, and what tells which clause is active. It promises the least-numbered active
//! clause for any trail; which literal is assigned, and when a variable is freed, is for the solver to
//! say.
ghost use Rattle.std.specs.Prelude.{◌≡◌, ◌++◌, ◌∷◌, [], ◌<◌, None, IfSome, IfOk, OnOk, length};
ghost use Rattle.bx_cnf.specs.Formulas.{IsClause};
ghost use Rattle.bx_cnf.specs.Assignments.{IsFree};
ghost use Rattle.bx_watch.specs.Watching.{IsWatch, IsOver, IsLast, Frees, NoneActive, IsLeastActive};

use crate::active::Active;
use crate::lists::Lists;
use crate::reading::{Reading, read};
use crate::store::Store;
use crate::trail::Trail;
use crate::watches::Watches;
use bx_cnf::{Clauses, Lit};
use bx_logic::NoMemory;
use std::alloc::Global;
use std::marker::Model;

/// Clauses and a trail of literals. Contracts see the clauses as a list, the first having number 1, and
/// the literals that are assigned in the order in which they were.
#[derive(Drop)]
pub struct Watched<'a> {
    store: Store<'a>,
    trail: Trail,
    watches: Watches,
    // at each literal the clauses that it alone met when they were taken out of the set
    parked: Lists,
    // Not so after want of memory: then it stands for no clause at all, and refuses all further calls.
    whole: bool,
}

impl<'a> Model for Watched<'a> {
    ghost use Rattle.std.specs.Prelude.{◌≡◌, true};
    ghost use Rattle.bx_watch.specs.Watching.{Watch};

    ghost Value = { Watch };

    ghost use Rattle.bx_watch.specs.Keeping.{watch_of, tables_of, IsWhole};

    ghost view = { λ w. watch_of w.whole w.store w.trail };

    ghost invariant = { λ w. w.whole ≡ true →
        IsWhole w.store w.trail (tables_of w.watches) w.parked };
}

impl<'a> Watched<'a> {
    /// These clauses, with no variable assigned.
    pub fn new(alloc: Global, clauses: &'a Clauses) -> Result<Self, NoMemory>
        ensures value { IfOk result (λ w. w
            ≡ record { vars = clauses.now.vars; clauses = clauses.now.clauses; trail = [] }) }
        ensures formed { IfOk result IsWatch }
    {
        let store = Store::new(alloc, clauses);
        let trail = Trail::new(alloc, clauses.vars())?;
        let mut watches = Watches::new(alloc, &store, &trail)?;
        let mut parked = Lists::none(alloc, 2 * clauses.vars() as usize)?;
        watches.clean(&mut parked, &store, &trail)?;
        Ok(Watched {
            store,
            trail,
            watches,
            parked,
            whole: true,
        })
    }

    /// Assigns a literal whose variable is free: it is true from now on.
    ///
    /// # Errors
    ///
    /// `NoMemory`, and then this value is only to be dropped.
    pub fn assigned(&mut self, lit: Lit) -> Result<(), NoMemory>
        requires over { IsOver self.old.vars lit }
        requires is_free { IsFree self.old.trail lit }
        ensures ok { OnOk result (self.new
            ≡ record self.old { trail = self.old.trail ++ lit ∷ [] }) }
    {
        if !self.whole {
            return Err(NoMemory);
        }
        self.whole = false;
        self.watches.falsify(!lit, &self.store, &self.trail)?;
        self.trail.push(lit)?;
        self.watches
            .clean(&mut self.parked, &self.store, &self.trail)?;
        self.whole = true;
        Ok(())
    }

    /// Frees the variable that was assigned last, of those that weren't freed.
    ///
    /// # Errors
    ///
    /// `NoMemory`, and then this value is only to be dropped.
    pub fn freed(&mut self, var: u32) -> Result<(), NoMemory>
        requires { IsLast self.old.trail var }
        ensures ok { OnOk result (Frees self.old self.new var) }
    {
        if !self.whole {
            return Err(NoMemory);
        }
        let Some(lit) = self.trail.pop() else {
            return Ok(());
        };
        self.whole = false;
        self.watches.release(lit, &mut self.parked);
        self.watches
            .clean(&mut self.parked, &self.store, &self.trail)?;
        self.whole = true;
        Ok(())
    }

    /// Adds a clause behind the others.
    ///
    /// # Errors
    ///
    /// `NoMemory`, and then this value is only to be dropped.
    pub fn add(&mut self, literals: &[Lit]) -> Result<(), NoMemory>
        requires clause { IsClause self.old.vars literals.now }
        requires room { length self.old.clauses < 4294967295 }
        ensures ok { OnOk result (self.new
            ≡ record self.old { clauses = self.old.clauses ++ literals.now ∷ [] }) }
    {
        if !self.whole {
            return Err(NoMemory);
        }
        self.whole = false;
        self.store.push(literals)?;
        let number = self.store.len() - 1;
        self.watches.attach(number, &self.store, &self.trail)?;
        self.watches
            .clean(&mut self.parked, &self.store, &self.trail)?;
        self.whole = true;
        Ok(())
    }

    /// The least-numbered clause that is unit or false, and none exactly where there is none. Takes no
    /// memory.
    pub fn least_active(&self) -> Option<Active>
        ensures some { IfSome result (IsLeastActive self.now) }
        ensures none { result ≡ None → NoneActive self.now.trail self.now.clauses }
        ensures formed { IsWatch self.now }
    {
        if !self.whole {
            return None;
        }
        let number = self.watches.pending.least()?;
        match read(self.store.clause(number), &self.trail) {
            Reading::False => Some(Active::False(number + 1)),
            Reading::Unit(lit) => Some(Active::Unit(number + 1, lit)),
            Reading::Met(_) | Reading::Other => None,
        }
    }
}
