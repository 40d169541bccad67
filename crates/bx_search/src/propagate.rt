//! Unit propagation: the literal that a unit clause leaves is assigned.
ghost use Rattle.std.specs.Prelude.{OnOk};
ghost use Rattle.bx_watch.specs.Watching.{IsOver, IsLeastActive};
ghost use Rattle.bx_watch.specs.declared.active.Active.TheVariants.{Unit};
ghost use Rattle.bx_search.specs.States.{watch_of};
ghost use Rattle.bx_search.specs.Searching.{propagated};
ghost use Rattle.bx_search.specs.Solving.{IsSolver, state_of, Becomes};

use crate::solver::Solver;
use bx_cnf::Lit;
use bx_logic::NoMemory;

impl Solver<'_> {
    /// Assigns the literal of the unit clause of this number at the current level, and keeps its value as
    /// its variable's phase.
    ///
    /// # Errors
    ///
    /// `NoMemory`, and then this value is only to be dropped.
    pub(crate) fn propagate(&mut self, id: u32, lit: Lit) -> Result<(), NoMemory>
        requires agrees { IsSolver self.old }
        requires over { IsOver self.old.clauses.now.vars lit }
        requires leaves { IsLeastActive (watch_of self.old.clauses.now (state_of self.old))
            (Unit id lit) }
        ensures { OnOk result (Becomes self.old self.new (propagated (state_of self.old) id lit)) }
    {
        self.tally.add_propagation();
        self.trail.push_unit(lit, id)?;
        self.phases[lit.var() as usize - 1] = lit.is_positive();
        self.queue.assigned(lit.var());
        self.watched.assigned(lit)
    }
}
