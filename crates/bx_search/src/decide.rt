//! Decisions: the first free variable of the queue gets its phase, one level higher.
ghost use Rattle.std.specs.Prelude.{◌≡◌, Some, OnOk, ◌<◌, ◌^◌};
ghost use Rattle.bx_search.specs.States.{first_free};
ghost use Rattle.bx_search.specs.Searching.{decided};
ghost use Rattle.bx_search.specs.Solving.{IsSolver, state_of, Becomes};

use crate::solver::Solver;
use bx_cnf::Lit;
use bx_logic::NoMemory;

impl Solver<'_> {
    /// Decides the first free variable.
    ///
    /// # Errors
    ///
    /// `NoMemory`, and then this value is only to be dropped.
    pub(crate) fn decide(&mut self, var: u32) -> Result<(), NoMemory>
        requires agrees { IsSolver self.old }
        requires first { first_free (state_of self.old) ≡ Some var }
        ensures { OnOk result (Becomes self.old self.new (decided (state_of self.old) var)) }
    {
        let lit = literal(var, self.phases[var as usize - 1]);
        self.trail.push_decision(lit)?;
        self.queue.assigned(var);
        self.watched.assigned(lit)
    }
}

// The literal of a variable that has this value.
fn literal(var: u32, value: bool) -> Lit
    requires above { 0 < var }
    requires below { var < 2 ^ 31 }
    ensures { result ≡ record { var = var; positive = value } }
{
    if value {
        Lit::positive(var)
    } else {
        Lit::negative(var)
    }
}
