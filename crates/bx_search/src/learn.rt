//! Learning: the step that follows from a false clause is added within the budget, the variables of its
//! clause move to the front of the queue, and the search goes back.
ghost use Rattle.std.specs.Prelude.{◌≡◌, ◌++◌, ◌∷◌, [], ℕ, ◌+◌, ◌<◌, ◌≤◌, ◌↔◌, IsTrue, IfOk, OnOk, All, length};
ghost use Rattle.bx_cnf.specs.Formulas.{IsClause};
ghost use Rattle.bx_proof.specs.Steps.{IsStep};
ghost use Rattle.bx_queue.specs.Queue.{IsVariable};
ghost use Rattle.bx_watch.specs.Watching.{IsLeastActive};
ghost use Rattle.bx_watch.specs.declared.active.Active.TheVariants.{False};
ghost use Rattle.bx_search.specs.States.{clauses_of, watch_of};
ghost use Rattle.bx_search.specs.Searching.{cost, jump_level, moved_in_turn, up_to};
ghost use Rattle.bx_search.specs.Solving.{IsReached, IsSolver, state_of, step_of, Becomes, Analyzes, LearnsTo};

use crate::backtrack::second_highest;
use crate::solver::Solver;
use bx_cnf::Lit;
use bx_logic::NoMemory;
use bx_queue::MoveFront;

/// After so many learned clauses each, the search starts again from level 0. The order of the queue and the
/// phases stay, so it soon stands where it stood, but for the decisions that the newest clauses ask for; a
/// short, fixed period then costs little. Luby's series (Luby, Sinclair and Zuckerman, 1993) and averages of
/// how many levels a clause has (glucose: Audemard and Simon, 2012) decide more formulas. They were turned
/// down: each byte of a log hangs on when the search restarts, and the definition of the search would have to
/// keep a place in the series, or the averages and how they are rounded, in its state.
const RESTART_PERIOD: u32 = 64;

/// What became of a false clause.
pub(crate) enum Learned {
    /// The step would pass the budget.
    Beyond,
    /// The empty clause, with which the log ends.
    Empty,
    /// A clause, from which the search goes on.
    Clause,
}

impl Solver<'_> {
    /// Learns from the false clause of this number.
    ///
    /// # Errors
    ///
    /// `NoMemory`, and then this value is only to be dropped.
    pub(crate) fn learn(&mut self, id: u32, budget: u64) -> Result<Learned, NoMemory>
        requires agrees { IsSolver self.old }
        requires reached { IsReached self.old.clauses.now budget (state_of self.old) }
        requires fails { IsLeastActive (watch_of self.old.clauses.now (state_of self.old))
            (False id) }
        requires room { length self.old.clauses.now.clauses + budget ≤ 4294967295 }
        ensures { IfOk result (LearnsTo budget id self.old self.new) }
    {
        self.analyze(id)?;
        if !self.is_within(budget) {
            return Ok(Learned::Beyond);
        }
        self.add_step()?;
        if self.analysis.literals.is_empty() {
            return Ok(Learned::Empty);
        }
        self.go_back()?;
        Ok(Learned::Clause)
    }

    // Learns a step from the false clause of this number.
    fn analyze(&mut self, id: u32) -> Result<(), NoMemory>
        requires agrees { IsSolver self.old }
        requires reached { (budget : ℕ) × IsReached self.old.clauses.now budget (state_of self.old)
            × (length self.old.clauses.now.clauses + budget ≤ 4294967295) }
        requires fails { IsLeastActive (watch_of self.old.clauses.now (state_of self.old))
            (False id) }
        ensures { OnOk result (Analyzes self.old self.new id) }
    {
        self.analysis
            .learn(self.clauses, &self.steps, &self.trail, id)
    }

    // Whether what was learned is within the budget.
    fn is_within(&self, budget: u64) -> bool
        requires { self.now.spent ≤ budget }
        ensures { IsTrue result ↔ (self.now.spent + cost (step_of self.now) ≤ budget) }
    {
        let left = budget - self.spent;
        let literals = self.analysis.literals.len() as u64;
        let hints = self.analysis.hints.len() as u64;
        literals <= left && hints <= left - literals
    }

    // Adds what was learned to the log and to the clauses.
    fn add_step(&mut self) -> Result<(), NoMemory>
        requires agrees { IsSolver self.old }
        requires step { IsStep (self.old.steps.first + length self.old.steps.steps)
            (step_of self.old) }
        requires clause { IsClause self.old.clauses.now.vars self.old.analysis.literals.items }
        requires room { length (clauses_of self.old.clauses.now (state_of self.old)) < 4294967295 }
        requires fits { self.old.spent + cost (step_of self.old) ≤ 4294967295 }
        ensures state { OnOk result (Becomes self.old self.new (record (state_of self.old) {
          steps = self.old.steps.steps ++ step_of self.old ∷ [];
          spent = self.old.spent + cost (step_of self.old);
        })) }
        ensures kept { OnOk result (self.new.analysis ≡ self.old.analysis) }
    {
        self.steps
            .push(&self.analysis.literals, &self.analysis.hints)?;
        self.watched.add(&self.analysis.literals)?;
        self.spent += self.analysis.literals.len() as u64 + self.analysis.hints.len() as u64;
        Ok(())
    }

    // Moves the variables of what was learned to the front, and goes back.
    fn go_back(&mut self) -> Result<(), NoMemory>
        requires agrees { IsSolver self.old }
        requires clause { IsClause self.old.clauses.now.vars self.old.analysis.literals.items }
        ensures { OnOk result (Becomes self.old self.new (record (state_of self.old) {
          trail = up_to (jump_level (length self.old.steps.steps) self.old.analysis.levels.items)
              self.old.trail.entries;
          queue = moved_in_turn self.old.analysis.literals.items self.old.queue.order;
        })) }
    {
        move_to_front(&mut self.queue, &self.analysis.literals);
        let level = self.jump_level();
        self.backtrack(level)
    }

    // The level to go back to: 0 where the search restarts, and otherwise the second-highest in what was
    // learned.
    fn jump_level(&self) -> u32
        ensures { result ≡ jump_level (length self.now.steps.steps) self.now.analysis.levels.items }
    {
        if self.steps.len() % RESTART_PERIOD == 0 {
            0
        } else {
            second_highest(&self.analysis.levels)
        }
    }
}

// Moves the variables of literals to the front, one after the other.
fn move_to_front(queue: &mut MoveFront, literals: &[Lit])
    requires { All (λ l. IsVariable (length queue.old.taken) l.var) literals.now }
    ensures { queue.new ≡ record queue.old { order = moved_in_turn literals.now queue.old.order } }
{
    for lit in literals {
        queue.to_front(lit.var());
    }
}
