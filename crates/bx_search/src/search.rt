//! The search: from one conflict to the next, until all variables have values, the empty clause is
//! learned, a step would pass the budget, or the pulse doesn't want it any more.
ghost use Rattle.std.specs.Prelude.{◌≡◌, ◌≢◌, ℕ, ◌+◌, ◌≤◌, List, Bool, length, IfOk, OnErr};
ghost use Rattle.bx_cnf.specs.Formulas.{AllTrue};
ghost use Rattle.bx_proof.specs.Steps.{StepList};
ghost use Rattle.bx_proof.specs.Accepted.{IsAccepted};
ghost use Rattle.bx_search.specs.States.{start};
ghost use Rattle.bx_search.specs.Searching.{IsSearch, enough};
ghost use Rattle.bx_search.specs.Solving.{IsReached, IsSolver, state_of, TurnsTo, IsAnswer, outcome_of};
ghost use Rattle.bx_search.specs.declared.outcome.Outcome.{Outcome as End};

use crate::learn::Learned;
use crate::outcome::Outcome;
use crate::solver::Solver;
use crate::tally::Tally;
use bx_cnf::{Bits, Clauses};
use bx_logic::NoMemory;
use bx_proof::Steps;
use bx_pulse::Pulse;
use std::alloc::Global;
use std::mem;

/// Searches for bits that make all clauses true, within a budget of literals and hints of learned steps.
/// It asks the pulse once after each learned step that isn't empty, and stops where the answer is no.
///
/// # Errors
///
/// `NoMemory`. The pulse may have been asked, and never answered no.
pub fn solve<P: Pulse>(
    alloc: Global,
    clauses: &Clauses,
    budget: u64,
    pulse: &mut P,
) -> Result<Outcome, NoMemory>
    requires ready { P.ready pulse.old }
    requires room { length clauses.now.clauses + budget ≤ 4294967295 }

    // Unless it was stopped it is the search's end, and the pulse was asked once for each step.
    ensures ended { IfOk result (λ end. end ≢ Outcome.Stopped
        → (n : ℕ) × IsSearch clauses.now budget end n
        × (P.asked pulse.new ≡ P.asked pulse.old + n)) }
    ensures not_stopped { IfOk result (λ end. end ≢ Outcome.Stopped
        → P.stops pulse.new ≡ P.stops pulse.old) }

    // It is stopped only where the pulse said so, at last.
    ensures stopped { IfOk result (λ end. end ≡ Outcome.Stopped
        → P.stops pulse.new ≡ P.stops pulse.old + 1) }
    ensures asked { IfOk result (λ end. end ≡ Outcome.Stopped
        → P.asked pulse.old + 1 ≤ P.asked pulse.new) }

    // It never asks more often than the search learns.
    ensures at_most { (end : End) (n : ℕ) → IsSearch clauses.now budget end n
        → P.asked pulse.new ≤ P.asked pulse.old + n }
    ensures no_memory { OnErr result (P.stops pulse.new ≡ P.stops pulse.old) }
    ensures leads { P.leads pulse.old pulse.new }

    // Where it wasn't stopped the pulse may be asked again.
    ensures still_ready { IfOk result (λ end. end ≢ Outcome.Stopped → P.ready pulse.new) }

    // A budget that pays for each clause over the variables is never passed.
    ensures decides { IfOk result (λ end. enough clauses.now.vars ≤ budget
        → (spent : ℕ) → end ≢ Outcome.Undecided spent) }

    // Bits that it gives are one for each variable, and make all clauses true.
    ensures solved { IfOk result (λ end. (bits : List Bool) → end ≡ Outcome.Sat bits
        → (length bits ≡ clauses.now.vars) × AllTrue bits clauses.now.clauses) }

    // A log that it gives is accepted.
    ensures accepted { IfOk result (λ end. (log : StepList) → end ≡ Outcome.Unsat log
        → IsAccepted clauses.now log) }
{
    let mut solver = Solver::new(alloc, clauses)?;
    solver.answer(alloc, budget, pulse)
}

/// Searches as `solve` does, with the same end, and tells how much was done, for who measures.
///
/// # Errors
///
/// `NoMemory`. The pulse may have been asked, and never answered no.
pub fn solve_counted<P: Pulse>(
    alloc: Global,
    clauses: &Clauses,
    budget: u64,
    pulse: &mut P,
) -> Result<(Outcome, Tally), NoMemory>
    requires ready { P.ready pulse.old }
    requires room { length clauses.now.clauses + budget ≤ 4294967295 }
    ensures ended { IfOk result (λ counted. counted.0 ≢ Outcome.Stopped
        → (n : ℕ) × IsSearch clauses.now budget counted.0 n
        × (P.asked pulse.new ≡ P.asked pulse.old + n)) }
    ensures stopped { IfOk result (λ counted. counted.0 ≡ Outcome.Stopped
        → P.stops pulse.new ≡ P.stops pulse.old + 1) }
{
    let mut solver = Solver::new(alloc, clauses)?;
    let end = solver.answer(alloc, budget, pulse)?;
    Ok((end, solver.tally))
}

/// Why a search goes no further.
pub(crate) enum Halt {
    /// All variables have values.
    Complete,
    /// The next step would pass the budget.
    Beyond,
    /// It learned the empty clause.
    Empty,
    /// The pulse doesn't want it any more.
    Unwanted,
}

/// How far the search came with one conflict more.
pub(crate) enum Turn {
    /// It learned a clause, and goes on.
    Learned,
    /// All variables have values.
    Complete,
    /// The next step would pass the budget.
    Beyond,
    /// It learned the empty clause.
    Empty,
}

impl Solver<'_> {
    // Goes on from the start to the end, and says how the search ends. The solver is then only to be dropped.
    fn answer<P: Pulse>(
        &mut self,
        alloc: Global,
        budget: u64,
        pulse: &mut P,
    ) -> Result<Outcome, NoMemory>
        requires ready { P.ready pulse.old }
        requires agrees { IsSolver self.old }
        requires starts { state_of self.old ≡ start self.old.clauses.now.vars }
        requires room { length self.old.clauses.now.clauses + budget ≤ 4294967295 }
        ensures answers { IfOk result (λ end. IsAnswer self.old.clauses.now budget end
            (P.asked pulse.old) (P.asked pulse.new) (P.stops pulse.old) (P.stops pulse.new)) }
        ensures at_most { (end : End) (n : ℕ) → IsSearch self.old.clauses.now budget end n
            → P.asked pulse.new ≤ P.asked pulse.old + n }
        ensures no_memory { OnErr result (P.stops pulse.new ≡ P.stops pulse.old) }
        ensures leads { P.leads pulse.old pulse.new }
        ensures still_ready { IfOk result (λ end. end ≢ Outcome.Stopped → P.ready pulse.new) }
    {
        let halt = self.run(budget, pulse)?;
        self.outcome(alloc, halt)
    }

    // Goes on from the start to the end, asking the pulse after each step.
    fn run<P: Pulse>(&mut self, budget: u64, pulse: &mut P) -> Result<Halt, NoMemory>
        requires ready { P.ready pulse.old }
        requires agrees { IsSolver self.old }
        requires starts { state_of self.old ≡ start self.old.clauses.now.vars }
        requires room { length self.old.clauses.now.clauses + budget ≤ 4294967295 }
        ensures answers { IfOk result (λ halt. IsAnswer self.old.clauses.now budget
            (outcome_of self.new halt)
            (P.asked pulse.old) (P.asked pulse.new) (P.stops pulse.old) (P.stops pulse.new)) }
        ensures at_most { (end : End) (n : ℕ) → IsSearch self.old.clauses.now budget end n
            → P.asked pulse.new ≤ P.asked pulse.old + n }
        ensures no_memory { OnErr result (P.stops pulse.new ≡ P.stops pulse.old) }
        ensures leads { P.leads pulse.old pulse.new }
        ensures still_ready { IfOk result (λ halt. halt ≢ Halt.Unwanted → P.ready pulse.new) }
    {
        loop {
            match self.turn(budget)? {
                Turn::Learned => {}
                Turn::Complete => return Ok(Halt::Complete),
                Turn::Beyond => return Ok(Halt::Beyond),
                Turn::Empty => return Ok(Halt::Empty),
            }
            if !pulse.wanted() {
                return Ok(Halt::Unwanted);
            }
        }
    }

    // The outcome of a search that goes no further, after which the solver is only to be dropped. Only the
    // bits of a solution take memory.
    fn outcome(&mut self, alloc: Global, halt: Halt) -> Result<Outcome, NoMemory>
        ensures ok { IfOk result (λ end. end ≡ outcome_of self.old halt) }
        ensures err { OnErr result (halt ≡ Halt.Complete) }
    {
        match halt {
            Halt::Complete => self.solution(alloc),
            Halt::Beyond => Ok(Outcome::Undecided(self.spent)),
            Halt::Empty => Ok(Outcome::Unsat(self.take_steps(alloc))),
            Halt::Unwanted => Ok(Outcome::Stopped),
        }
    }

    // The values of all variables.
    fn solution(&self, alloc: Global) -> Result<Outcome, NoMemory>
        ensures { IfOk result (λ end. end ≡ outcome_of self.now Halt.Complete) }
    {
        let bits = self.trail.values(alloc)?;
        Ok(Outcome::Sat(Bits::new(bits)))
    }

    // Takes out what was learned.
    fn take_steps(&mut self, alloc: Global) -> Steps
        ensures { result ≡ self.old.steps }
    {
        let first = self.steps.first();
        mem::replace(&mut self.steps, Steps::new(alloc, first))
    }

    // Goes on to the next conflict and learns from it, or to the end.
    fn turn(&mut self, budget: u64) -> Result<Turn, NoMemory>
        requires agrees { IsSolver self.old }
        requires reached { IsReached self.old.clauses.now budget (state_of self.old) }
        requires room { length self.old.clauses.now.clauses + budget ≤ 4294967295 }
        ensures { IfOk result (TurnsTo budget self.old self.new) }
    {
        let Some(id) = self.settle()? else {
            return Ok(Turn::Complete);
        };
        Ok(match self.learn(id, budget)? {
            Learned::Clause => Turn::Learned,
            Learned::Beyond => Turn::Beyond,
            Learned::Empty => Turn::Empty,
        })
    }
}
