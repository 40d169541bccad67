//! The search: decisions and what follows from them, until a clause is false; what is learned from it;
//! and so on, until all variables have values, the empty clause is learned, the conflicts are used up, or
//! the pulse doesn't want it any more.
ghost use Rattle.std.specs.Prelude.{◌≡◌, ◌≢◌, ℕ, ◌+◌, ◌≤◌, IfOk, OnErr};
ghost use Rattle.bx_fast.specs.Fast.{IsCertified};

use crate::certify::{certify_bits, certify_steps};
use crate::outcome::FastOutcome;
use crate::solver::{False, Solver};
use bx_cnf::Clauses;
use bx_logic::NoMemory;
use bx_pulse::Pulse;
use std::alloc::Global;

/// Searches for bits that make all clauses true, over so many conflicts; with the next one it gives up.
/// It asks the pulse once after each clause that it learned, and stops where the answer is no.
///
/// # Errors
///
/// `NoMemory`. The pulse may have been asked, and never answered no.
pub fn solve_fast<P: Pulse>(
    alloc: Global,
    clauses: &Clauses,
    conflicts: u64,
    pulse: &mut P,
) -> Result<FastOutcome, NoMemory>
    requires ready { P.ready pulse.old }

    // Bits make all clauses true, and steps are accepted, so that no bits do.
    ensures certified { IfOk result (IsCertified clauses.now) }

    // It is stopped only where the pulse said so, at last.
    ensures stopped { IfOk result (λ end. end ≡ FastOutcome.Stopped
        → P.stops pulse.new ≡ P.stops pulse.old + 1) }
    ensures not_stopped { IfOk result (λ end. end ≢ FastOutcome.Stopped
        → P.stops pulse.new ≡ P.stops pulse.old) }
    ensures no_memory { OnErr result (P.stops pulse.new ≡ P.stops pulse.old) }

    // It asks once for each conflict at most.
    ensures at_most { P.asked pulse.new ≤ P.asked pulse.old + conflicts }
    ensures leads { P.leads pulse.old pulse.new }

    // Where it wasn't stopped the pulse may be asked again.
    ensures still_ready { IfOk result (λ end. end ≢ FastOutcome.Stopped → P.ready pulse.new) }
{
    let mut solver = Solver::of(alloc, clauses)?;
    let halt = solver.run(conflicts, pulse)?;
    solver.answer(clauses, halt)
}

/// Why a search goes no further.
pub(crate) enum Halt {
    /// All variables have values.
    Complete,
    /// It learned the empty clause.
    Refuted,
    /// The conflicts are used up, or the ids.
    Beyond,
    /// The pulse doesn't want it any more.
    Unwanted,
}

impl Solver {
    // Goes on to the end.
    fn run<P: Pulse>(&mut self, conflicts: u64, pulse: &mut P) -> Result<Halt, NoMemory>
        requires ready { P.ready pulse.old }
        ensures stopped { IfOk result (λ halt. halt ≡ Halt.Unwanted
            → P.stops pulse.new ≡ P.stops pulse.old + 1) }
        ensures not_stopped { IfOk result (λ halt. halt ≢ Halt.Unwanted
            → P.stops pulse.new ≡ P.stops pulse.old) }
        ensures no_memory { OnErr result (P.stops pulse.new ≡ P.stops pulse.old) }
        ensures at_most { P.asked pulse.new ≤ P.asked pulse.old + conflicts }
        ensures leads { P.leads pulse.old pulse.new }
        ensures still_ready { IfOk result (λ halt. halt ≢ Halt.Unwanted → P.ready pulse.new) }
    {
        'turns: for turn in 0..conflicts {
            if let Some(halt) = self.turn()? {
                return Ok(halt);
            }
            if !pulse.wanted() {
                return Ok(Halt::Unwanted);
            }
        }
        self.last_turn()
    }

    // Goes on to the next conflict and learns from it, or to the end.
    fn turn(&mut self) -> Result<Option<Halt>, NoMemory>
        ensures { IfOk result (λ halt. halt ≢ Some Halt.Unwanted) }
    {
        match self.next_conflict()? {
            Some(found) => self.learn(found),
            None => Ok(Some(Halt::Complete)),
        }
    }

    // Goes on to the end, or to the next conflict, which is one too many.
    fn last_turn(&mut self) -> Result<Halt, NoMemory>
        ensures { IfOk result (λ halt. halt ≢ Halt.Unwanted) }
    {
        match self.next_conflict()? {
            Some(_) => Ok(Halt::Beyond),
            None => Ok(Halt::Complete),
        }
    }

    // Goes on to the next conflict, and gives the clause that is false; none where all variables have
    // values.
    fn next_conflict(&mut self) -> Result<Option<False>, NoMemory> {
        if let Some(found) = self.refuted {
            self.settle()?;
            return Ok(Some(found));
        }
        if let Some(found) = self.follow()? {
            return Ok(Some(found));
        }
        self.keep_pace()?;
        for _ in 0..=self.vars {
            if !self.decide()? {
                return Ok(None);
            }
            if let Some(found) = self.follow()? {
                return Ok(Some(found));
            }
        }
        Ok(None)
    }

    // Does what is due between conflicts.
    fn keep_pace(&mut self) -> Result<(), NoMemory> {
        if self.pace.restarts() {
            self.backtrack(0)?;
        }
        if self.pace.reduces() {
            self.reduce()?;
        }
        if let Some(change) = self.pace.rephases() {
            self.backtrack(0)?;
            self.assigned.rephase(change);
        }
        Ok(())
    }

    // Propagates, and gives what follows at level 0 its steps.
    fn follow(&mut self) -> Result<Option<False>, NoMemory> {
        let found = self.propagate()?;
        if self.assigned.level() == 0 {
            self.settle()?;
        }
        Ok(found)
    }

    // The answer of a search that goes no further, after which the solver is only to be dropped.
    fn answer(&mut self, clauses: &Clauses, halt: Halt) -> Result<FastOutcome, NoMemory>
        ensures certified { IfOk result (IsCertified clauses.now) }
        ensures stopped { IfOk result (λ end. end ≡ FastOutcome.Stopped → halt ≡ Halt.Unwanted) }
        ensures not_stopped { IfOk result (λ end. end ≢ FastOutcome.Stopped
            → halt ≢ Halt.Unwanted) }
        ensures no_memory { OnErr result (halt ≢ Halt.Unwanted) }
    {
        match halt {
            Halt::Complete => {
                let bits = self.assigned.bits(self.alloc, clauses.vars())?;
                Ok(certify_bits(clauses, bits))
            }
            Halt::Refuted => {
                let steps = self.log.take(self.alloc);
                certify_steps(self.alloc, clauses, &steps)
            }
            Halt::Beyond => Ok(FastOutcome::Unknown),
            Halt::Unwanted => Ok(FastOutcome::Stopped),
        }
    }
}
