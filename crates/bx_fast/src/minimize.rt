//! Minimising: a literal of the learned clause goes where it follows from the others, by its reason and
//! the reasons of what that one needs (recursive minimisation after Sörensson and Biere, 2009). A walk
//! that comes to a decision, or to a level that the clause hasn't, fails, and leaves no trace but that
//! the variable at which it failed doesn't follow.

use crate::analyze::Mark;
use crate::assigned::Reason;
use crate::codes::var_of;
use crate::solver::Solver;
use crate::table::{at, place_of, put};
use bx_logic::NoMemory;

/// How many variables a walk looks at. Longer walks seldom succeed.
const MOST_STEPS: u32 = 1000;

impl Solver {
    /// Takes the literals out of the learned clause that follow from the others.
    pub(crate) fn minimize(&mut self) -> Result<(), NoMemory> {
        let count = place_of(self.analysis.literals.len());
        let mut kept = count.min(1);
        for k in 1..count {
            let code = at(&self.analysis.literals, k, 0);
            if !self.follows(var_of(code))? {
                put(&mut self.analysis.literals, kept, code);
                kept = kept.saturating_add(1);
            }
        }
        self.analysis.literals.truncate(kept as usize);
        Ok(())
    }

    // Whether a false literal of the clause, of this variable, follows from the others. If so the places
    // of all that it was found by are put into the chain.
    fn follows(&mut self, var: u32) -> Result<bool, NoMemory> {
        if matches!(self.assigned.fact(var).reason, Reason::Decision) {
            return Ok(false);
        }
        let start = place_of(self.analysis.cone.len());
        self.analysis.waiting.clear();
        self.analysis.waiting.push(var)?;
        for _ in 0..MOST_STEPS {
            let Some(next) = self.analysis.waiting.pop() else {
                self.keep_cone(var, start)?;
                return Ok(true);
            };
            if !self.is_reached(next)? {
                self.undo_cone(start, next, var)?;
                return Ok(false);
            }
        }
        self.undo_cone(start, var, var)?;
        Ok(false)
    }

    // Whether each other literal of a variable's reason may follow from those that are kept; those of
    // which it isn't known wait.
    fn is_reached(&mut self, var: u32) -> Result<bool, NoMemory> {
        match self.assigned.fact(var).reason {
            Reason::Decision => Ok(false),
            Reason::Unit(_) => Ok(true),
            Reason::Pair(other, _) => self.may_follow(var_of(other)),
            Reason::Clause(place) => self.is_clause_reached(place),
        }
    }

    // The same of all literals of a longer clause.
    fn is_clause_reached(&mut self, place: u32) -> Result<bool, NoMemory> {
        for k in 0..self.arena.size(place) {
            let code = self.arena.literal(place, k);
            if !self.may_follow(var_of(code))? {
                return Ok(false);
            }
        }
        Ok(true)
    }

    // Whether a variable's literal may follow from those that are kept. It waits where it isn't known.
    fn may_follow(&mut self, var: u32) -> Result<bool, NoMemory> {
        match self.analysis.mark_of(var) {
            Mark::Seen => return Ok(true),
            Mark::Apart => return Ok(false),
            Mark::Unseen => {}
        }
        let fact = self.assigned.fact(var);
        if fact.level > 0 {
            let is_decision = matches!(fact.reason, Reason::Decision);
            if is_decision || !self.analysis.has_level(fact.level) {
                return Ok(false);
            }
            self.analysis.waiting.push(var)?;
        }
        self.analysis.set_mark(var, Mark::Seen);
        self.analysis.cone.push(var)?;
        Ok(true)
    }

    // A walk succeeded: what it met is what the clause follows by.
    fn keep_cone(&mut self, var: u32, start: u32) -> Result<(), NoMemory> {
        let place = self.assigned.fact(var).place;
        self.analysis.chain.push(place)?;
        for k in start..place_of(self.analysis.cone.len()) {
            let met = at(&self.analysis.cone, k, 0);
            let fact = self.assigned.fact(met);
            if fact.level == 0 {
                self.analysis.roots.push(met)?;
            } else {
                self.analysis.chain.push(fact.place)?;
            }
        }
        Ok(())
    }

    // A walk from a variable failed at another one, or at itself.
    fn undo_cone(&mut self, start: u32, failed: u32, var: u32) -> Result<(), NoMemory> {
        for k in start..place_of(self.analysis.cone.len()) {
            let met = at(&self.analysis.cone, k, 0);
            self.analysis.set_mark(met, Mark::Unseen);
        }
        self.analysis.cone.truncate(start as usize);
        if failed != var {
            self.analysis.set_mark(failed, Mark::Apart);
            self.analysis.cone.push(failed)?;
        }
        Ok(())
    }
}
