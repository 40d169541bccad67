//! What becomes of an analysis: the step goes into the log and the clause into the watches, the search
//! goes back to the level at which the clause leaves one literal, and makes that one true.
//!
//! Each literal of level 0 gets a step of its own as it is assigned, so that later hints name that step
//! and not the clauses that led to it.

ghost use Rattle.std.specs.Prelude.{◌≢◌, IfOk};
ghost use Rattle.bx_fast.specs.declared.search.Halt.{Halt};

use crate::assigned::Reason;
use crate::codes::var_of;
use crate::search::Halt;
use crate::solver::{False, Solver};
use crate::table::{at, place_of, put};
use bx_logic::NoMemory;
use std::mem;

impl Solver {
    /// Learns from a false clause, and goes on; or says why the search ends.
    pub(crate) fn learn(&mut self, found: False) -> Result<Option<Halt>, NoMemory>
        ensures { IfOk result (λ halt. halt ≢ Some Halt.Unwanted) }
    {
        self.analyze(found)?;
        let mut literals = mem::replace(&mut self.analysis.literals, Vec::new(self.alloc));
        let added = self.add_step(&literals)?;
        let halt = match added {
            Some(id) => self.go_on(&mut literals, id)?,
            None => Some(Halt::Beyond),
        };
        self.analysis.literals = literals;
        self.analysis.end();
        Ok(halt)
    }

    // Adds the step of what was learned to the log.
    fn add_step(&mut self, literals: &[u32]) -> Result<Option<u32>, NoMemory> {
        let mut sorted = Vec::from_slice(self.alloc, literals)?;
        sorted.sort_unstable();
        self.log.add(&sorted, &self.analysis.hints)
    }

    // Goes on with a clause that was learned.
    fn go_on(&mut self, literals: &mut Vec<u32>, id: u32) -> Result<Option<Halt>, NoMemory>
        ensures { IfOk result (λ halt. halt ≢ Some Halt.Unwanted) }
    {
        let Some(first) = literals.first().copied() else {
            return Ok(Some(Halt::Refuted));
        };
        let level = self.raise_second(literals);
        let levels = self.analysis.levels.saturating_add(1);
        self.bump()?;
        self.pace.note(levels);
        self.assigned.note_best();
        self.backtrack(level)?;
        let reason = self.attach(literals, id, levels)?;
        self.assigned.assign(first, reason)?;
        Ok(None)
    }

    // Puts a literal of the highest level below the open one second, and gives that level.
    fn raise_second(&self, literals: &mut [u32]) -> u32 {
        let mut level = 0;
        let mut best = 1;
        for k in 1..place_of(literals.len()) {
            let other = self.assigned.fact(var_of(at(literals, k, 0))).level;
            if other > level {
                level = other;
                best = k;
            }
        }
        let second = at(literals, 1, 0);
        let raised = at(literals, best, 0);
        put(literals, best, second);
        put(literals, 1, raised);
        level
    }

    /// Gives each literal of level 0 that has none a step of its own.
    pub(crate) fn settle(&mut self) -> Result<(), NoMemory> {
        for place in self.settled..self.assigned.count() {
            let code = self.assigned.literal(place);
            let reason = self.assigned.fact(var_of(code)).reason;
            let id = match reason {
                Reason::Unit(id) => Some(id),
                _ => self.add_unit(code, reason)?,
            };
            match id {
                Some(id) => put(&mut self.units, var_of(code), id),
                None => self.is_over = true,
            }
        }
        self.settled = self.assigned.count();
        Ok(())
    }

    // Adds the step of a literal of level 0: the unit clauses of the others of its reason, and that one.
    fn add_unit(&mut self, code: u32, reason: Reason) -> Result<Option<u32>, NoMemory> {
        self.analysis.hints.clear();
        match reason {
            Reason::Decision | Reason::Unit(_) => {}
            Reason::Pair(other, _) => {
                let id = at(&self.units, var_of(other), 0);
                self.analysis.hints.push(id)?;
            }
            Reason::Clause(place) => self.put_units(place, code)?,
        }
        let id = self.reason_id(reason);
        self.analysis.hints.push(id)?;
        self.log.add(&[code], &self.analysis.hints)
    }

    // Puts the unit clauses of the other literals of a longer clause into the hints.
    fn put_units(&mut self, place: u32, code: u32) -> Result<(), NoMemory> {
        for other in self.arena.literals(place) {
            if *other != code {
                let id = at(&self.units, var_of(*other), 0);
                self.analysis.hints.push(id)?;
            }
        }
        Ok(())
    }
}
