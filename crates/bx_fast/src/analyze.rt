//! Conflict analysis: from a false clause back along the trail to the first literal of the open level
//! through which all of the conflict goes (the first unique implication point, after Marques-Silva and
//! Sakallah, 1996). What is learned is its negation and the false literals of lower levels that came in
//! on the way. The hints of the step are the unit clauses of what is false at level 0, the reasons of all
//! literals that were resolved or minimised away, in the order of the trail, and the false clause.

use crate::arena::Arena;
use crate::assigned::{Assigned, Fact, Reason};
use crate::codes::{negated, var_of};
use crate::solver::{False, Solver};
use crate::table::{at, place_of, put};
use bx_logic::NoMemory;
use std::alloc::Global;

/// What is known of a variable in an analysis.
#[derive(Clone, Copy)]
pub(crate) enum Mark {
    /// It has no part yet.
    Unseen,
    /// It has a part: its literal is kept, resolved away, or follows from those that are kept.
    Seen,
    /// Its literal doesn't follow from those that are kept.
    Apart,
}

/// The analysis of a conflict.
#[derive(Drop)]
pub(crate) struct Analysis {
    // by variable
    marks: Vec<Mark>,
    /// The variables of the open level and of lower ones that have a part.
    pub(crate) marked: Vec<u32>,
    /// The variables of level 0 that have a part.
    pub(crate) roots: Vec<u32>,
    /// The variables that minimising has marked.
    pub(crate) cone: Vec<u32>,
    /// The variables that minimising still has to look at.
    pub(crate) waiting: Vec<u32>,
    /// The clause that is learned; its first literal is the one of the open level.
    pub(crate) literals: Vec<u32>,
    /// The places on the trail of the literals whose reasons are hints.
    pub(crate) chain: Vec<u32>,
    /// The hints of the step.
    pub(crate) hints: Vec<u32>,
    /// The variables that have a part, as they stand in the queue.
    pub(crate) keys: Vec<u64>,
    // how many literals of the open level are to be resolved
    open: u32,
    // by level: the last round that met it
    rounds: Vec<u32>,
    round: u32,
    // by level: the last count of levels that met it
    counts: Vec<u32>,
    count: u32,
    /// How many levels the learned clause has.
    pub(crate) levels: u32,
}

impl Analysis {
    /// Nothing is marked.
    pub(crate) fn new(alloc: Global, vars: u32) -> Result<Self, NoMemory> {
        Ok(Analysis {
            marks: vec![in alloc; Mark::Unseen; vars as usize + 1]?,
            marked: Vec::new(alloc),
            roots: Vec::new(alloc),
            cone: Vec::new(alloc),
            waiting: Vec::new(alloc),
            literals: Vec::new(alloc),
            chain: Vec::new(alloc),
            hints: Vec::new(alloc),
            keys: Vec::new(alloc),
            open: 0,
            rounds: vec![in alloc; 0; vars as usize + 1]?,
            round: 0,
            counts: vec![in alloc; 0; vars as usize + 1]?,
            count: 0,
            levels: 0,
        })
    }

    // Begins an analysis. The place of the literal of the open level is held by a code of none.
    fn begin(&mut self) -> Result<(), NoMemory> {
        self.literals.clear();
        self.literals.push(0)?;
        self.chain.clear();
        self.hints.clear();
        self.open = 0;
        self.round = self.round.wrapping_add(1);
        self.levels = 0;
        Ok(())
    }

    /// What is known of a variable.
    pub(crate) fn mark_of(&self, var: u32) -> Mark {
        at(&self.marks, var, Mark::Unseen)
    }

    /// Notes what is known of a variable.
    pub(crate) fn set_mark(&mut self, var: u32, mark: Mark) {
        put(&mut self.marks, var, mark);
    }

    /// Whether a literal of the learned clause has this level.
    pub(crate) fn has_level(&self, level: u32) -> bool {
        at(&self.rounds, level, 0) == self.round
    }

    /// Begins a count of levels.
    pub(crate) fn begin_count(&mut self) {
        self.count = self.count.wrapping_add(1);
    }

    /// Whether a level is met for the first time in this count.
    pub(crate) fn is_first(&mut self, level: u32) -> bool {
        if at(&self.counts, level, 0) == self.count {
            return false;
        }
        put(&mut self.counts, level, self.count);
        true
    }

    // Gives a false literal its part.
    fn meet(&mut self, code: u32, fact: Fact, level: u32) -> Result<(), NoMemory> {
        let var = var_of(code);
        if matches!(self.mark_of(var), Mark::Seen) {
            return Ok(());
        }
        self.set_mark(var, Mark::Seen);
        if fact.level == 0 {
            self.roots.push(var)?;
            return Ok(());
        }
        self.marked.push(var)?;
        if fact.level == level {
            self.open = self.open.saturating_add(1);
            return Ok(());
        }
        if !self.has_level(fact.level) {
            put(&mut self.rounds, fact.level, self.round);
            self.levels = self.levels.saturating_add(1);
        }
        self.literals.push(code)?;
        Ok(())
    }

    /// Ends an analysis: nothing is marked any more.
    pub(crate) fn end(&mut self) {
        clear_marks(&mut self.marks, &self.marked);
        clear_marks(&mut self.marks, &self.roots);
        clear_marks(&mut self.marks, &self.cone);
        self.marked.clear();
        self.roots.clear();
        self.cone.clear();
    }
}

// Takes the marks of variables away.
fn clear_marks(marks: &mut [Mark], vars: &[u32]) {
    for var in vars {
        put(marks, *var, Mark::Unseen);
    }
}

// Gives the literals of a clause their parts.
fn meet_clause(
    arena: &Arena,
    assigned: &Assigned,
    analysis: &mut Analysis,
    place: u32,
) -> Result<(), NoMemory> {
    let level = assigned.level();
    for code in arena.literals(place) {
        analysis.meet(*code, assigned.fact(var_of(*code)), level)?;
    }
    Ok(())
}

impl Solver {
    /// Learns from a false clause what is to be learned: the literals, the hints and the number of
    /// levels. The marks stand until the analysis is ended.
    pub(crate) fn analyze(&mut self, found: False) -> Result<(), NoMemory> {
        self.analysis.begin()?;
        self.meet_false(found)?;
        self.resolve()?;
        self.minimize()?;
        self.put_hints(self.false_id(found))
    }

    // Gives the literals of the false clause their parts.
    fn meet_false(&mut self, found: False) -> Result<(), NoMemory> {
        match found {
            False::Empty(_) => Ok(()),
            False::Unit(code, _) => self.meet(code),
            False::Pair(one, other, _) => {
                self.meet(one)?;
                self.meet(other)
            }
            False::Clause(place) => self.meet_long(place),
        }
    }

    // Resolves the literals of the open level away, the last of the trail first, but for the one that is
    // left. At level 0 none is.
    fn resolve(&mut self) -> Result<(), NoMemory> {
        for place in (0..self.assigned.count()).rev() {
            if self.analysis.open == 0 {
                break;
            }
            let code = self.assigned.literal(place);
            if !matches!(self.analysis.mark_of(var_of(code)), Mark::Seen) {
                continue;
            }
            self.analysis.open = self.analysis.open.saturating_sub(1);
            if self.analysis.open == 0 {
                put(&mut self.analysis.literals, 0, negated(code));
                return Ok(());
            }
            self.analysis.chain.push(place)?;
            self.meet_reason(code)?;
        }
        self.analysis.literals.clear();
        Ok(())
    }

    // Gives the literals of a true literal's reason their parts.
    fn meet_reason(&mut self, code: u32) -> Result<(), NoMemory> {
        match self.assigned.fact(var_of(code)).reason {
            Reason::Decision | Reason::Unit(_) => Ok(()),
            Reason::Pair(other, _) => self.meet(other),
            Reason::Clause(place) => self.meet_long(place),
        }
    }

    // Gives a literal its part.
    fn meet(&mut self, code: u32) -> Result<(), NoMemory> {
        let fact = self.assigned.fact(var_of(code));
        self.analysis.meet(code, fact, self.assigned.level())
    }

    // Gives the literals of a longer clause their parts, and notes that it was used.
    fn meet_long(&mut self, place: u32) -> Result<(), NoMemory> {
        self.note_use(place);
        meet_clause(&self.arena, &self.assigned, &mut self.analysis, place)
    }

    // Puts the hints together.
    fn put_hints(&mut self, last: u32) -> Result<(), NoMemory> {
        for k in 0..place_of(self.analysis.roots.len()) {
            let id = at(&self.units, at(&self.analysis.roots, k, 0), 0);
            self.analysis.hints.push(id)?;
        }
        self.analysis.chain.sort_unstable();
        for k in 0..place_of(self.analysis.chain.len()) {
            let code = self.assigned.literal(at(&self.analysis.chain, k, 0));
            let id = self.reason_id(self.assigned.fact(var_of(code)).reason);
            self.analysis.hints.push(id)?;
        }
        self.analysis.hints.push(last)?;
        Ok(())
    }
}
