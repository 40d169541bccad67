//! What is assigned: the value of each literal, the trail of literals in the order in which they became
//! true, where each level begins on it, and of each variable its level, its reason and its place on the
//! trail. The phases remember the last value of each variable, which is what a decision gives it again
//! (phase saving after Pipatsrisawat and Darwiche, 2007).

use crate::codes::{is_positive, negated, var_of};
use crate::table::{at, place_of, put};
use bx_logic::NoMemory;
use std::alloc::Global;

/// The value of a literal.
#[derive(Clone, Copy)]
pub(crate) enum Value {
    /// Its variable has no value.
    Free,
    /// It is true.
    True,
    /// It is false.
    False,
}

/// Why a literal is true.
#[derive(Clone, Copy)]
pub(crate) enum Reason {
    /// It was decided, or isn't true at all.
    Decision,
    /// A clause of this literal alone, with this id.
    Unit(u32),
    /// A clause of this literal and another one, and its id.
    Pair(u32, u32),
    /// The longer clause at this place.
    Clause(u32),
}

/// What is known of a variable that has a value.
#[derive(Clone, Copy)]
pub(crate) struct Fact {
    pub(crate) level: u32,
    pub(crate) place: u32,
    pub(crate) reason: Reason,
}

/// What is read where there is no such variable.
const NO_FACT: Fact = Fact {
    level: 0,
    place: 0,
    reason: Reason::Decision,
};

/// A change of all phases.
#[derive(Clone, Copy)]
pub(crate) enum Change {
    /// To the values of the longest trail without a conflict.
    Best,
    /// To one value.
    All(bool),
    /// Each to the other value.
    Flip,
}

/// The literals that are true.
#[derive(Drop)]
pub(crate) struct Assigned {
    // by code
    values: Vec<Value>,
    trail: Vec<u32>,
    // where each level above 0 begins on the trail
    begins: Vec<u32>,
    // how many literals of the trail were propagated
    head: u32,
    // by variable
    facts: Vec<Fact>,
    // by variable: its last value, and its value on the longest trail without a conflict since the phases
    // were changed
    phases: Vec<bool>,
    best: Vec<bool>,
    best_size: u32,
}

impl Assigned {
    /// No variable of these has a value. A variable that had none yet is decided to be false.
    pub(crate) fn new(alloc: Global, vars: u32) -> Result<Self, NoMemory> {
        let codes = vars as usize * 2 + 2;
        Ok(Assigned {
            values: vec![in alloc; Value::Free; codes]?,
            trail: Vec::with_capacity(alloc, vars as usize)?,
            begins: Vec::new(alloc),
            head: 0,
            facts: vec![in alloc; NO_FACT; vars as usize + 1]?,
            phases: vec![in alloc; false; vars as usize + 1]?,
            best: vec![in alloc; false; vars as usize + 1]?,
            best_size: 0,
        })
    }

    /// The values, by code.
    pub(crate) fn values(&self) -> &[Value] {
        &self.values
    }

    /// Whether a variable has no value.
    pub(crate) fn is_free(&self, var: u32) -> bool {
        matches!(
            at(&self.values, var.wrapping_mul(2), Value::True),
            Value::Free
        )
    }

    /// The value of a literal.
    pub(crate) fn value(&self, code: u32) -> Value {
        at(&self.values, code, Value::Free)
    }

    /// What is known of a variable.
    pub(crate) fn fact(&self, var: u32) -> Fact {
        at(&self.facts, var, NO_FACT)
    }

    /// The level that is open.
    pub(crate) fn level(&self) -> u32 {
        place_of(self.begins.len())
    }

    /// How many literals are true.
    pub(crate) fn count(&self) -> u32 {
        place_of(self.trail.len())
    }

    /// The literal at a place of the trail.
    pub(crate) fn literal(&self, place: u32) -> u32 {
        at(&self.trail, place, 0)
    }

    /// The value that a variable had last.
    pub(crate) fn phase(&self, var: u32) -> bool {
        at(&self.phases, var, false)
    }

    /// Notes the values of the levels below the open one, of which no clause was false, where they are the
    /// most so far.
    pub(crate) fn note_best(&mut self) {
        let size = at(&self.begins, self.level().saturating_sub(1), 0);
        if size > self.best_size {
            self.best_size = size;
            for k in 0..size {
                let code = self.literal(k);
                put(&mut self.best, var_of(code), is_positive(code));
            }
        }
    }

    /// Changes the phases: to the best ones, or to one value for all, or each to the other one.
    pub(crate) fn rephase(&mut self, change: Change) {
        for k in 0..place_of(self.phases.len()) {
            let phase = match change {
                Change::Best => at(&self.best, k, false),
                Change::All(value) => value,
                Change::Flip => !at(&self.phases, k, false),
            };
            put(&mut self.phases, k, phase);
        }
        self.best_size = 0;
    }

    /// Opens a level.
    pub(crate) fn open(&mut self) -> Result<(), NoMemory> {
        self.begins.push(place_of(self.trail.len()))?;
        Ok(())
    }

    /// Makes a literal true.
    pub(crate) fn assign(&mut self, code: u32, reason: Reason) -> Result<(), NoMemory> {
        let fact = Fact {
            level: self.level(),
            place: self.count(),
            reason,
        };
        put(&mut self.values, code, Value::True);
        put(&mut self.values, negated(code), Value::False);
        put(&mut self.facts, var_of(code), fact);
        put(&mut self.phases, var_of(code), is_positive(code));
        self.trail.push(code)?;
        Ok(())
    }

    /// The next literal that is to be propagated.
    pub(crate) fn next(&mut self) -> Option<u32> {
        let code = *self.trail.get(self.head as usize)?;
        self.head = self.head.saturating_add(1);
        Some(code)
    }

    /// Takes the last literal off, where it stands above a level, and gives its variable.
    pub(crate) fn free_above(&mut self, level: u32) -> Option<u32> {
        let begin = at(&self.begins, level, u32::MAX);
        if self.count() <= begin {
            return None;
        }
        let code = self.trail.pop()?;
        put(&mut self.values, code, Value::Free);
        put(&mut self.values, negated(code), Value::Free);
        Some(var_of(code))
    }

    /// Closes the levels above one, whose literals are taken off.
    pub(crate) fn close_above(&mut self, level: u32) {
        self.begins.truncate(level as usize);
        self.head = self.head.min(self.count());
    }

    /// Moves the place of the clause that is a variable's reason.
    pub(crate) fn move_reason(&mut self, var: u32, place: u32) {
        let mut fact = self.fact(var);
        fact.reason = Reason::Clause(place);
        put(&mut self.facts, var, fact);
    }

    /// The values of all variables, variable 1 first.
    pub(crate) fn bits(&self, alloc: Global, vars: u32) -> Result<Vec<bool>, NoMemory> {
        let mut bits = Vec::with_capacity(alloc, vars as usize)?;
        for k in 0..vars {
            let own = (k + 1).wrapping_mul(2);
            bits.push(matches!(self.value(own), Value::True))?;
        }
        Ok(bits)
    }
}
