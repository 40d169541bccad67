//! What is assigned, in the order in which it was: each literal with its level and its reason. A table
//! has the level of each variable that is assigned, so that it is found without a walk. Which literals
//! are assigned, and when they are taken off, is for the solver to say.
ghost use Rattle.std.specs.Prelude.{◌≡◌, ◌++◌, ◌∷◌, [], ℕ, ◌+◌, ◌-◌, ◌<◌, ◌≤◌, ◌^◌, Some, None, List, IfOk, OnOk, length, slice_get, Contains};
ghost use Rattle.bx_cnf.specs.Assignments.{IsFree};
ghost use Rattle.bx_watch.specs.Watching.{IsOver};
ghost use Rattle.bx_search.specs.States.{Assigned, literals_of, current_level, values};
ghost use Rattle.bx_search.specs.Trails.{IsAssignment};

use bx_cnf::Lit;
use bx_logic::NoMemory;
use std::alloc::Global;
use std::marker::Model;

/// A literal that is assigned, its level, and the number of the clause that is its reason, none of a
/// decision.
#[derive(Clone, Copy)]
pub(crate) struct Entry {
    lit: Lit,
    level: u32,
    reason: Option<u32>,
}

impl Model for Entry {
    ghost use Rattle.bx_search.specs.States.{Assigned};

    ghost Value = { Assigned };

    ghost view = { λ e. record { literal = e.lit; level = e.level; reason = e.reason } };

    ghost inverse = { λ a. record { lit = a.literal; level = a.level; reason = a.reason } };
}

impl Entry {
    /// The literal, which is true.
    pub(crate) fn lit(self) -> Lit
        ensures { result ≡ self.literal }
    {
        self.lit
    }

    /// The level.
    pub(crate) fn level(self) -> u32
        ensures { result ≡ self.level }
    {
        self.level
    }

    /// The number of its reason.
    pub(crate) fn reason(self) -> Option<u32>
        ensures { result ≡ self.reason }
    {
        self.reason
    }
}

/// The literals that are assigned. Contracts see the number of variables and the list of them.
#[derive(Drop)]
pub(crate) struct Trail {
    entries: Vec<Entry>,
    // of each variable, variable 1 first; that of a free one means nothing
    levels: Vec<u32>,
}

impl Model for Trail {
    ghost use Rattle.std.specs.Prelude.{length};
    ghost use Rattle.bx_search.specs.Trails.{Assignment, IsAssignment, AreLevels};

    ghost Value = { Assignment };

    ghost view = { λ t. record { vars = length t.levels.items; entries = t.entries.items } };

    ghost invariant = { λ t.
        IsAssignment (record { vars = length t.levels.items; entries = t.entries.items })
        × AreLevels t.levels.items t.entries.items };
}

impl Trail {
    /// No variable of so many is assigned.
    pub(crate) fn new(alloc: Global, vars: u32) -> Result<Self, NoMemory>
        requires { vars < 2 ^ 31 }
        ensures { IfOk result (λ t. t ≡ record { vars = vars; entries = [] }) }
    {
        Ok(Trail {
            entries: Vec::with_capacity(alloc, vars as usize)?,
            levels: vec![in alloc; 0; vars as usize]?,
        })
    }

    /// How many literals are assigned.
    pub(crate) fn len(&self) -> usize
        ensures count { result ≡ length self.now.entries }
        ensures formed { IsAssignment self.now }
    {
        self.entries.len()
    }

    /// What was assigned at this place, counted from 0.
    pub(crate) fn entry(&self, place: usize) -> Entry
        requires { place < length self.now.entries }
        ensures value { slice_get self.now.entries place ≡ Some result }
        ensures over { IsOver self.now.vars result.literal }
    {
        self.entries[place]
    }

    /// The current level: that of the last literal, and 0 where none is assigned.
    pub(crate) fn level(&self) -> u32
        ensures level { result ≡ current_level self.now.entries }
        ensures formed { IsAssignment self.now }
    {
        match self.entries.last() {
            Some(last) => last.level,
            None => 0,
        }
    }

    /// The level of a variable that is assigned.
    pub(crate) fn level_of(&self, var: u32) -> u32
        requires above { 0 < var }
        requires within { var ≤ self.now.vars }
        ensures { (a : Assigned) → Contains self.now.entries a → a.literal.var ≡ var
            → result ≡ a.level }
    {
        self.levels[var as usize - 1]
    }

    /// Assigns a literal at the current level, for which the clause of this number is the reason.
    ///
    /// # Errors
    ///
    /// `NoMemory`, and the trail is then as before.
    pub(crate) fn push_unit(&mut self, lit: Lit, reason: u32) -> Result<(), NoMemory>
        requires over { IsOver self.old.vars lit }
        requires is_free { IsFree (literals_of self.old.entries) lit }
        ensures { OnOk result (self.new ≡ record self.old {
          entries = self.old.entries
              ++ record {
                literal = lit;
                level = current_level self.old.entries;
                reason = Some reason;
              } ∷ [];
        }) }
    {
        let level = self.level();
        self.push(Entry {
            lit,
            level,
            reason: Some(reason),
        })
    }

    /// Assigns a literal one level higher, as a decision.
    ///
    /// # Errors
    ///
    /// `NoMemory`, and the trail is then as before.
    pub(crate) fn push_decision(&mut self, lit: Lit) -> Result<(), NoMemory>
        requires over { IsOver self.old.vars lit }
        requires is_free { IsFree (literals_of self.old.entries) lit }
        requires room { length self.old.entries < self.old.vars }
        ensures { OnOk result (self.new ≡ record self.old {
          entries = self.old.entries
              ++ record {
                literal = lit;
                level = current_level self.old.entries + 1;
                reason = None;
              } ∷ [];
        }) }
    {
        let level = self.level() + 1;
        self.push(Entry {
            lit,
            level,
            reason: None,
        })
    }

    // Assigns what may follow.
    fn push(&mut self, entry: Entry) -> Result<(), NoMemory>
        requires over { IsOver self.old.vars entry.literal }
        requires is_free { IsFree (literals_of self.old.entries) entry.literal }
        requires low { current_level self.old.entries ≤ entry.level }
        requires high { entry.level ≤ current_level self.old.entries + 1 }
        ensures { OnOk result (self.new
            ≡ record self.old { entries = self.old.entries ++ entry ∷ [] }) }
    {
        self.entries.push(entry)?;
        self.levels[entry.lit.var() as usize - 1] = entry.level;
        Ok(())
    }

    /// Takes the last literal off.
    pub(crate) fn pop(&mut self) -> Lit
        requires { 0 < length self.old.entries }
        ensures { (last : Assigned) × (last.literal ≡ result)
            × (self.old ≡ record self.new { entries = self.new.entries ++ last ∷ [] }) }
    {
        let last = self.entries.pop().unwrap();
        last.lit
    }

    /// The values of the variables, variable 1 first. One that is free is false.
    ///
    /// # Errors
    ///
    /// `NoMemory`.
    pub(crate) fn values(&self, alloc: Global) -> Result<Vec<bool>, NoMemory>
        ensures { IfOk result (λ bits. bits.items ≡ values self.now.vars self.now.entries) }
    {
        let mut bits = vec![in alloc; false; self.levels.len()]?;
        for entry in &self.entries {
            bits[entry.lit.var() as usize - 1] = entry.lit.is_positive();
        }
        Ok(bits)
    }
}
