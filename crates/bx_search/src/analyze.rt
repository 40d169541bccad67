//! Conflict analysis: the clause that is learned from a false one, and why it follows (after the first
//! unique implication point of Marques-Silva and Sakallah, 1996, without the literals of level 0). It
//! walks the trail from its end and touches each literal once. The marks and the lists are made once,
//! and no variable is marked after a call, so a conflict takes no memory once the lists have grown.
ghost use Rattle.std.specs.Prelude.{◌≡◌, ◌++◌, ◌∷◌, [], ◌+◌, ◌-◌, ◌<◌, ◌≤◌, ◌↔◌, ℕ, true, List, Some, All, Contains, IfOk, OnOk, length, map, reverse, slice_get, option_to_list};
ghost use Rattle.bx_cnf.specs.Literals.{Literal};
ghost use Rattle.bx_cnf.specs.Formulas.{AscendAbove};
ghost use Rattle.bx_proof.specs.Accepted.{with_steps};
ghost use Rattle.bx_watch.specs.Watching.{IsOver, AreApart, IsLeastActive};
ghost use Rattle.bx_watch.specs.declared.active.Active.TheVariants.{False};
ghost use Rattle.bx_search.specs.States.{literals_of, current_level, is_assigned};
ghost use Rattle.bx_search.specs.Learning.{IsLearned, reason_variables};
ghost use Rattle.bx_search.specs.Searching.{levels_from};
ghost use Rattle.bx_search.specs.Solving.{Reaches};
ghost use Rattle.bx_search.specs.Marks.{unmarked, has_mark, with_marks, replaces, replaced, kept, passed, IsTreatable};

use crate::marks::Marks;
use crate::trail::{Entry, Trail};
use bx_cnf::{Clauses, Lit};
use bx_logic::NoMemory;
use bx_proof::Steps;
use std::alloc::Global;

/// What conflict analysis works with, and what it learned last.
#[derive(Drop)]
pub(crate) struct Analysis {
    // none between two calls
    marks: Marks,
    /// What was learned, ascending by variable.
    pub(crate) literals: Vec<Lit>,
    /// The numbers of the clauses from which it follows.
    pub(crate) hints: Vec<u32>,
    /// The levels of the literals that were kept, in the order of the walk.
    pub(crate) levels: Vec<u32>,
}

impl Analysis {
    /// For a formula of so many variables. Nothing is learned yet.
    ///
    /// # Errors
    ///
    /// `NoMemory`.
    pub(crate) fn new(alloc: Global, vars: u32) -> Result<Self, NoMemory>
        ensures { IfOk result (λ a. a.marks ≡ unmarked vars) }
    {
        Ok(Analysis {
            marks: Marks::new(alloc, vars)?,
            literals: Vec::new(alloc),
            hints: Vec::new(alloc),
            levels: Vec::new(alloc),
        })
    }

    /// Learns from the clause of this number, which is false.
    ///
    /// # Errors
    ///
    /// `NoMemory`, and then this value is only to be dropped.
    pub(crate) fn learn(
        &mut self,
        clauses: &Clauses,
        steps: &Steps,
        trail: &Trail,
        id: u32,
    ) -> Result<(), NoMemory>
        requires unmarked { self.old.marks ≡ unmarked clauses.now.vars }
        requires vars { trail.now.vars ≡ clauses.now.vars }
        requires numbered { 0 < length steps.now.steps
            → steps.now.first ≡ length clauses.now.clauses + 1 }
        requires reached { Reaches clauses.now trail.now.entries steps.now.steps }
        requires fails { IsLeastActive (record {
          vars = clauses.now.vars;
          clauses = with_steps clauses.now.clauses steps.now.steps;
          trail = literals_of trail.now.entries;
        }) (False id) }
        ensures learned { OnOk result (IsLearned
            (with_steps clauses.now.clauses steps.now.steps) trail.now.entries id
            (record { literals = self.new.literals.items; hints = self.new.hints.items })) }
        ensures levels { OnOk result (self.new.levels.items
            ≡ levels_from (with_steps clauses.now.clauses steps.now.steps) trail.now.entries id) }
        ensures unmarked { OnOk result (self.new.marks ≡ self.old.marks) }
    {
        self.begin(clause_of(clauses, steps, id), trail, id)?;
        let mut place = trail.len();
        while !self.marks.is_empty() {
            place -= 1;
            self.pass(clauses, steps, trail, trail.entry(place))?;
        }
        self.finish();
        Ok(())
    }

    // Marks the variables of the false clause, which is the last of the hints.
    fn begin(&mut self, clause: &[Lit], trail: &Trail, id: u32) -> Result<(), NoMemory>
        requires unmarked { self.old.marks ≡ unmarked trail.now.vars }
        requires assigned { All (λ l. is_assigned trail.now.entries l.var ≡ true) clause.now }
        ensures marks { OnOk result (self.new.marks
            ≡ with_marks trail.now.entries (map (λ l. l.var) clause.now) self.old.marks) }
        ensures literals { OnOk result (self.new.literals.items ≡ []) }
        ensures levels { OnOk result (self.new.levels.items ≡ []) }
        ensures hints { OnOk result (self.new.hints.items ≡ id ∷ []) }
    {
        self.literals.clear();
        self.levels.clear();
        self.hints.clear();
        self.hints.push(id)?;
        self.marks.mark_all(clause, trail);
        Ok(())
    }

    // Passes a literal of the trail: where it is marked, it is replaced or kept.
    fn pass(
        &mut self,
        clauses: &Clauses,
        steps: &Steps,
        trail: &Trail,
        entry: Entry,
    ) -> Result<(), NoMemory>
        requires { IsTreatable (with_steps clauses.now.clauses steps.now.steps) trail.now
            self.old.marks entry }
        ensures { OnOk result (record {
          marks = self.new.marks;
          literals = self.new.literals.items;
          levels = self.new.levels.items;
          hints = self.new.hints.items;
        } ≡ passed (with_steps clauses.now.clauses steps.now.steps) trail.now.entries entry
            (record {
              marks = self.old.marks;
              literals = self.old.literals.items;
              levels = self.old.levels.items;
              hints = self.old.hints.items;
            })) }
    {
        if !self.marks.has(entry.lit().var()) {
            return Ok(());
        }
        if self.replaces(entry, trail.level()) {
            self.replace(clauses, steps, trail, entry)
        } else {
            self.keep(trail, entry)
        }
    }

    // Whether a marked literal is replaced.
    fn replaces(&self, entry: Entry, current: u32) -> bool
        ensures { result ≡ replaces current self.now.marks entry }
    {
        entry.level() == 0 || entry.level() == current && self.marks.has_more_here()
    }

    // A literal is replaced by the others of its reason, which is a hint.
    fn replace(
        &mut self,
        clauses: &Clauses,
        steps: &Steps,
        trail: &Trail,
        entry: Entry,
    ) -> Result<(), NoMemory>
        requires treatable { IsTreatable (with_steps clauses.now.clauses steps.now.steps) trail.now
            self.old.marks entry }
        requires marked { has_mark self.old.marks entry.literal.var ≡ true }
        ensures { OnOk result (record {
          marks = self.new.marks;
          literals = self.new.literals.items;
          levels = self.new.levels.items;
          hints = self.new.hints.items;
        } ≡ replaced (with_steps clauses.now.clauses steps.now.steps) trail.now.entries entry
            (record {
              marks = self.old.marks;
              literals = self.old.literals.items;
              levels = self.old.levels.items;
              hints = self.old.hints.items;
            })) }
    {
        self.add_reason(clauses, steps, trail, entry)?;
        self.marks
            .unmark(entry.lit().var(), entry.level() == trail.level());
        Ok(())
    }

    // The reason of a literal is a hint, and its variables are marked. A decision has none.
    fn add_reason(
        &mut self,
        clauses: &Clauses,
        steps: &Steps,
        trail: &Trail,
        entry: Entry,
    ) -> Result<(), NoMemory>
        requires { IsTreatable (with_steps clauses.now.clauses steps.now.steps) trail.now
            self.old.marks entry }
        ensures marks { OnOk result (self.new.marks ≡ with_marks trail.now.entries
            (reason_variables (with_steps clauses.now.clauses steps.now.steps) entry.reason)
            self.old.marks) }
        ensures hints { OnOk result (self.new.hints.items
            ≡ self.old.hints.items ++ option_to_list entry.reason) }
        ensures literals { OnOk result (self.new.literals.items ≡ self.old.literals.items) }
        ensures levels { OnOk result (self.new.levels.items ≡ self.old.levels.items) }
    {
        if let Some(id) = entry.reason() {
            self.hints.push(id)?;
            self.marks.mark_all(clause_of(clauses, steps, id), trail);
        }
        Ok(())
    }

    // A literal is kept, negated.
    fn keep(&mut self, trail: &Trail, entry: Entry) -> Result<(), NoMemory>
        requires over { IsOver (length self.old.marks.marked) entry.literal }
        requires some { 0 < self.old.marks.left }
        requires some_here { entry.level ≡ current_level trail.now.entries
            → 0 < self.old.marks.here }
        ensures { OnOk result (record {
          marks = self.new.marks;
          literals = self.new.literals.items;
          levels = self.new.levels.items;
          hints = self.new.hints.items;
        } ≡ kept trail.now.entries entry (record {
          marks = self.old.marks;
          literals = self.old.literals.items;
          levels = self.old.levels.items;
          hints = self.old.hints.items;
        })) }
    {
        self.literals.push(!entry.lit())?;
        self.levels.push(entry.level())?;
        self.marks
            .unmark(entry.lit().var(), entry.level() == trail.level());
        Ok(())
    }

    // Puts what was found in order: the hints as they stand on the trail, the literals by their variables.
    fn finish(&mut self)
        requires above { All (λ l. 0 < l.var) self.old.literals.items }
        requires apart { AreApart self.old.literals.items }
        ensures ascending { AscendAbove 0 self.new.literals.items }
        ensures same { (l : Literal)
            → Contains self.new.literals.items l ↔ Contains self.old.literals.items l }
        ensures hints { self.new.hints.items ≡ reverse self.old.hints.items }
        ensures levels { self.new.levels.items ≡ self.old.levels.items }
        ensures marks { self.new.marks ≡ self.old.marks }
    {
        self.hints.reverse();
        self.literals.sort_unstable_by_key(|lit| lit.var());
    }
}

// The clause of a number: one of the formula's, or behind them one that was learned.
fn clause_of<'a>(clauses: &'a Clauses, steps: &'a Steps, id: u32) -> &'a [Lit]
    requires above { 0 < id }
    requires within { id ≤ length (with_steps clauses.now.clauses steps.now.steps) }
    ensures { slice_get (with_steps clauses.now.clauses steps.now.steps) (id - 1)
        ≡ Some result.now }
{
    let own = clauses.len();
    if id <= own {
        clauses.clause(id)
    } else {
        steps.literals(id - own - 1)
    }
}
