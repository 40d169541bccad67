//! The variables that are marked in a conflict. It counts them, and of them those of the current level, so
//! that the walk over the trail knows where to stop; which variables are marked is for conflict analysis
//! to say.
ghost use Rattle.std.specs.Prelude.{◌≡◌, ◌+◌, ◌-◌, ◌<◌, ◌≤◌, ◌^◌, ◌↔◌, ◌||◌, ◌&&◌, ◌==◌, ℕ, List, map, true, All, IsTrue, IfOk, length};
ghost use Rattle.bx_watch.specs.Watching.{IsOver};
ghost use Rattle.bx_search.specs.States.{is_assigned};
ghost use Rattle.bx_search.specs.Marks.{unmarked, has_mark, with_mark, without_mark, with_marks};

use crate::trail::Trail;
use bx_cnf::Lit;
use bx_logic::NoMemory;
use std::alloc::Global;
use std::marker::Model;

/// Variables that are marked. Contracts see a mark for each variable and the two counts.
#[derive(Drop)]
pub(crate) struct Marks {
    marked: Vec<bool>,
    left: usize,
    here: usize,
}

impl Model for Marks {
    ghost use Rattle.bx_search.specs.Marks.{Marking};

    ghost Value = { Marking };

    ghost view = { λ m. record { marked = m.marked.items; left = m.left; here = m.here } };
}

impl Marks {
    /// None of so many variables is marked.
    pub(crate) fn new(alloc: Global, vars: u32) -> Result<Self, NoMemory>
        ensures { IfOk result (λ m. m ≡ unmarked vars) }
    {
        Ok(Marks {
            marked: vec![in alloc; false; vars as usize]?,
            left: 0,
            here: 0,
        })
    }

    /// Whether none is marked.
    pub(crate) fn is_empty(&self) -> bool
        ensures { IsTrue result ↔ (self.now.left ≡ 0) }
    {
        self.left == 0
    }

    /// Whether more than one is marked whose literal is of the current level.
    pub(crate) fn has_more_here(&self) -> bool
        ensures { IsTrue result ↔ (1 < self.now.here) }
    {
        self.here > 1
    }

    /// Whether a variable is marked.
    pub(crate) fn has(&self, var: u32) -> bool
        requires above { 0 < var }
        requires within { var ≤ length self.now.marked }
        ensures { result ≡ has_mark self.now var }
    {
        self.marked[var as usize - 1]
    }

    /// Marks the variables of a clause, which are assigned.
    pub(crate) fn mark_all(&mut self, clause: &[Lit], trail: &Trail)
        requires sized { length self.old.marked ≡ trail.now.vars }
        requires assigned { All (λ l. is_assigned trail.now.entries l.var ≡ true) clause.now }
        requires left_small { self.old.left < 2 ^ 32 }
        requires here_small { self.old.here < 2 ^ 32 }
        ensures { self.new ≡ with_marks trail.now.entries (map (λ l. l.var) clause.now) self.old }
    {
        let current = trail.level();
        for lit in clause {
            let var = lit.var();
            let here = trail.level_of(var) == current;
            self.mark(var, here);
        }
    }

    // Marks a variable, which is of the current level or not.
    fn mark(&mut self, var: u32, here: bool)
        requires above { 0 < var }
        requires within { var ≤ length self.old.marked }
        requires left_small { self.old.left < 2 ^ 63 }
        requires here_small { self.old.here < 2 ^ 63 }
        ensures { self.new ≡ with_mark var here self.old }
    {
        if self.has(var) {
            return;
        }
        self.marked[var as usize - 1] = true;
        self.left += 1;
        if here {
            self.here += 1;
        }
    }

    /// Takes the mark from a variable, which is of the current level or not.
    pub(crate) fn unmark(&mut self, var: u32, here: bool)
        requires above { 0 < var }
        requires within { var ≤ length self.old.marked }
        requires some { 0 < self.old.left }
        requires some_here { here ≡ true → 0 < self.old.here }
        ensures { self.new ≡ without_mark var here self.old }
    {
        self.marked[var as usize - 1] = false;
        self.left -= 1;
        if here {
            self.here -= 1;
        }
    }
}
