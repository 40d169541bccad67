//! Going back: all literals above a level are taken off the trail, the last first, and their variables
//! are free again.
ghost use Rattle.std.specs.Prelude.{◌≡◌, ◌++◌, ◌∷◌, [], ◌<◌, max, OnOk, length};
ghost use Rattle.bx_search.specs.States.{Assigned};
ghost use Rattle.bx_search.specs.Trails.{IsAssignment};
ghost use Rattle.bx_search.specs.Learning.{highest, second_highest};
ghost use Rattle.bx_search.specs.Searching.{up_to};
ghost use Rattle.bx_search.specs.Solving.{IsSolver, state_of, Becomes};

use crate::solver::Solver;
use bx_logic::NoMemory;

impl Solver<'_> {
    /// Takes all literals above this level off the trail.
    ///
    /// # Errors
    ///
    /// `NoMemory`, and then this value is only to be dropped.
    pub(crate) fn backtrack(&mut self, level: u32) -> Result<(), NoMemory>
        requires { IsSolver self.old }
        ensures { OnOk result (Becomes self.old self.new (record (state_of self.old) {
          trail = up_to level self.old.trail.entries;
        })) }
    {
        while self.trail.level() > level {
            self.free_last()?;
        }
        Ok(())
    }

    // Takes the last literal off.
    fn free_last(&mut self) -> Result<(), NoMemory>
        requires agrees { IsSolver self.old }
        requires formed { IsAssignment self.old.trail }
        requires some { 0 < length self.old.trail.entries }
        ensures { OnOk result ((last : Assigned)
            × (self.old.trail.entries ≡ self.new.trail.entries ++ last ∷ [])
            × Becomes self.old self.new (record (state_of self.old) {
              trail = self.new.trail.entries;
            })) }
    {
        let lit = self.trail.pop();
        self.queue.freed(lit.var());
        self.watched.freed(lit.var())
    }
}

/// The second-highest of levels, and 0 where there is but one.
pub(crate) fn second_highest(levels: &[u32]) -> u32
    ensures { result ≡ second_highest levels.now }
{
    let top = highest(levels);
    let mut second = 0;
    for level in levels {
        if *level < top {
            second = larger(second, *level);
        }
    }
    second
}

// The highest of levels, and 0 where there is none.
fn highest(levels: &[u32]) -> u32
    ensures { result ≡ highest levels.now }
{
    let mut top = 0;
    for level in levels {
        top = larger(top, *level);
    }
    top
}

// The larger of two levels.
fn larger(one: u32, other: u32) -> u32
    ensures { result ≡ max one other }
{
    if one < other { other } else { one }
}
