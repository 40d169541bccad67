//! Decisions: which variable gets a value next, and which value. What had a part in the last conflicts
//! comes first, and a variable gets the value that it had last.

use crate::assigned::Reason;
use crate::codes::code_from;
use crate::solver::Solver;
use crate::table::{at, place_of};
use bx_logic::NoMemory;

impl Solver {
    /// Decides a free variable, and says whether there was one.
    pub(crate) fn decide(&mut self) -> Result<bool, NoMemory> {
        let Some(var) = self.pick() else {
            return Ok(false);
        };
        let phase = self.assigned.phase(var);
        self.assigned.open()?;
        self.assigned
            .assign(code_from(var, phase), Reason::Decision)?;
        Ok(true)
    }

    // The free variable that is decided next.
    fn pick(&mut self) -> Option<u32> {
        if self.pace.is_stable() {
            self.pick_by_score()
        } else {
            self.pick_by_queue()
        }
    }

    // The free variable that stands furthest behind in the queue.
    fn pick_by_queue(&mut self) -> Option<u32> {
        for _ in 0..=self.vars {
            let var = self.queue.place();
            if var == 0 {
                return None;
            }
            if self.assigned.is_free(var) {
                return Some(var);
            }
            self.queue.step();
        }
        None
    }

    // The free variable of the highest score.
    fn pick_by_score(&mut self) -> Option<u32> {
        for _ in 0..=self.vars {
            let var = self.scores.first()?;
            if self.assigned.is_free(var) {
                return Some(var);
            }
            self.scores.drop_first();
        }
        None
    }

    /// A variable became free.
    pub(crate) fn freed(&mut self, var: u32) -> Result<(), NoMemory> {
        self.queue.freed(var);
        self.scores.freed(var)
    }

    /// Brings the variables that had a part in a conflict forward.
    pub(crate) fn bump(&mut self) -> Result<(), NoMemory> {
        if self.pace.is_stable() {
            self.bump_scores();
            return Ok(());
        }
        self.bump_queue()
    }

    // Raises the scores of the variables that had a part.
    fn bump_scores(&mut self) {
        for k in 0..place_of(self.analysis.marked.len()) {
            self.scores.bump(at(&self.analysis.marked, k, 0));
        }
        self.scores.grow();
    }

    // Moves the variables that had a part behind all others, in the order in which they stood: so those
    // that were found together stay together.
    fn bump_queue(&mut self) -> Result<(), NoMemory> {
        self.analysis.keys.clear();
        for k in 0..place_of(self.analysis.marked.len()) {
            let key = self.queue.key(at(&self.analysis.marked, k, 0));
            self.analysis.keys.push(key)?;
        }
        self.analysis.keys.sort_unstable();
        for k in 0..place_of(self.analysis.keys.len()) {
            let var = (at(&self.analysis.keys, k, 0) & 0x7fff_ffff) as u32;
            self.queue.bump(var, self.assigned.is_free(var));
        }
        Ok(())
    }
}
