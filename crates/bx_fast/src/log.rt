//! The log of what was learned. It knows which id comes next, and refuses a step that makes none.

use crate::codes::literal_of;
use bx_cnf::Lit;
use bx_logic::NoMemory;
use bx_proof::{Steps, is_step};
use std::alloc::Global;
use std::mem;

/// The steps so far.
#[derive(Drop)]
pub(crate) struct Log {
    steps: Steps,
    // the literals of the step that is added
    literals: Vec<Lit>,
}

impl Log {
    /// No steps; the first will have this id.
    pub(crate) fn new(alloc: Global, first: u32) -> Self {
        Log {
            steps: Steps::new(alloc, first),
            literals: Vec::new(alloc),
        }
    }

    /// Adds a step, whose codes ascend, and gives its id. None where it can't be a step, as there is no
    /// id left.
    pub(crate) fn add(&mut self, codes: &[u32], hints: &[u32]) -> Result<Option<u32>, NoMemory> {
        self.literals.clear();
        for code in codes {
            self.literals.push(literal_of(*code))?;
        }
        let id = u64::from(self.steps.first()) + u64::from(self.steps.len());
        if !is_step(id, &self.literals, hints) {
            return Ok(None);
        }
        self.steps.push(&self.literals, hints)?;
        Ok(u32::try_from(id).ok())
    }

    /// Takes the steps out.
    pub(crate) fn take(&mut self, alloc: Global) -> Steps {
        mem::replace(&mut self.steps, Steps::new(alloc, 1))
    }
}
