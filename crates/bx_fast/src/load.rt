//! How a formula comes into the solver: clauses of one literal onto the trail, those of two into the
//! watches, longer ones into the arena.

use crate::assigned::{Reason, Value};
use crate::codes::code_of;
use crate::solver::{False, Solver};
use crate::table::at;
use bx_cnf::{Clauses, Lit};
use bx_logic::NoMemory;
use std::alloc::Global;

impl Solver {
    /// The solver of a formula.
    pub(crate) fn of(alloc: Global, clauses: &Clauses) -> Result<Self, NoMemory> {
        let first = clauses.len().wrapping_add(1);
        let mut solver = Solver::new(alloc, clauses.vars(), first)?;
        let mut codes = Vec::new(alloc);
        for k in 0..clauses.len() {
            put_codes(&mut codes, clauses.clause(k + 1))?;
            solver.load(&codes, k + 1)?;
        }
        // an id that no log has room for
        solver.is_over = first == 0;
        Ok(solver)
    }

    // Takes a clause in.
    fn load(&mut self, codes: &[u32], id: u32) -> Result<(), NoMemory> {
        if codes.len() < 2 {
            return self.load_short(codes, id);
        }
        self.attach(codes, id, 0)?;
        Ok(())
    }

    // Takes a clause of no literals or of one in.
    fn load_short(&mut self, codes: &[u32], id: u32) -> Result<(), NoMemory> {
        if codes.is_empty() {
            self.refuted = Some(False::Empty(id));
            return Ok(());
        }
        let code = at(codes, 0, 0);
        match self.assigned.value(code) {
            Value::True => {}
            Value::False => self.refuted = Some(False::Unit(code, id)),
            Value::Free => self.assigned.assign(code, Reason::Unit(id))?,
        }
        Ok(())
    }
}

// Puts the codes of a clause's literals in place of others.
fn put_codes(codes: &mut Vec<u32>, literals: &[Lit]) -> Result<(), NoMemory> {
    codes.clear();
    for lit in literals {
        codes.push(code_of(*lit))?;
    }
    Ok(())
}
