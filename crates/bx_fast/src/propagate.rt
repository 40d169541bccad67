//! Propagation: what follows from the literals that are true, clause by clause, until nothing more does
//! or a clause is false.
//!
//! Of a literal that became true first the clauses of two are visited, whose lists nothing changes, and
//! then the longer ones: so what follows soonest is known before a longer clause looks for a literal to
//! watch.

use crate::assigned::{Assigned, Reason, Value};
use crate::codes::negated;
use crate::solver::{False, Solver};
use crate::table::{at, put};
use crate::watch::{Pair, Watch};
use bx_logic::NoMemory;

// What a visit of a longer clause found.
enum Visit {
    // it is watched as before, with this blocking literal
    Stays(u32),
    // it is watched by another literal, and this one of it is its blocking literal
    Moves(u32, u32),
    // all others are false, and this one is to be true
    Forces(u32),
    // it is false
    IsFalse,
}

impl Solver {
    /// Propagates what is true, and gives a clause that is false, if one is.
    pub(crate) fn propagate(&mut self) -> Result<Option<False>, NoMemory> {
        // a trail has one literal of each variable at most
        for _ in 0..=self.vars {
            let Some(code) = self.assigned.next() else {
                return Ok(None);
            };
            let gone = negated(code);
            let pairs = self.watches.pairs(gone);
            if let Some(found) = visit_pairs(pairs, gone, &mut self.assigned)? {
                return Ok(Some(found));
            }
            if let Some(found) = self.visit_longs(gone)? {
                return Ok(Some(found));
            }
        }
        Ok(None)
    }

    // Visits the longer clauses that watch a literal that became false.
    fn visit_longs(&mut self, gone: u32) -> Result<Option<False>, NoMemory> {
        let mut watches = self.watches.take(self.alloc, gone);
        let mut kept: u32 = 0;
        let mut found = None;
        for k in 0..watches.len() {
            let watch = watches[k];
            let stays = match found {
                Some(_) => Some(watch),
                None => self.visit(watch, gone, &mut found)?,
            };
            if let Some(watch) = stays {
                put(&mut watches, kept, watch);
                kept = kept.saturating_add(1);
            }
        }
        watches.truncate(kept as usize);
        self.watches.put_back(gone, watches);
        Ok(found)
    }

    // Visits a longer clause. Its watch stays, unless another literal is watched now.
    fn visit(
        &mut self,
        watch: Watch,
        gone: u32,
        found: &mut Option<False>,
    ) -> Result<Option<Watch>, NoMemory> {
        if matches!(self.assigned.value(watch.blocker), Value::True) {
            return Ok(Some(watch));
        }
        let place = watch.place;
        let literals = self.arena.literals_mut(place);
        match look(literals, gone, self.assigned.values()) {
            Visit::Stays(blocker) => Ok(Some(Watch { blocker, place })),
            Visit::Moves(code, blocker) => {
                self.watches.push(code, Watch { blocker, place })?;
                Ok(None)
            }
            Visit::Forces(blocker) => {
                self.assigned.assign(blocker, Reason::Clause(place))?;
                Ok(Some(Watch { blocker, place }))
            }
            Visit::IsFalse => {
                *found = Some(False::Clause(place));
                Ok(Some(watch))
            }
        }
    }

    /// Watches a literal of a longer clause, with another one as its blocking literal.
    pub(crate) fn watch(&mut self, code: u32, blocker: u32, place: u32) -> Result<(), NoMemory> {
        self.watches.push(code, Watch { blocker, place })
    }
}

// Visits the clauses of two literals of which one became false.
fn visit_pairs(
    pairs: &[Pair],
    gone: u32,
    assigned: &mut Assigned,
) -> Result<Option<False>, NoMemory> {
    for pair in pairs {
        match assigned.value(pair.other) {
            Value::True => {}
            Value::False => return Ok(Some(False::Pair(gone, pair.other, pair.id))),
            Value::Free => assigned.assign(pair.other, Reason::Pair(gone, pair.id))?,
        }
    }
    Ok(None)
}

// Looks at the literals of a clause of which a watched one became false, and puts those that are to be
// watched in front.
fn look(literals: &mut [u32], gone: u32, values: &[Value]) -> Visit {
    let other = at(literals, 0, 0) ^ at(literals, 1, 0) ^ gone;
    if matches!(at(values, other, Value::Free), Value::True) {
        return Visit::Stays(other);
    }
    for k in 2..literals.len() {
        let code = literals[k];
        match at(values, code, Value::Free) {
            Value::False => {}
            Value::True => return Visit::Stays(code),
            Value::Free => {
                literals[k] = gone;
                put(literals, 0, other);
                put(literals, 1, code);
                return Visit::Moves(code, other);
            }
        }
    }
    match at(values, other, Value::Free) {
        Value::False => Visit::IsFalse,
        _ => Visit::Forces(other),
    }
}
