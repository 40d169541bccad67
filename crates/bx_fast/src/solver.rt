//! The solver's state, and how it goes back to a lower level.

use crate::analyze::Analysis;
use crate::arena::Arena;
use crate::assigned::{Assigned, Reason};
use crate::log::Log;
use crate::pace::Pace;
use crate::queue::Queue;
use crate::scores::Scores;
use crate::table::place_of;
use crate::watch::Watches;
use bx_logic::NoMemory;
use std::alloc::Global;

/// A clause that is false.
#[derive(Clone, Copy)]
pub(crate) enum False {
    /// The clause without literals with this id.
    Empty(u32),
    /// The clause of this literal, and its id.
    Unit(u32, u32),
    /// The clause of these two literals, and its id.
    Pair(u32, u32, u32),
    /// The longer clause at this place.
    Clause(u32),
}

/// A formula, what is assigned, and what was learned.
#[derive(Drop)]
pub(crate) struct Solver {
    pub(crate) alloc: Global,
    pub(crate) vars: u32,
    pub(crate) assigned: Assigned,
    pub(crate) arena: Arena,
    pub(crate) watches: Watches,
    pub(crate) queue: Queue,
    pub(crate) scores: Scores,
    pub(crate) analysis: Analysis,
    pub(crate) log: Log,
    pub(crate) pace: Pace,
    // by variable: the id of the unit clause of one that has its value at level 0
    pub(crate) units: Vec<u32>,
    // how many literals of level 0 have their unit clauses
    pub(crate) settled: u32,
    // a clause of the formula that was false as it was read
    pub(crate) refuted: Option<False>,
    // ids are used up, or a clause was not as it should be
    pub(crate) is_over: bool,
}

impl Solver {
    /// A solver of no clauses.
    pub(crate) fn new(alloc: Global, vars: u32, first: u32) -> Result<Self, NoMemory> {
        Ok(Solver {
            alloc,
            vars,
            assigned: Assigned::new(alloc, vars)?,
            arena: Arena::new(alloc)?,
            watches: Watches::new(alloc, vars.saturating_mul(2).saturating_add(2))?,
            queue: Queue::new(alloc, vars)?,
            scores: Scores::new(alloc, vars)?,
            analysis: Analysis::new(alloc, vars)?,
            log: Log::new(alloc, first),
            pace: Pace::new(),
            units: vec![in alloc; 0; vars as usize + 1]?,
            settled: 0,
            refuted: None,
            is_over: false,
        })
    }

    /// Adds a clause of two literals or more, of which the first two are watched, and gives what makes
    /// the first one true where all others are false.
    pub(crate) fn attach(
        &mut self,
        codes: &[u32],
        id: u32,
        levels: u32,
    ) -> Result<Reason, NoMemory> {
        let [one, other, ..] = codes else {
            return Ok(Reason::Unit(id));
        };
        if codes.len() == 2 {
            self.watches.add_pair(*one, *other, id)?;
            return Ok(Reason::Pair(*other, id));
        }
        let place = self.arena.add(codes, id, levels)?;
        self.watch(*one, *other, place)?;
        self.watch(*other, *one, place)?;
        Ok(Reason::Clause(place))
    }

    /// Goes back to a level.
    pub(crate) fn backtrack(&mut self, level: u32) -> Result<(), NoMemory> {
        for _ in 0..self.assigned.count() {
            match self.assigned.free_above(level) {
                Some(var) => self.freed(var)?,
                None => break,
            }
        }
        self.assigned.close_above(level);
        Ok(())
    }

    /// The id of a clause that is a reason.
    pub(crate) fn reason_id(&self, reason: Reason) -> u32 {
        match reason {
            Reason::Decision => 0,
            Reason::Unit(id) | Reason::Pair(_, id) => id,
            Reason::Clause(place) => self.arena.id(place),
        }
    }

    /// The id of a clause that is false.
    pub(crate) fn false_id(&self, found: False) -> u32 {
        match found {
            False::Empty(id) | False::Unit(_, id) | False::Pair(_, _, id) => id,
            False::Clause(place) => self.arena.id(place),
        }
    }
}
