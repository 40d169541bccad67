//! Which learned clauses are kept. One whose literals are of few levels is kept for good, one that was
//! used of late stays for now, and of the others half are given up: those of the most levels, and among
//! these the longest (after Audemard and Simon, 2009, with CaDiCaL's tiers). They go from the arena and
//! the watches, and never from the log.
//!
//! What is kept moves together: a vector with gaps would cost each visit a longer way through memory.

use crate::arena::Arena;
use crate::assigned::Reason;
use crate::codes::var_of;
use crate::solver::Solver;
use bx_logic::NoMemory;
use std::mem;

/// A clause of so few levels is kept for good.
const KEPT_LEVELS: u32 = 2;

/// A clause of so few levels that was used stays for twice as long.
const GOOD_LEVELS: u32 = 6;

impl Solver {
    /// Notes that a clause was used, and counts its levels anew.
    pub(crate) fn note_use(&mut self, place: u32) {
        let levels = self.arena.levels(place);
        if levels <= KEPT_LEVELS {
            return;
        }
        let now = self.levels_of(place, levels);
        self.arena.set_levels(place, now);
        self.arena
            .set_used(place, if now <= GOOD_LEVELS { 2 } else { 1 });
    }

    // How many levels the literals of a clause have, at most as many as it had.
    fn levels_of(&mut self, place: u32, most: u32) -> u32 {
        self.analysis.begin_count();
        let mut levels: u32 = 0;
        for code in self.arena.literals(place) {
            let level = self.assigned.fact(var_of(*code)).level;
            if self.analysis.is_first(level) {
                levels = levels.saturating_add(1);
            }
            if levels >= most {
                break;
            }
        }
        levels.max(1)
    }

    /// Gives up most of the learned clauses that are neither good nor in use.
    pub(crate) fn reduce(&mut self) -> Result<(), NoMemory> {
        self.keep_reasons();
        let mut candidates = self.candidates()?;
        candidates.sort_unstable();
        for k in candidates.len() / 4..candidates.len() {
            let place = (candidates[k] & 0xffff_ffff) as u32;
            self.arena.set_id(place, 0);
        }
        self.compact()
    }

    // Clauses that are reasons are in use.
    fn keep_reasons(&mut self) {
        for place in 0..self.assigned.count() {
            let var = var_of(self.assigned.literal(place));
            if let Reason::Clause(place) = self.assigned.fact(var).reason {
                let used = self.arena.used(place).max(1);
                self.arena.set_used(place, used);
            }
        }
    }

    // The learned clauses that may be given up, as numbers that sort by levels, size and place. Those that
    // were used are passed over, and were used less lately from now on.
    fn candidates(&mut self) -> Result<Vec<u64>, NoMemory> {
        let mut candidates = Vec::new(self.alloc);
        let mut place = 1;
        for _ in 0..self.arena.count() {
            let levels = self.arena.levels(place);
            let used = self.arena.used(place);
            if used > 0 {
                self.arena.set_used(place, used - 1);
            } else if levels > KEPT_LEVELS {
                candidates.push(rank(levels, self.arena.size(place), place))?;
            }
            place = self.arena.behind(place);
        }
        Ok(candidates)
    }

    // Moves the clauses that are kept together.
    fn compact(&mut self) -> Result<(), NoMemory> {
        let mut arena = Arena::new(self.alloc)?;
        let mut place = 1;
        for _ in 0..self.arena.count() {
            let id = self.arena.id(place);
            if id > 0 {
                let now = arena.add(self.arena.literals(place), id, self.arena.levels(place))?;
                arena.set_used(now, self.arena.used(place));
                self.arena.set_id(place, now);
            }
            place = self.arena.behind(place);
        }
        let moved = mem::replace(&mut self.arena, arena);
        self.move_reasons(&moved);
        self.watches.follow(&moved);
        Ok(())
    }

    // Names the clauses that are reasons by their new places.
    fn move_reasons(&mut self, moved: &Arena) {
        for place in 0..self.assigned.count() {
            let var = var_of(self.assigned.literal(place));
            if let Reason::Clause(place) = self.assigned.fact(var).reason {
                self.assigned.move_reason(var, moved.id(place));
            }
        }
    }
}

// A number that sorts clauses by levels, then by size, then by place.
fn rank(levels: u32, size: u32, place: u32) -> u64 {
    let first = u64::from(levels.min(0xfff)) << 52;
    let second = u64::from(size.min(0xf_ffff)) << 32;
    first | second | u64::from(place)
}
