//! The variables by score, as MiniSat has them: each conflict raises the scores of those that had a part
//! by an amount that itself grows from conflict to conflict, and the next decision is the free variable of
//! the highest score (Eén and Sörensson, 2003). Scores are whole numbers, all divided at once before one of
//! them could pass its type; equal scores go by variable.
//!
//! The free variables, and maybe others, stand in a heap: none has a higher score than the one above it.

use crate::table::{at, place_of, put};
use bx_logic::NoMemory;
use std::alloc::Global;

/// The amount at the beginning, and the one at which all scores are divided.
const FIRST: u64 = 1 << 24;

const LAST: u64 = 1 << 56;

/// Where a variable stands that isn't in the heap.
const OUTSIDE: u32 = u32::MAX;

/// No heap of variables is deeper.
const DEPTH: u32 = 32;

/// A heap of variables.
#[derive(Drop)]
pub(crate) struct Scores {
    // by variable
    scores: Vec<u64>,
    heap: Vec<u32>,
    // by variable: its place in the heap
    places: Vec<u32>,
    amount: u64,
}

impl Scores {
    /// All variables, none of which has a score.
    pub(crate) fn new(alloc: Global, vars: u32) -> Result<Self, NoMemory> {
        let mut heap = Vec::with_capacity(alloc, vars as usize)?;
        let mut places = Vec::with_capacity(alloc, vars as usize + 1)?;
        places.push(OUTSIDE)?;
        for k in 0..vars {
            heap.push(k + 1)?;
            places.push(k)?;
        }
        Ok(Scores {
            scores: vec![in alloc; 0; vars as usize + 1]?,
            heap,
            places,
            amount: FIRST,
        })
    }

    // Whether a variable comes before another one.
    fn precedes(&self, var: u32, other: u32) -> bool {
        let score = at(&self.scores, var, 0);
        let second = at(&self.scores, other, 0);
        score > second || score == second && var < other
    }

    // Puts a variable at a place of the heap.
    fn place(&mut self, var: u32, place: u32) {
        put(&mut self.heap, place, var);
        put(&mut self.places, var, place);
    }

    // Moves a variable up from a place, past those that it precedes.
    fn rise(&mut self, var: u32, start: u32) {
        let mut place = start;
        for _ in 0..DEPTH {
            if place == 0 {
                break;
            }
            let above = (place - 1) / 2;
            let other = at(&self.heap, above, 0);
            if !self.precedes(var, other) {
                break;
            }
            self.place(other, place);
            place = above;
        }
        self.place(var, place);
    }

    // Moves a variable down from a place, past those that precede it.
    fn sink(&mut self, var: u32, start: u32) {
        let mut place = start;
        for _ in 0..DEPTH {
            let Some(below) = self.first_below(place) else {
                break;
            };
            let other = at(&self.heap, below, 0);
            if !self.precedes(other, var) {
                break;
            }
            self.place(other, place);
            place = below;
        }
        self.place(var, place);
    }

    // The place of the first of the two below a place, if there is one.
    fn first_below(&self, place: u32) -> Option<u32> {
        let count = place_of(self.heap.len());
        let left = place.saturating_mul(2).saturating_add(1);
        let right = left.saturating_add(1);
        if left >= count {
            return None;
        }
        let is_right = right < count
            && self.precedes(at(&self.heap, right, 0), at(&self.heap, left, 0));
        Some(if is_right { right } else { left })
    }

    /// The variable of the highest score in the heap.
    pub(crate) fn first(&self) -> Option<u32> {
        self.heap.first().copied()
    }

    /// Takes the variable of the highest score out of the heap.
    pub(crate) fn drop_first(&mut self) {
        let first = at(&self.heap, 0, 0);
        put(&mut self.places, first, OUTSIDE);
        if let Some(last) = self.heap.pop() {
            if last != first {
                self.sink(last, 0);
            }
        }
    }

    /// Puts a variable into the heap that became free.
    pub(crate) fn freed(&mut self, var: u32) -> Result<(), NoMemory> {
        if at(&self.places, var, 0) == OUTSIDE {
            let place = place_of(self.heap.len());
            self.heap.push(var)?;
            self.rise(var, place);
        }
        Ok(())
    }

    /// Raises the score of a variable.
    pub(crate) fn bump(&mut self, var: u32) {
        let score = at(&self.scores, var, 0).saturating_add(self.amount);
        put(&mut self.scores, var, score);
        let place = at(&self.places, var, OUTSIDE);
        if place != OUTSIDE {
            self.rise(var, place);
        }
    }

    /// Ends a conflict: the next one raises by more.
    pub(crate) fn grow(&mut self) {
        self.amount = self.amount.saturating_add(self.amount / 20);
        if self.amount >= LAST {
            self.divide();
        }
    }

    // Divides all scores. Some become equal by it, which then go by variable, so the heap is made anew.
    fn divide(&mut self) {
        for score in self.scores.iter_mut() {
            *score >>= 32;
        }
        self.amount >>= 32;
        for k in (0..place_of(self.heap.len())).rev() {
            let var = at(&self.heap, k, 0);
            self.sink(var, k);
        }
    }
}
