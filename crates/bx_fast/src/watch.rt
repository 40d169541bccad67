//! For each literal the clauses that are to be visited as it becomes false. A clause of two literals
//! stands in the lists of both, with its other literal and its id, and nowhere else: nearly all clauses
//! of a ratio's formula are such pairs, and a visit of one touches no memory but the list. A longer one
//! stands in the lists of its two watched literals, with a blocking literal: while that one is true the
//! clause itself isn't looked at (two watched literals after Moskewicz, Madigan, Zhao, Zhang and Malik,
//! 2001; blocking literals after Sörensson and Eén).

use crate::arena::Arena;
use crate::table::{place_of, put};
use bx_logic::NoMemory;
use std::alloc::Global;
use std::mem;

/// The other literal of a clause of two, and its id.
#[derive(Clone, Copy)]
pub(crate) struct Pair {
    pub(crate) other: u32,
    pub(crate) id: u32,
}

/// A longer clause, and another literal of it.
#[derive(Clone, Copy)]
pub(crate) struct Watch {
    pub(crate) blocker: u32,
    pub(crate) place: u32,
}

/// The lists, by code.
#[derive(Drop)]
pub(crate) struct Watches {
    pairs: Vec<Vec<Pair>>,
    longs: Vec<Vec<Watch>>,
}

impl Watches {
    /// Empty lists for so many codes.
    pub(crate) fn new(alloc: Global, codes: u32) -> Result<Self, NoMemory> {
        let mut pairs = Vec::with_capacity(alloc, codes as usize)?;
        let mut longs = Vec::with_capacity(alloc, codes as usize)?;
        for _ in 0..codes {
            pairs.push(Vec::new(alloc))?;
            longs.push(Vec::new(alloc))?;
        }
        Ok(Watches { pairs, longs })
    }

    /// Puts a clause of two literals into the lists of both.
    pub(crate) fn add_pair(&mut self, one: u32, other: u32, id: u32) -> Result<(), NoMemory> {
        self.push_pair(one, Pair { other, id })?;
        self.push_pair(other, Pair { other: one, id })
    }

    // Puts a clause of two literals into the list of one of them.
    fn push_pair(&mut self, code: u32, pair: Pair) -> Result<(), NoMemory> {
        if let Some(list) = self.pairs.get_mut(code as usize) {
            list.push(pair)?;
        }
        Ok(())
    }

    /// Puts a longer clause into the list of a literal.
    pub(crate) fn push(&mut self, code: u32, watch: Watch) -> Result<(), NoMemory> {
        if let Some(list) = self.longs.get_mut(code as usize) {
            list.push(watch)?;
        }
        Ok(())
    }

    /// The clauses of two literals of which this is one.
    pub(crate) fn pairs(&self, code: u32) -> &[Pair] {
        match self.pairs.get(code as usize) {
            Some(list) => list,
            None => &[],
        }
    }

    /// Takes out the list of longer clauses of a literal.
    pub(crate) fn take(&mut self, alloc: Global, code: u32) -> Vec<Watch> {
        match self.longs.get_mut(code as usize) {
            Some(list) => mem::replace(list, Vec::new(alloc)),
            None => Vec::new(alloc),
        }
    }

    /// Puts back the list of longer clauses of a literal.
    pub(crate) fn put_back(&mut self, code: u32, watches: Vec<Watch>) {
        if let Some(list) = self.longs.get_mut(code as usize) {
            *list = watches;
        }
    }

    /// Names the longer clauses by their new places, which stand as ids in the arena that they were in.
    pub(crate) fn follow(&mut self, moved: &Arena) {
        for code in 0..self.longs.len() {
            if let Some(list) = self.longs.get_mut(code) {
                follow_list(list, moved);
            }
        }
    }
}

// The same for one list. Clauses that are gone go from it.
fn follow_list(list: &mut Vec<Watch>, moved: &Arena) {
    let mut kept: u32 = 0;
    for k in 0..list.len() {
        let watch = list[k];
        let place = moved.id(watch.place);
        if place > 0 {
            let blocker = watch.blocker;
            put(list, kept, Watch { blocker, place });
            kept = kept.saturating_add(1);
        }
    }
    list.truncate(kept as usize);
}
