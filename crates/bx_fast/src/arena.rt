//! The clauses of three literals or more, one behind the other in one vector of words: the number of
//! literals, the id, the level count and how lately it was used, and behind these the literals' codes.
//! The first two codes are those that are watched. A clause is named by the place of its first word.
//!
//! One vector keeps the words of a clause side by side: a clause of its own allocation would cost a walk
//! through memory for each one that is visited.

use crate::table::{at, part, place_of, put};
use bx_logic::NoMemory;
use std::alloc::Global;

/// How many words stand before a clause's literals.
const HEAD: u32 = 4;

/// The clauses. No clause has place 0.
#[derive(Drop)]
pub(crate) struct Arena {
    words: Vec<u32>,
    // how many clauses there are
    count: u32,
}

impl Arena {
    /// No clause.
    pub(crate) fn new(alloc: Global) -> Result<Self, NoMemory> {
        Ok(Arena {
            words: vec![in alloc; 0]?,
            count: 0,
        })
    }

    /// Adds a clause, and gives its place. The level count of a formula's clause is 0: it is never given
    /// up.
    pub(crate) fn add(&mut self, codes: &[u32], id: u32, levels: u32) -> Result<u32, NoMemory> {
        let place = place_of(self.words.len());
        self.words.push(place_of(codes.len()))?;
        self.words.push(id)?;
        self.words.push(levels)?;
        self.words.push(0)?;
        self.words.extend_from_slice(codes)?;
        self.count = self.count.saturating_add(1);
        Ok(place)
    }

    /// How many clauses there are. The first of them has place 1.
    pub(crate) fn count(&self) -> u32 {
        self.count
    }

    /// Where the clause behind this one begins.
    pub(crate) fn behind(&self, place: u32) -> u32 {
        place.saturating_add(self.size(place)).saturating_add(HEAD)
    }

    /// How many literals a clause has.
    pub(crate) fn size(&self, place: u32) -> u32 {
        at(&self.words, place, 0)
    }

    /// The id of a clause.
    pub(crate) fn id(&self, place: u32) -> u32 {
        at(&self.words, place.saturating_add(1), 0)
    }

    /// Writes another word in place of a clause's id, as where it went; an id of 0 says that it is gone.
    pub(crate) fn set_id(&mut self, place: u32, id: u32) {
        put(&mut self.words, place.saturating_add(1), id);
    }

    /// The level count of a clause.
    pub(crate) fn levels(&self, place: u32) -> u32 {
        at(&self.words, place.saturating_add(2), 0)
    }

    /// Gives a clause another level count.
    pub(crate) fn set_levels(&mut self, place: u32, levels: u32) {
        put(&mut self.words, place.saturating_add(2), levels);
    }

    /// How lately a clause was used: 0 where it wasn't since the last time that clauses were given up.
    pub(crate) fn used(&self, place: u32) -> u32 {
        at(&self.words, place.saturating_add(3), 0)
    }

    /// Notes how lately a clause was used.
    pub(crate) fn set_used(&mut self, place: u32, used: u32) {
        put(&mut self.words, place.saturating_add(3), used);
    }

    /// The literals of a clause.
    pub(crate) fn literals(&self, place: u32) -> &[u32] {
        part(&self.words, place.saturating_add(HEAD), self.size(place))
    }

    /// One literal of a clause.
    pub(crate) fn literal(&self, place: u32, k: u32) -> u32 {
        at(&self.words, place.saturating_add(HEAD).saturating_add(k), 0)
    }

    /// The literals of a clause, to be put in another order.
    pub(crate) fn literals_mut(&mut self, place: u32) -> &mut [u32] {
        let start = place.saturating_add(HEAD) as usize;
        let end = start + self.size(place) as usize;
        let words: &mut [u32] = &mut self.words;
        if end <= words.len() {
            &mut words[start..end]
        } else {
            &mut []
        }
    }
}
