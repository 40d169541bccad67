//! A level of the tree with a level above it, which has the numbers of those of its words that have
//! one. A change goes up only where a word became empty or was so.
ghost use Rattle.std.specs.Prelude.{◌≡◌};

use crate::level::Level;
use crate::words::Words;
use bx_logic::NoMemory;
use std::alloc::Global;
use std::marker::Model;

/// Numbers below a bound, and above them the blocks that have one.
#[derive(Drop)]
pub struct Layer<L: Level> {
    words: Words,
    above: L,
}

impl<L: Level> Model for Layer<L> {
    ghost use Rattle.std.specs.Prelude.{Bool, List};
    ghost use Rattle.bx_least_set.specs.Numbers.{IsSummary};

    ghost Value = { List Bool };

    ghost view = { λ l. l.words };

    ghost invariant = { λ l. IsSummary l.words (L.set l.above) };
}

impl<L: Level> Level for Layer<L> {
    ghost set = { λ l. l };

    fn new(alloc: Global, bound: u32) -> Result<Self, NoMemory> {
        let words = Words::empty(alloc, bound)?;
        let above = L::new(alloc, bound / 64 + 1)?;
        Ok(Layer { words, above })
    }

    fn bound(&self) -> u32 {
        self.words.limit()
    }

    fn insert(&mut self, number: u32) {
        if self.words.put(number) {
            self.above.insert(number / 64);
        }
    }

    fn remove(&mut self, number: u32) {
        if self.words.take(number) {
            self.above.remove(number / 64);
        }
    }

    fn least(&self) -> Option<u32> {
        match self.above.least() {
            Some(block) => Some(self.words.least_of(block)),
            None => None,
        }
    }

    fn grow(&mut self) -> Result<(), NoMemory> {
        if self.words.limit() / 64 >= self.above.bound() {
            self.above.grow()?;
        }
        self.words.grow()
    }
}
