//! The set itself: the levels, as many as all numbers of 32 bits need for a topmost one of one word.
ghost use Rattle.std.specs.Prelude.{◌≡◌, ◌<◌, length, None, IfOk, IfSome, OnOk, OnErr};
ghost use Rattle.bx_least_set.specs.Numbers.{IsNew, Inserts, Removes, Grows, IsLeast, IsNone};

use crate::layer::Layer;
use crate::level::Level;
use crate::words::Words;
use bx_logic::NoMemory;
use std::alloc::Global;
use std::marker::Model;

type Levels = Layer<Layer<Layer<Layer<Layer<Words>>>>>;

/// A set of numbers below a bound. Contracts see the bound, and of each number whether it is in.
#[derive(Drop)]
pub struct LeastSet {
    levels: Levels,
}

impl Model for LeastSet {
    ghost use Rattle.std.specs.Prelude.{Bool, List};

    ghost Value = { List Bool };

    ghost view = { λ s. s.levels };
}

impl LeastSet {
    /// No numbers, for those below a bound.
    ///
    /// # Errors
    ///
    /// `NoMemory`.
    pub fn new(alloc: Global, bound: u32) -> Result<Self, NoMemory>
        ensures { IfOk result (IsNew bound) }
    {
        Ok(LeastSet {
            levels: Levels::new(alloc, bound)?,
        })
    }

    /// Puts a number in, if it isn't there. Takes no memory.
    pub fn insert(&mut self, number: u32)
        requires { number < length self.old }
        ensures { Inserts self.old self.new number }
    {
        self.levels.insert(number);
    }

    /// Takes a number out, if it is there. Takes no memory.
    pub fn remove(&mut self, number: u32)
        requires { number < length self.old }
        ensures { Removes self.old self.new number }
    {
        self.levels.remove(number);
    }

    /// The least number, and none exactly where there is none. Takes no memory.
    pub fn least(&self) -> Option<u32>
        ensures some { IfSome result (IsLeast self.now) }
        ensures none { result ≡ None → IsNone self.now }
    {
        self.levels.least()
    }

    /// Raises the bound by one.
    ///
    /// # Errors
    ///
    /// `NoMemory`, and then the set is as before.
    pub fn grow(&mut self) -> Result<(), NoMemory>
        requires { length self.old < 4294967295 }
        ensures ok { OnOk result (Grows self.old self.new) }
        ensures err { OnErr result (self.new ≡ self.old) }
    {
        self.levels.grow()
    }
}
