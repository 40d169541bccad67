//! One level of the tree: a bit for each number, 64 to a word. It says of each word whether it has a
//! number; a level above keeps these answers, and the topmost one goes through its words.
ghost use Rattle.std.specs.Prelude.{◌≡◌, ℕ, ◌*◌, ◌/◌, ◌<◌, ◌≤◌, true, false, length, IfOk, OnOk, OnErr};
ghost use Rattle.bx_least_set.specs.Numbers.{IsNew, Inserts, Removes, IsInBlock, IsBlockFree, IsLeastOfBlock};
ghost use Rattle.bx_least_set.specs.Bits.{has_bit};

use crate::level::Level;
use bx_logic::NoMemory;
use std::alloc::Global;
use std::marker::Model;

/// Numbers below a bound, a bit for each. Contracts see them as a set.
#[derive(Drop)]
pub struct Words {
    words: Vec<u64>,
    bound: u32,
}

impl Model for Words {
    ghost use Rattle.std.specs.Prelude.{Bool, List};
    ghost use Rattle.bx_least_set.specs.Bits.{numbers_of, AreWords};

    ghost Value = { List Bool };

    ghost view = { λ w. numbers_of w.bound w.words.items };

    ghost invariant = { λ w. AreWords w.bound w.words.items };
}

impl Words {
    /// No numbers, for those below a bound.
    pub fn empty(alloc: Global, bound: u32) -> Result<Self, NoMemory>
        ensures { IfOk result (IsNew bound) }
    {
        let words = vec![in alloc; 0; bound as usize / 64 + 1]?;
        Ok(Words { words, bound })
    }

    /// The bound.
    pub fn limit(&self) -> u32
        ensures { result ≡ length self.now }
    {
        self.bound
    }

    /// Puts a number in, and answers whether its block had none.
    pub fn put(&mut self, number: u32) -> bool
        requires { number < length self.old }
        ensures puts { Inserts self.old self.new number }
        ensures had_none { result ≡ true → IsBlockFree self.old (number / 64) }
        ensures had_some { result ≡ false → IsInBlock self.old (number / 64) }
    {
        let word = &mut self.words[number as usize / 64];
        let had_none = *word == 0;
        *word |= 1 << (number % 64);
        had_none
    }

    /// Takes a number out, and answers whether its block has none now.
    pub fn take(&mut self, number: u32) -> bool
        requires { number < length self.old }
        ensures takes { Removes self.old self.new number }
        ensures has_none { result ≡ true → IsBlockFree self.new (number / 64) }
        ensures has_some { result ≡ false → IsInBlock self.new (number / 64) }
    {
        let word = &mut self.words[number as usize / 64];
        *word &= !(1 << (number % 64));
        *word == 0
    }

    /// The least number of a block that has one.
    pub fn least_of(&self, block: u32) -> u32
        requires { IsInBlock self.now block }
        ensures { IsLeastOfBlock self.now block result }
    {
        let lowest = self.words[block as usize].trailing_zeros();
        block * 64 + lowest
    }
}

impl Level for Words {
    ghost set = { λ w. w };

    fn new(alloc: Global, bound: u32) -> Result<Self, NoMemory> {
        Words::empty(alloc, bound)
    }

    fn bound(&self) -> u32 {
        self.limit()
    }

    fn insert(&mut self, number: u32) {
        self.put(number);
    }

    fn remove(&mut self, number: u32) {
        self.take(number);
    }

    fn least(&self) -> Option<u32> {
        for block in 0..self.words.len() {
            if self.words[block] != 0 {
                return Some(self.least_of(block as u32));
            }
        }
        None
    }

    fn grow(&mut self) -> Result<(), NoMemory> {
        make_room(&mut self.words, self.bound)?;
        self.bound += 1;
        Ok(())
    }
}

// Makes room for the bit of this number.
fn make_room(words: &mut Vec<u64>, number: u32) -> Result<(), NoMemory>
    requires { number ≤ 64 * length words.old.items }
    ensures ok { OnOk result (number < 64 * length words.new.items) }
    ensures same { (k : ℕ) → has_bit words.new.items k ≡ has_bit words.old.items k }
    ensures err { OnErr result (words.new.items ≡ words.old.items) }
{
    if number as usize / 64 >= words.len() {
        words.push(0)?;
    }
    Ok(())
}
