//! A list of the numbers from 1 on, linked both ways in two vectors. It promises the list that each call
//! leaves; which number is moved is for the queue to say.
//!
//! The number 0 stands before the first and behind the last, so the links go round in a ring: taking a
//! number out and putting it in are the same few writes wherever it stands, with no case for an end.
ghost use Rattle.std.specs.Prelude.{◌≡◌, ◌++◌, ◌∷◌, ℕ, ◌+◌, ◌-◌, ◌≤◌, ◌<◌, ◌^◌, IfOk, List, [], length, Contains};
ghost use Rattle.std.specs.List.{range_with_len, AllByRecursion};
ghost use Rattle.bx_logic.specs.Lists.{AreDistinct};
ghost use Rattle.bx_queue.specs.Queue.{moved_to_front};
ghost use Rattle.bx_queue.specs.Ring.{first_of, behind};
ghost use Rattle.bx_queue.specs.Stamps.{numbering};

use bx_logic::NoMemory;
use std::alloc::Global;
use std::marker::Model;

// A list in which each number stands once. Contracts see the list alone.
#[derive(Debug, Drop)]
pub(crate) struct Ring {
    // at each number the one behind it; the first stands at 0, and 0 at the last
    next: Vec<u32>,
    // at each number the one before it; the last stands at 0, and 0 at the first
    previous: Vec<u32>,
}

impl Model for Ring {
    ghost use Rattle.std.specs.Prelude.{List, ℕ};
    ghost use Rattle.bx_queue.specs.Ring.{linked_list, IsRing};

    ghost Value = { List ℕ };

    ghost view = { λ r. linked_list r.next.items };

    ghost invariant = { λ r. IsRing (linked_list r.next.items) r.next.items r.previous.items };
}

impl Ring {
    // The numbers from 1 to this one in ascending order.
    pub(crate) fn ascending(alloc: Global, count: u32) -> Result<Self, NoMemory>
        ensures { IfOk result (λ r. r ≡ range_with_len 1 count) }
    {
        let next = each_next(alloc, count)?;
        let previous = each_previous(alloc, count)?;
        Ok(Ring { next, previous })
    }

    // The first of the list, and 0 where it is empty.
    pub(crate) fn first(&self) -> u32
        ensures { result ≡ first_of self.now }
    {
        self.next[0]
    }

    // Who stands behind this number, and 0 behind the last.
    pub(crate) fn behind(&self, number: u32) -> u32
        requires { Contains self.now number }
        ensures { result ≡ behind number self.now }
    {
        self.next[number as usize]
    }

    // Moves a number to the front; the others keep their order.
    pub(crate) fn move_to_front(&mut self, number: u32)
        requires { Contains self.old number }
        ensures { self.new ≡ moved_to_front number self.old }
    {
        let before = self.previous[number as usize];
        let behind = self.next[number as usize];
        self.next[before as usize] = behind;
        self.previous[behind as usize] = before;
        // it is out, so the first is another one, or none
        let first = self.next[0];
        self.next[number as usize] = first;
        self.previous[first as usize] = number;
        self.next[0] = number;
        self.previous[number as usize] = 0;
    }

    // Writes falling numbers along the list, this one at its first.
    pub(crate) fn number(&self, stamps: &mut [u32], top: u32)
        requires room { AllByRecursion (λ v. v < length stamps.old) self.now }
        requires enough { length self.now ≤ top }
        ensures { stamps.new ≡ numbering self.now top stamps.old }
    {
        let mut at = 0;
        for before in 0..self.next.len() - 1 {
            at = self.next[at as usize];
            stamps[at as usize] = top - before as u32;
        }
    }
}

// At each number from 0 to this one the number behind it, where they ascend.
fn each_next(alloc: Global, count: u32) -> Result<Vec<u32>, NoMemory>
    ensures { IfOk result (λ next. next.items ≡ range_with_len 1 count ++ 0 ∷ []) }
{
    let mut next = Vec::with_capacity(alloc, count as usize + 1)?;
    for number in 0..count {
        next.push(number + 1)?;
    }
    next.push(0)?;
    Ok(next)
}

// At each number from 0 to this one the number before it, where they ascend.
fn each_previous(alloc: Global, count: u32) -> Result<Vec<u32>, NoMemory>
    ensures { IfOk result (λ previous. previous.items ≡ count ∷ range_with_len 0 count) }
{
    let mut previous = Vec::with_capacity(alloc, count as usize + 1)?;
    previous.push(count)?;
    for number in 0..count {
        previous.push(number)?;
    }
    Ok(previous)
}
