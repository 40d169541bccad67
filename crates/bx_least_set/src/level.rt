//! What each level of the tree of bits promises: a set of numbers with its least one.
ghost use Rattle.std.specs.Prelude.{◌≡◌, ◌<◌, Bool, List, length, None, IfOk, IfSome, OnOk, OnErr};
ghost use Rattle.bx_least_set.specs.Numbers.{IsNew, Inserts, Removes, Grows, IsLeast, IsNone};

use bx_logic::NoMemory;
use std::alloc::Global;

/// A set of numbers below a bound.
pub trait Level: Sized + Drop {
    ghost set: { Self → List Bool };

    /// No numbers, for those below a bound.
    fn new(alloc: Global, bound: u32) -> Result<Self, NoMemory>
        ensures { IfOk result (λ s. IsNew bound (set s)) };

    /// The bound.
    fn bound(&self) -> u32
        ensures { result ≡ length (set self.now) };

    /// Puts a number in.
    fn insert(&mut self, number: u32)
        requires { number < length (set self.old) }
        ensures { Inserts (set self.old) (set self.new) number };

    /// Takes a number out.
    fn remove(&mut self, number: u32)
        requires { number < length (set self.old) }
        ensures { Removes (set self.old) (set self.new) number };

    /// The least number, and none exactly where there is none.
    fn least(&self) -> Option<u32>
        ensures some { IfSome result (IsLeast (set self.now)) }
        ensures none { result ≡ None → IsNone (set self.now) };

    /// Raises the bound by one. Where memory is refused, the set is as before.
    fn grow(&mut self) -> Result<(), NoMemory>
        requires { length (set self.old) < 4294967295 }
        ensures ok { OnOk result (Grows (set self.old) (set self.new)) }
        ensures err { OnErr result (set self.new ≡ set self.old) };
}
