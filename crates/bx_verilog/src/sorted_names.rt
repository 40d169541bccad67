//! Names in the order of their bytes, each once. A name is found by halving, in a number of comparisons
//! that grows with the logarithm of how many there are, whatever names a user picks. Which of them a module
//! has first is for others to say.
ghost use Rattle.std.specs.Prelude.{◌≡◌, ◌<◌, ℕ, List, Contains, length, map, slice_index_or, [], IfOk};
ghost use Rattle.std.specs.Cmp.Lexicographic.{slice_cmp};
ghost use Rattle.std.specs.Ordering.{nat_cmp};
ghost use Rattle.std.specs.List.Sorted.{IsStrictlySortedBy};
ghost use Rattle.bx_logic.specs.Lists.{AreDistinct};
ghost use Rattle.bx_verilog.specs.Formulas.{Text};
ghost use Rattle.bx_verilog.specs.Shown.{number_among};

use crate::mentions::Mention;
use bx_logic::NoMemory;
use std::alloc::Global;
use std::marker::Model;

/// Names in the order of their bytes, no two of them the same. Contracts see the list of them.
#[derive(Drop)]
pub(crate) struct SortedNames<'a> {
    names: Vec<&'a [u8]>,
}

impl<'a> Model for SortedNames<'a> {
    ghost Value = { List (List ℕ) };

    ghost view = { λ sorted. map (λ name. name.now) sorted.names.items };

    ghost invariant = { λ sorted.
        IsStrictlySortedBy (λ x y. slice_cmp nat_cmp x.now y.now) sorted.names.items };
}

impl<'a> SortedNames<'a> {
    /// The names of these mentions.
    pub fn of(alloc: Global, mentions: &[Mention<'a>]) -> Result<Self, NoMemory>
        ensures { IfOk result (λ sorted. (n : Text) →
            Contains (map (λ x. x.name.now) mentions.now) n → Contains sorted n) }
    {
        let mut names = Vec::with_capacity(alloc, mentions.len())?;
        for mention in mentions {
            names.push(mention.name)?;
        }
        names.sort()?;
        names.dedup();
        Ok(SortedNames { names })
    }

    /// The place of a name, which is how many names there are where it is none of them.
    pub fn place(&self, name: &[u8]) -> usize
        ensures place { result ≡ number_among self.now name.now }
        ensures distinct { AreDistinct self.now }
    {
        self.names.binary_search(&name).unwrap_or(self.names.len())
    }

    /// The name at a place.
    pub fn name(&self, place: usize) -> &[u8]
        requires { place < length self.now }
        ensures { result.now ≡ slice_index_or self.now place [] }
    {
        self.names[place]
    }
}
