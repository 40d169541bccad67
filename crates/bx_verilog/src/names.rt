//! The names of a module, numbered by first appearance. A name is found by its bytes, and by its number at
//! once. Which names there are is for others to say. These names are borrowed from the module: `copy` makes
//! one that is not.
//!
//! The index hashes no bytes of names: the hash is known, and whoever picks names that collide would have
//! each look-up go past all of them, in quadratic time. Its keys are the places of the names in the order of
//! their bytes, which are 0, 1 and so on whatever the names are. So n bytes of names take n log n steps.
ghost use Rattle.std.specs.Prelude.{◌≡◌, ◌<◌, ℕ, List, All, length, map, slice_index_or, [], IfOk};
ghost use Rattle.bx_verilog.specs.Mentions.{firsts};
ghost use Rattle.bx_verilog.specs.Shown.{number_among};

use crate::mentions::Mention;
use crate::sorted_names::SortedNames;
use bx_logic::{Name, NoMemory};
use indexmap::IndexSet;
use std::alloc::Global;
use std::marker::Model;

/// Names in the order of their numbers, no two of them the same and fewer than 2 ^ 32. Contracts see
/// the list of them.
#[derive(Drop)]
pub(crate) struct Names<'a> {
    sorted: SortedNames<'a>,
    // Of each name, by its number, the place among the sorted ones.
    places: IndexSet<usize>,
}

impl<'a> Model for Names<'a> {
    ghost Value = { List (List ℕ) };

    ghost view = { λ names. map (λ place. slice_index_or names.sorted place []) names.places.keys };

    ghost invariant = { λ names. (length names.places.keys < 4294967296)
        × All (λ place. place < length names.sorted) names.places.keys };
}

impl<'a> Names<'a> {
    /// The names of these mentions, by first appearance.
    pub fn of(alloc: Global, mentions: &[Mention<'a>]) -> Result<Self, NoMemory>
        requires { length (firsts (map (λ x. x.name.now) mentions.now)) < 4294967296 }
        ensures { IfOk result (λ names. names ≡ firsts (map (λ x. x.name.now) mentions.now)) }
    {
        let sorted = SortedNames::of(alloc, mentions)?;
        let mut places = IndexSet::new(alloc);
        for mention in mentions {
            places.insert(sorted.place(mention.name))?;
        }
        Ok(Names { sorted, places })
    }

    /// How many names there are.
    pub fn len(&self) -> u32
        ensures { result ≡ length self.now }
    {
        self.places.len() as u32
    }

    /// The number of a name, which is how many names there are where it is none of them.
    pub fn number(&self, name: &[u8]) -> u32
        ensures { result ≡ number_among self.now name.now }
    {
        let place = self.sorted.place(name);
        let number = self.places.get_index_of(&place);
        number.unwrap_or(self.places.len()) as u32
    }

    /// The name with a number.
    pub fn name(&self, number: u32) -> &[u8]
        requires { number < length self.now }
        ensures { result.now ≡ slice_index_or self.now number [] }
    {
        self.sorted.name(self.places[number as usize])
    }
}

/// A copy of a name.
pub(crate) fn copy(alloc: Global, name: &[u8]) -> Result<Name, NoMemory>
    ensures { IfOk result (λ copy. copy ≡ name.now) }
{
    Ok(Name::new(name.to_vec(alloc)?))
}
