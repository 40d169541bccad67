//! A list of lists, kept in one vector of items and one of ends, so that a list more takes no
//! allocation of its own and the items of neighbours stand side by side.
ghost use Rattle.std.specs.Prelude.{◌≡◌, ◌+◌, ◌++◌, ◌-◌, ◌<◌, ◌≤◌, ◌^◌, ◌↔◌, List, [], ◌∷◌, length, take, slice_get, slice_index, Some, IsTrue, OnOk, OnErr};

use bx_logic::NoMemory;
use std::alloc::Global;
use std::marker::Model;

/// Lists of items, of which there are fewer than 4,294,967,296 in all. Contracts see it as the list of
/// the lists.
#[derive(Drop)]
pub struct Flat<T> {
    items: Vec<T>,
    // where each list ends; it begins where the one before ends, and the first at 0
    ends: Vec<u32>,
}

impl<T> Model for Flat<T> {
    ghost use Rattle.std.specs.Prelude.{List, length};
    ghost use Rattle.bx_cnf.specs.Flat.{lists_from, IsFlat};

    ghost Value = { List (List T) };

    ghost view = { λ flat. lists_from 0 flat.ends.items flat.items.items };

    ghost invariant = { λ flat. IsFlat flat.ends.items (length flat.items.items) };
}

impl<T> Flat<T> {
    /// No lists. Takes no memory.
    pub fn new(alloc: Global) -> Self
        ensures { result ≡ [] }
    {
        Flat {
            items: Vec::new(alloc),
            ends: Vec::new(alloc),
        }
    }

    /// How many lists there are.
    pub fn len(&self) -> usize
        ensures { result ≡ length self.now }
    {
        self.ends.len()
    }

    /// List k, counted from 0.
    pub fn list(&self, k: usize) -> &[T]
        requires { k < length self.now }
        ensures { slice_get self.now k ≡ Some result.now }
    {
        let start = start_of(&self.ends, k) as usize;
        let end = self.ends[k] as usize;
        &self.items[start..end]
    }
}

impl<T: Copy> Flat<T> {
    /// Puts a list behind the others.
    ///
    /// # Errors
    ///
    /// `NoMemory` where memory is refused, and where there would be 4,294,967,296 items or more. The
    /// lists are then as before.
    pub fn push(&mut self, list: &[T]) -> Result<(), NoMemory>
        ensures ok { OnOk result (self.new ≡ self.old ++ list.now ∷ []) }
        ensures err { OnErr result (self.new ≡ self.old) }
    {
        if !has_room(self.items.len(), list.len()) {
            return Err(NoMemory);
        }
        self.ends.reserve(1)?;
        self.items.extend_from_slice(list)?;
        self.ends.push(self.items.len() as u32)?;
        Ok(())
    }
}

impl<T: Drop> Flat<T> {
    /// Takes the last list off. Takes no memory.
    pub fn pop(&mut self)
        requires { 0 < length self.old }
        ensures { self.new ≡ take (length self.old - 1) self.old }
    {
        let k = self.ends.len() - 1;
        let start = start_of(&self.ends, k);
        self.ends.truncate(k);
        self.items.truncate(start as usize);
    }
}

// Whether so many items more leave every end within its type. Where they don't, `push` says that memory is wanting,
// and this clause keeps it from saying so earlier.
fn has_room(held: usize, more: usize) -> bool
    requires { held < 2 ^ 32 }
    ensures { IsTrue result ↔ (held + more < 2 ^ 32) }
{
    more <= u32::MAX as usize - held
}

// Where list k begins: at the end of the one before, and the first at 0.
fn start_of(ends: &[u32], k: usize) -> u32
    requires { k ≤ length ends.now }
    ensures { result ≡ slice_index (0 ∷ ends.now) k }
{
    if k == 0 { 0 } else { ends[k - 1] }
}
