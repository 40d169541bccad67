//! For each literal the clauses that watch it. A list is made at the size that was counted for it, and
//! grows only where clauses that watch another literal now come to it, or that were learned.
ghost use Rattle.std.specs.Prelude.{◌≡◌, ◌<◌, IfOk, OnOk, length, slice_get, Some};
ghost use Rattle.bx_watch.specs.Lists.{place, list_of, IsEmptyFor, Pushes, Drops, Clears};

use crate::growth::push_tight;
use bx_cnf::Lit;
use bx_logic::NoMemory;
use std::alloc::Global;
use std::marker::Model;

/// A clause that watches a literal.
#[derive(Clone, Copy)]
pub(crate) struct Entry {
    /// Its number, counted from 0.
    pub(crate) clause: u32,
    /// Another literal of it: while that one is true, the clause need not be looked at.
    pub(crate) blocker: Lit,
}

/// A list of entries for each literal. Contracts see it as the list of these lists.
#[derive(Drop)]
pub(crate) struct Lists {
    // those of variable 1 first, each variable's own before its negation's
    lists: Vec<Vec<Entry>>,
}

impl Model for Lists {
    ghost use Rattle.std.specs.Prelude.{List, map};
    ghost use Rattle.bx_watch.specs.declared.lists.Entry.{Entry};

    ghost Value = { List (List Entry) };

    ghost view = { λ l. map (λ v. v.items) l.lists.items };
}

impl Lists {
    /// No entries, with room for as many as were counted for each literal.
    ///
    /// # Errors
    ///
    /// `NoMemory`.
    pub(crate) fn new(alloc: Global, counts: &[u32]) -> Result<Self, NoMemory>
        ensures { IfOk result (IsEmptyFor (length counts.now)) }
    {
        let mut lists = Vec::with_capacity(alloc, counts.len())?;
        for count in counts {
            lists.push(Vec::with_capacity(alloc, *count as usize)?)?;
        }
        Ok(Lists { lists })
    }

    /// So many lists without entries, and with no room for any yet.
    ///
    /// # Errors
    ///
    /// `NoMemory`.
    pub(crate) fn none(alloc: Global, count: usize) -> Result<Self, NoMemory>
        ensures { IfOk result (IsEmptyFor count) }
    {
        let mut lists = Vec::with_capacity(alloc, count)?;
        for _ in 0..count {
            lists.push(Vec::new(alloc))?;
        }
        Ok(Lists { lists })
    }

    /// How many entries a literal has.
    pub(crate) fn len(&self, lit: Lit) -> usize
        requires { place lit < length self.now }
        ensures { result ≡ length (list_of self.now lit) }
    {
        self.lists[place(lit)].len()
    }

    /// One of a literal's entries.
    pub(crate) fn entry(&self, lit: Lit, at: usize) -> Entry
        requires over { place lit < length self.now }
        requires within { at < length (list_of self.now lit) }
        ensures { slice_get (list_of self.now lit) at ≡ Some result }
    {
        self.lists[place(lit)][at]
    }

    /// A literal's entries.
    pub(crate) fn of(&self, lit: Lit) -> &[Entry]
        requires { place lit < length self.now }
        ensures { result.now ≡ list_of self.now lit }
    {
        &self.lists[place(lit)]
    }

    /// Puts an entry behind those of a literal.
    ///
    /// # Errors
    ///
    /// `NoMemory`.
    pub(crate) fn push(&mut self, lit: Lit, entry: Entry) -> Result<(), NoMemory>
        requires { place lit < length self.old }
        ensures { OnOk result (Pushes self.old self.new lit entry) }
    {
        let list = &mut self.lists[place(lit)];
        push_tight(list, entry)?;
        Ok(())
    }

    /// Takes one of a literal's entries out; the last one comes in its place.
    pub(crate) fn remove(&mut self, lit: Lit, at: usize)
        requires over { place lit < length self.old }
        requires within { at < length (list_of self.old lit) }
        ensures { Drops self.old self.new lit at }
    {
        let list = &mut self.lists[place(lit)];
        list.swap_remove(at);
    }

    /// Takes all entries of a literal out. Their room stays.
    pub(crate) fn clear(&mut self, lit: Lit)
        requires { place lit < length self.old }
        ensures { Clears self.old self.new lit }
    {
        self.lists[place(lit)].clear();
    }
}

/// Where the list of a literal stands.
pub(crate) fn place(lit: Lit) -> usize
    ensures { result ≡ place lit }
{
    let own = 2 * (lit.var() as usize - 1);
    if lit.is_positive() { own } else { own + 1 }
}
