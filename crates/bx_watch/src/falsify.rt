//! A literal becomes false: each clause that watches it looks for another literal to watch.
ghost use Rattle.std.specs.Prelude.{◌≡◌, ◌<◌, None, Some, IfOk, IfSome, OnOk, Contains, List, length, slice_get};
ghost use Rattle.bx_cnf.specs.Literals.{Literal};
ghost use Rattle.bx_cnf.specs.Formulas.{IsClause, IsFormula};
ghost use Rattle.bx_cnf.specs.Assignments.{IsFalse};
ghost use Rattle.bx_watch.specs.declared.lists.Entry.{Entry as Item};
ghost use Rattle.bx_watch.specs.Watching.{IsOver};
ghost use Rattle.bx_watch.specs.Lists.{list_of};
ghost use Rattle.bx_watch.specs.Watches.{IsOf, HasOther, OthersFail};
ghost use Rattle.bx_watch.specs.declared.watches.Pair.{Pair as Two};
ghost use Rattle.bx_watch.specs.Keeping.{tables_of, IsKept, Visits, Falsifies};

use crate::lists::Entry;
use crate::store::Store;
use crate::trail::Trail;
use crate::watches::{Pair, Watches};
use bx_cnf::Lit;
use bx_logic::NoMemory;

impl Watches {
    /// Makes ready for a literal, whose variable is free, to be false: each clause that watches it
    /// then watches another one, or has a true literal, or may be active.
    ///
    /// # Errors
    ///
    /// `NoMemory`.
    pub(crate) fn falsify(&mut self, lit: Lit, store: &Store, trail: &Trail) -> Result<(), NoMemory>
        requires over { IsOver store.now.vars lit }
        requires formed { IsFormula store.now }
        requires one_size { trail.now.vars ≡ store.now.vars }
        requires kept { IsKept store.now trail.now.literals (tables_of self.old) }
        ensures { OnOk result (Falsifies store.now trail.now.literals lit
            (tables_of self.old) (tables_of self.new)) }
    {
        let mut at = 0;
        while at < self.lists.len(lit) {
            if self.stays(lit, at, store, trail)? {
                at += 1;
            } else {
                self.lists.remove(lit, at);
            }
        }
        Ok(())
    }

    // Whether the clause of an entry goes on to watch the literal.
    fn stays(&mut self, lit: Lit, at: usize, store: &Store, trail: &Trail) -> Result<bool, NoMemory>
        requires over { IsOver store.now.vars lit }
        requires formed { IsFormula store.now }
        requires one_size { trail.now.vars ≡ store.now.vars }
        requires kept { IsKept store.now trail.now.literals (tables_of self.old) }
        requires within { at < length (list_of self.old.lists lit) }
        ensures { IfOk result (λ stays. (entry : Item)
            → slice_get (list_of self.old.lists lit) at ≡ Some entry
            → Visits store.now trail.now.literals lit entry.clause
            (tables_of self.old) (tables_of self.new) stays) }
    {
        let entry = self.lists.entry(lit, at);
        if trail.is_true(entry.blocker) {
            return Ok(true);
        }
        match self.pairs[entry.clause as usize].other(lit) {
            Some(other) => self.rewatch(entry.clause, lit, other, store, trail),
            None => Ok(false),
        }
    }

    // Where the other watch isn't true, watches another literal of the clause in place of the one that is
    // about to be false, if there is one that isn't false; if there is none, the clause may be active.
    fn rewatch(
        &mut self,
        clause: u32,
        lit: Lit,
        other: Lit,
        store: &Store,
        trail: &Trail,
    ) -> Result<bool, NoMemory>
        requires over { IsOver store.now.vars lit }
        requires formed { IsFormula store.now }
        requires one_size { trail.now.vars ≡ store.now.vars }
        requires kept { IsKept store.now trail.now.literals (tables_of self.old) }
        requires within { clause < length store.now.clauses }
        requires has_other { (literals : List Literal)
            → slice_get store.now.clauses clause ≡ Some literals → Contains literals other }
        requires watched { (pair : Two) → slice_get self.old.pairs.items clause ≡ Some pair
            → HasOther pair lit (Some other) }
        ensures { IfOk result (Visits store.now trail.now.literals lit clause
            (tables_of self.old) (tables_of self.new)) }
    {
        if trail.is_true(other) {
            return Ok(true);
        }
        let pair = &self.pairs[clause as usize];
        let Some(spare) = spare(store.clause(clause), pair, trail) else {
            self.pending.insert(clause);
            return Ok(true);
        };
        let blocker = other;
        self.lists.push(spare, Entry { clause, blocker })?;
        self.pairs[clause as usize] = Pair {
            first: other,
            second: spare,
        };
        Ok(false)
    }
}

// The first literal of a clause that it doesn't watch and that isn't false.
fn spare(literals: &[Lit], pair: &Pair, trail: &Trail) -> Option<Lit>
    requires { IsClause trail.now.vars literals.now }
    ensures some { IfSome result (λ l. Contains literals.now l × (IsOf pair.now l → ⊥)
        × (IsFalse trail.now.literals l → ⊥)) }
    ensures none { result ≡ None → OthersFail trail.now.literals literals.now pair.now }
{
    for lit in literals {
        if !pair.has(*lit) && !trail.is_false(*lit) {
            return Some(*lit);
        }
    }
    None
}
