//! A clause is added. All its literals may be false, as those of a learned one are, so it watches those
//! that became false last: when the search goes back, they are free first.
ghost use Rattle.std.specs.Prelude.{◌≡◌, ℕ, ◌+◌, ◌<◌, ◌≤◌, true, List, [], ◌∷◌, ◌++◌, Some, OnOk, length, slice_get};
ghost use Rattle.bx_cnf.specs.Literals.{Literal};
ghost use Rattle.bx_cnf.specs.Formulas.{IsClause, IsFormula};
ghost use Rattle.bx_least_set.specs.Numbers.{has};
ghost use Rattle.bx_watch.specs.Watching.{IsOver};
ghost use Rattle.bx_watch.specs.Readings.{IsTrail};
ghost use Rattle.bx_watch.specs.Lists.{place};
ghost use Rattle.bx_watch.specs.Watches.{IsWatching, IsOrdered, IsChosen};
ghost use Rattle.bx_watch.specs.Keeping.{tables_of, IsReady, IsMore, MayWake, Enters, up_to};

use crate::growth::push_tight;
use crate::lists::Entry;
use crate::reading::read;
use crate::store::Store;
use crate::trail::Trail;
use crate::watches::{Pair, Watches, is_one};
use bx_cnf::Lit;
use bx_logic::NoMemory;

impl Watches {
    /// Adds the watches of a clause behind those of the others.
    ///
    /// # Errors
    ///
    /// `NoMemory`.
    pub(crate) fn attach(
        &mut self,
        number: u32,
        store: &Store,
        trail: &Trail,
    ) -> Result<(), NoMemory>
        requires within { number < length store.now.clauses }
        requires formed { IsFormula store.now }
        requires trail { IsTrail trail.now }
        requires one_size { trail.now.vars ≡ store.now.vars }
        requires ready { IsReady (up_to number store.now) trail.now.literals (tables_of self.old) }
        ensures ready { OnOk result (IsReady (up_to (number + 1) store.now) trail.now.literals
            (tables_of self.new)) }
        ensures stays { OnOk result ((k : ℕ) → has self.old.pending k ≡ true
            → has self.new.pending k ≡ true) }
        ensures woken { OnOk result ((clause : List Literal)
            → slice_get store.now.clauses number ≡ Some clause → MayWake trail.now.literals clause
            → has self.new.pending number ≡ true) }
    {
        let literals = store.clause(number);
        let pair = chosen(literals, trail);
        self.enter(number, literals, &pair)?;
        push_tight(&mut self.pairs, pair)?;
        self.pending.grow()?;
        self.wake(number, literals, trail);
        Ok(())
    }

    // Puts a clause that isn't empty into the lists of its watches.
    fn enter(&mut self, clause: u32, literals: &[Lit], pair: &Pair) -> Result<(), NoMemory>
        requires first { (literals.now ≡ [] → ⊥) → place pair.now.first < length self.old.lists }
        requires second { (literals.now ≡ [] → ⊥) → place pair.now.second < length self.old.lists }
        ensures lists { OnOk result (Enters self.old.lists self.new.lists clause
            literals.now pair.now) }
        ensures pairs { self.new.pairs ≡ self.old.pairs }
        ensures pending { self.new.pending ≡ self.old.pending }
    {
        if literals.is_empty() {
            return Ok(());
        }
        let blocker = pair.second;
        self.lists.push(pair.first, Entry { clause, blocker })?;
        if is_one(pair.first, pair.second) {
            return Ok(());
        }
        let blocker = pair.first;
        self.lists.push(pair.second, Entry { clause, blocker })?;
        Ok(())
    }

    // Puts a clause into the set if it is active, or will be where literals are freed.
    fn wake(&mut self, number: u32, literals: &[Lit], trail: &Trail)
        requires formed { IsTrail trail.now }
        requires clause { IsClause trail.now.vars literals.now }
        requires within { number < length self.old.pending }
        ensures lists { self.new.lists ≡ self.old.lists }
        ensures pairs { self.new.pairs ≡ self.old.pairs }
        ensures more { IsMore self.old.pending self.new.pending }
        ensures woken { MayWake trail.now.literals literals.now
            → has self.new.pending number ≡ true }
    {
        if !read(literals, trail).is_other() {
            self.pending.insert(number);
        }
    }
}

// The literals that a clause is to watch; for the empty one any.
fn chosen(literals: &[Lit], trail: &Trail) -> Pair
    requires { IsClause trail.now.vars literals.now }
    ensures { (literals.now ≡ [] → ⊥) → IsWatching trail.now.literals literals.now result }
{
    match literals {
        [] => twice(Lit::positive(1)),
        [only] => twice(*only),
        _ => last_two(literals, trail),
    }
}

// A pair of one literal.
fn twice(lit: Lit) -> Pair
    ensures { result ≡ record { first = lit; second = lit } }
{
    Pair {
        first: lit,
        second: lit,
    }
}

// The two literals of a clause that outlast the others.
fn last_two(literals: &[Lit], trail: &Trail) -> Pair
    requires clause { IsClause trail.now.vars literals.now }
    requires two { 2 ≤ length literals.now }
    ensures { IsChosen trail.now.literals literals.now result }
{
    let mut pair = ordered(literals[0], literals[1], trail);
    for at in 2..literals.len() {
        pair = pair.with(literals[at], trail);
    }
    pair
}

// Two literals, first the one that outlasts the other.
fn ordered(one: Lit, other: Lit, trail: &Trail) -> Pair
    requires over { IsOver trail.now.vars one }
    requires other_over { IsOver trail.now.vars other }
    requires apart { one ≡ other → ⊥ }
    ensures { IsOrdered trail.now.literals one other result }
{
    if trail.outlasts(one, other) {
        Pair {
            first: one,
            second: other,
        }
    } else {
        Pair {
            first: other,
            second: one,
        }
    }
}

impl Pair {
    // The two of the three that outlast the third.
    fn with(self, lit: Lit, trail: &Trail) -> Self
        requires over { IsOver trail.now.vars lit }
        requires first_over { IsOver trail.now.vars self.first }
        requires second_over { IsOver trail.now.vars self.second }
        requires not_first { self.first ≡ lit → ⊥ }
        requires not_second { self.second ≡ lit → ⊥ }
        ensures { (front : List Literal) → IsChosen trail.now.literals front self
            → IsChosen trail.now.literals (front ++ lit ∷ []) result }
    {
        if trail.outlasts(self.second, lit) {
            self
        } else {
            ordered(self.first, lit, trail)
        }
    }
}
