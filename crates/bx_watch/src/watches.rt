//! Which literals each clause watches, the lists that lead from a literal to its clauses, and the set of
//! the clauses that may be active. What an event makes of them is said beside: `falsify`, `release` and
//! `attach` keep that each active clause is in the set, and `clean` that its least one is active.
ghost use Rattle.std.specs.Prelude.{◌≡◌, ◌*◌, ◌<◌, true, false, [], IfOk, length};
ghost use Rattle.bx_watch.specs.Readings.{IsTrail};
ghost use Rattle.bx_watch.specs.Lists.{place};
ghost use Rattle.bx_watch.specs.Watches.{IsOf, HasOther};
ghost use Rattle.bx_watch.specs.Keeping.{tables_of, IsReady};

use crate::lists::{Lists, place};
use crate::store::Store;
use crate::trail::Trail;
use bx_cnf::Lit;
use bx_least_set::LeastSet;
use bx_logic::NoMemory;
use std::alloc::Global;

/// The two literals that a clause watches; of a clause of one literal that one twice, and of the empty
/// clause any.
#[derive(Drop)]
pub(crate) struct Pair {
    pub(crate) first: Lit,
    pub(crate) second: Lit,
}

/// The watches of clauses.
#[derive(Drop)]
pub(crate) struct Watches {
    pub(crate) lists: Lists,
    // of each clause
    pub(crate) pairs: Vec<Pair>,
    // the clauses that may be active, all that are among them
    pub(crate) pending: LeastSet,
}

impl Pair {
    /// The other watch than this literal, and none where it is no watch.
    pub(crate) fn other(&self, lit: Lit) -> Option<Lit>
        ensures { HasOther self.now lit result }
    {
        if self.first == lit {
            Some(self.second)
        } else if self.second == lit {
            Some(self.first)
        } else {
            None
        }
    }

    /// Whether a literal is one of the two.
    pub(crate) fn has(&self, lit: Lit) -> bool
        ensures yes { result ≡ true → IsOf self.now lit }
        ensures no { result ≡ false → IsOf self.now lit → ⊥ }
    {
        self.first == lit || self.second == lit
    }
}

impl Watches {
    /// The watches of these clauses where nothing is assigned.
    ///
    /// # Errors
    ///
    /// `NoMemory`.
    pub(crate) fn new(alloc: Global, store: &Store, trail: &Trail) -> Result<Self, NoMemory>
        requires formed { IsTrail trail.now }
        requires one_size { trail.now.vars ≡ store.now.vars }
        requires start { trail.now.literals ≡ [] }
        ensures { IfOk result (λ w. IsReady store.now trail.now.literals (tables_of w)) }
    {
        let counts = counts(alloc, store)?;
        let mut watches = Watches {
            lists: Lists::new(alloc, &counts)?,
            pairs: Vec::with_capacity(alloc, store.len() as usize)?,
            pending: LeastSet::new(alloc, 0)?,
        };
        for number in 0..store.len() {
            watches.attach(number, store, trail)?;
        }
        Ok(watches)
    }
}

/// Whether two literals are one.
pub(crate) fn is_one(one: Lit, other: Lit) -> bool
    ensures yes { result ≡ true → one ≡ other }
    ensures no { result ≡ false → one ≡ other → ⊥ }
{
    one == other
}

// For each literal how many clauses have it as their first or second one.
fn counts(alloc: Global, store: &Store) -> Result<Vec<u32>, NoMemory>
    ensures { IfOk result (λ counts. length counts.items ≡ 2 * store.now.vars) }
{
    let mut counts = vec![in alloc; 0_u32; 2 * store.vars() as usize]?;
    for number in 0..store.len() {
        let clause = store.clause(number);
        for lit in &clause[..clause.len().min(2)] {
            count(&mut counts, *lit);
        }
    }
    Ok(counts)
}

// Counts a literal.
fn count(counts: &mut [u32], lit: Lit)
    requires { place lit < length counts.old }
{
    let count = &mut counts[place(lit)];
    *count = count.saturating_add(1);
}
