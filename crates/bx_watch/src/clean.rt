//! The set of the clauses that may be active is cleaned at its start alone: those further on may become
//! active again before they are asked for. A clause that is met by one literal alone is active again when
//! that one is freed, so it is parked there; one with two literals that aren't false was never active
//! under a front of the trail, and an assignment finds it again by its watches.
ghost use Rattle.std.specs.Prelude.{◌≡◌, ◌<◌, OnOk, length};
ghost use Rattle.bx_cnf.specs.Literals.{Literal};
ghost use Rattle.bx_watch.specs.Readings.{IsTrail};
ghost use Rattle.bx_watch.specs.Lists.{place};
ghost use Rattle.bx_watch.specs.Keeping.{tables_of, AreParked, ArePending, Parks, Cleans};

use crate::lists::{Entry, Lists};
use crate::reading::{Reading, read};
use crate::store::Store;
use crate::trail::Trail;
use crate::watches::Watches;
use bx_logic::NoMemory;

impl Watches {
    /// Takes clauses that aren't active out of the set, up to the first that is.
    ///
    /// # Errors
    ///
    /// `NoMemory`.
    pub(crate) fn clean(
        &mut self,
        parked: &mut Lists,
        store: &Store,
        trail: &Trail,
    ) -> Result<(), NoMemory>
        requires formed { IsTrail trail.now }
        requires one_size { trail.now.vars ≡ store.now.vars }
        requires sized { length self.old.pending ≡ length store.now.clauses }
        requires parked { AreParked store.now parked.old }
        requires pending { ArePending store.now trail.now.literals self.old.pending parked.old }
        ensures { OnOk result (Cleans store.now trail.now.literals (tables_of self.old)
            (tables_of self.new) parked.new) }
    {
        while let Some(number) = self.pending.least() {
            let reading = read(store.clause(number), trail);
            if reading.is_active() {
                return Ok(());
            }
            park(number, reading, parked)?;
            self.pending.remove(number);
        }
        Ok(())
    }
}

// Parks a clause at the literal that alone meets it, if there is one.
fn park(clause: u32, reading: Reading, parked: &mut Lists) -> Result<(), NoMemory>
    requires { (l : Literal) → reading ≡ Reading.Met l → place l < length parked.old }
    ensures { OnOk result (Parks parked.old parked.new reading clause) }
{
    match reading {
        Reading::Met(blocker) => parked.push(blocker, Entry { clause, blocker }),
        Reading::False | Reading::Unit(_) | Reading::Other => Ok(()),
    }
}
