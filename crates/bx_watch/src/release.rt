//! A literal that was true is free again: the clauses that it alone met, and that were taken out of the
//! set for this, may be active again. They are parked at it, so no list of watches is gone through. What a
//! clause watches was right before the literal was assigned.
ghost use Rattle.std.specs.Prelude.{◌≡◌, ◌<◌, length};
ghost use Rattle.bx_watch.specs.Lists.{place};
ghost use Rattle.bx_watch.specs.Keeping.{tables_of, AreWithin, Releases};

use crate::lists::Lists;
use crate::watches::Watches;
use bx_cnf::Lit;

impl Watches {
    /// Puts the clauses that are parked at a literal, which was freed, back into the set.
    pub(crate) fn release(&mut self, lit: Lit, parked: &mut Lists)
        requires listed { place lit < length parked.old }
        requires within { AreWithin (length self.old.pending) parked.old }
        ensures { Releases lit (tables_of self.old) (tables_of self.new) parked.old parked.new }
    {
        for item in parked.of(lit) {
            self.pending.insert(item.clause);
        }
        parked.clear(lit);
    }
}
