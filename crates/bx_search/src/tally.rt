//! How much a search did. Nothing of the search depends on these counts, no clause speaks of them, and they
//! stay at 64 bits' last number: they are for who measures.

/// What was done in a search.
#[derive(Clone, Copy)]
pub struct Tally {
    /// How often a clause was false.
    pub conflicts: u64,
    /// How many literals were assigned as a clause left nothing else.
    pub propagations: u64,
}

impl Tally {
    /// Nothing was done yet.
    pub(crate) fn new() -> Self {
        Tally {
            conflicts: 0,
            propagations: 0,
        }
    }

    /// A clause was false.
    pub(crate) fn add_conflict(&mut self) {
        self.conflicts = self.conflicts.saturating_add(1);
    }

    /// A unit clause's literal was assigned.
    pub(crate) fn add_propagation(&mut self) {
        self.propagations = self.propagations.saturating_add(1);
    }
}
