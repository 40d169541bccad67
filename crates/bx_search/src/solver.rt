//! The state of a search: what is assigned, the order of the decisions, the values that they give, what
//! was learned and what it cost. Each part stands in a type of its own, which promises what its calls
//! make of it; here they are kept in agreement. What happens next is said beside: `propagate`, `decide`,
//! `learn` and `backtrack` each make the state of the search that the definition says.
ghost use Rattle.std.specs.Prelude.{◌≡◌, IfOk, OnOk, ◌<◌, ◌^◌, [], false, replicate};
ghost use Rattle.std.specs.List.{range_with_len};
ghost use Rattle.bx_queue.specs.Queue.{IsQueue};
ghost use Rattle.bx_watch.specs.Watching.{IsWatch, IsLeastActive};
ghost use Rattle.bx_search.specs.States.{start};
ghost use Rattle.bx_search.specs.Searching.{IsQuiet};
ghost use Rattle.bx_search.specs.Solving.{IsSolver, state_of, GoesTo, Moves, Finds};

use crate::analyze::Analysis;
use crate::tally::Tally;
use crate::trail::Trail;
use bx_cnf::Clauses;
use bx_logic::NoMemory;
use bx_proof::Steps;
use bx_queue::MoveFront;
use bx_watch::{Active, Watched};
use std::alloc::Global;

/// A search of a formula, in one of its states.
#[derive(Drop)]
pub(crate) struct Solver<'a> {
    pub(crate) clauses: &'a Clauses,
    pub(crate) watched: Watched<'a>,
    pub(crate) queue: MoveFront,
    pub(crate) trail: Trail,
    // of each variable, variable 1 first, the value that a decision gives it
    pub(crate) phases: Vec<bool>,
    pub(crate) steps: Steps,
    // what the steps cost
    pub(crate) spent: u64,
    pub(crate) analysis: Analysis,
    // what was done so far, for who measures
    pub(crate) tally: Tally,
}

/// What comes next in a search.
pub(crate) enum Next {
    /// A literal was assigned.
    Assigned,
    /// The clause of this number is false.
    Conflict(u32),
    /// All variables have values, and no clause is unit or false.
    Complete,
}

impl<'a> Solver<'a> {
    /// The start of the search.
    ///
    /// # Errors
    ///
    /// `NoMemory`.
    pub(crate) fn new(alloc: Global, clauses: &'a Clauses) -> Result<Self, NoMemory>
        ensures agrees { IfOk result IsSolver }
        ensures formula { IfOk result (λ s. s.clauses.now ≡ clauses.now) }
        ensures state { IfOk result (λ s. state_of s ≡ start clauses.now.vars) }
    {
        let watched = Watched::new(alloc, clauses)?;
        let queue = MoveFront::new(alloc, clauses.vars())?;
        let trail = Trail::new(alloc, clauses.vars())?;
        Solver::with(alloc, clauses, watched, queue, trail)
    }

    // The start of the search, with what is assigned and the order of the decisions as they are at first.
    fn with(
        alloc: Global,
        clauses: &'a Clauses,
        watched: Watched<'a>,
        queue: MoveFront,
        trail: Trail,
    ) -> Result<Self, NoMemory>
        requires watched { watched
            ≡ record { vars = clauses.now.vars; clauses = clauses.now.clauses; trail = [] } }
        requires ordered { IsQueue queue }
        requires order { queue.order ≡ range_with_len 1 clauses.now.vars }
        requires free { queue.taken ≡ replicate clauses.now.vars false }
        requires trail { trail ≡ record { vars = clauses.now.vars; entries = [] } }
        ensures agrees { IfOk result IsSolver }
        ensures formula { IfOk result (λ s. s.clauses.now ≡ clauses.now) }
        ensures state { IfOk result (λ s. state_of s ≡ start clauses.now.vars) }
    {
        let vars = clauses.vars();
        // With as many clauses as there are numbers nothing is left of the budget, and no step is added.
        let first = clauses.len().saturating_add(1);
        Ok(Solver {
            clauses,
            watched,
            queue,
            trail,
            phases: vec![in alloc; false; vars as usize]?,
            steps: Steps::new(alloc, first),
            spent: 0,
            analysis: Analysis::new(alloc, vars)?,
            tally: Tally::new(),
        })
    }

    /// Goes on by one event that assigns a literal, if there is one.
    ///
    /// # Errors
    ///
    /// `NoMemory`, and then this value is only to be dropped.
    pub(crate) fn next(&mut self) -> Result<Next, NoMemory>
        requires { IsSolver self.old }
        ensures { IfOk result (GoesTo self.old self.new) }
    {
        match self.watched.least_active() {
            Some(active) => self.follow(active),
            None => self.choose(),
        }
    }

    // Propagates the least-numbered active clause if it is unit.
    fn follow(&mut self, active: Active) -> Result<Next, NoMemory>
        requires agrees { IsSolver self.old }
        requires formed { IsWatch self.old.watched }
        requires least { IsLeastActive self.old.watched active }
        ensures { IfOk result (GoesTo self.old self.new) }
    {
        match active {
            Active::Unit(id, lit) => {
                self.propagate(id, lit)?;
                Ok(Next::Assigned)
            }
            Active::False(id) => Ok(Next::Conflict(id)),
        }
    }

    // Decides where no clause is active.
    fn choose(&mut self) -> Result<Next, NoMemory>
        requires agrees { IsSolver self.old }
        requires quiet { IsQuiet self.old.clauses.now (state_of self.old) }
        ensures { IfOk result (GoesTo self.old self.new) }
    {
        let Some(var) = self.queue.first_unassigned() else {
            return Ok(Next::Complete);
        };
        self.decide(var)?;
        Ok(Next::Assigned)
    }

    /// Goes on until a clause is false, and gives its number, or until all variables have values.
    ///
    /// # Errors
    ///
    /// `NoMemory`, and then this value is only to be dropped.
    pub(crate) fn settle(&mut self) -> Result<Option<u32>, NoMemory>
        requires { IsSolver self.old }
        ensures moves { OnOk result (Moves self.old self.new) }
        ensures finds { IfOk result (Finds self.new) }
    {
        loop {
            match self.next()? {
                Next::Assigned => {}
                Next::Conflict(id) => {
                    self.tally.add_conflict();
                    return Ok(Some(id));
                }
                Next::Complete => return Ok(None),
            }
        }
    }
}
