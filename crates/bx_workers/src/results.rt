//! What a worker found out, index by index. The room for all of it is taken at once, so that keeping a result isn't
//! refused.
ghost use Rattle.std.specs.Prelude.{◌≡◌, ◌<◌, ◌≤◌, ◌++◌, ◌∷◌, [], length, IfOk};
ghost use Rattle.bx_workers.specs.Results.{ended_of, room_of, tried_of};

use bx_cnf::Bits;
use bx_logic::NoMemory;
use bx_proof::Refutation;
use bx_verdict::Ended as Verdict;
use std::alloc::Global;

/// How a worker ended with a ratio.
#[derive(Drop)]
pub enum Ended {
    /// It has no layout, for this reason.
    Refuted(Refutation),
    /// It has a layout: these bits make every clause of its formula true.
    Found(Bits),
    /// The search spent so much, and its next step would pass the budget.
    Undecided(u64),
    /// Memory was refused, and nothing is known of it.
    NoMemory,
}

/// A ratio that a worker has ended with.
#[derive(Drop)]
pub struct Tried {
    /// Its index in the order of ratios.
    pub index: u64,
    pub ended: Ended,
}

/// The ratios that a worker has ended with, in turn.
#[derive(Drop)]
pub struct Results {
    tried: Vec<Tried>,
}

impl Results {
    /// No results, and room for so many.
    pub(crate) fn with_room(alloc: Global, room: u64) -> Result<Results, NoMemory>
        ensures none { IfOk result (λ results. tried_of results ≡ []) }
        ensures room { IfOk result (λ results. room ≤ room_of results) }
    {
        let tried = Vec::with_capacity(alloc, room as usize)?;
        Ok(Results { tried })
    }

    /// One result more.
    pub(crate) fn put(&mut self, tried: Tried)
        requires room { length (tried_of self.old) < room_of self.old }
        ensures more { tried_of self.new ≡ tried_of self.old ++ tried ∷ [] }
        ensures room { room_of self.old ≤ room_of self.new }
    {
        let Ok(()) = self.tried.push(tried) else {
            unreachable!()
        };
    }

    /// The results, taken out. Takes no memory.
    pub fn into_vec(self) -> Vec<Tried>
        ensures { result.items ≡ tried_of self }
    {
        self.tried
    }
}

/// The verdict, as a worker's end.
pub(crate) fn end_of(verdict: Verdict) -> Ended
    ensures { result ≡ ended_of verdict }
{
    match verdict {
        Verdict::Refuted(proof) => Ended::Refuted(proof),
        Verdict::Found(bits) => Ended::Found(bits),
        Verdict::Undecided(spent) => Ended::Undecided(spent),
    }
}
