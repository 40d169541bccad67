//! A worker: it draws ratios of a problem one by one and finds out what is known of each, until one isn't refuted, or
//! is dropped, or there is none any more.
ghost use Rattle.std.specs.Prelude.{◌≡◌, ◌<◌, ◌≤◌, ◌+◌, ◌++◌, ◌∷◌, ℕ, [], length, IfOk, IfSome, IsTrue, None, Some, MatchBool, MatchOption};
ghost use Rattle.bx_race.specs.Draws.{no_draws, has_ended, dropping, offering};
ghost use Rattle.bx_race.specs.Seats.{draws, looks, indices_of, IsSeatOf, IsSameSeat};
ghost use Rattle.bx_workers.specs.Results.{room_of, tried_of};
ghost use Rattle.bx_workers.specs.Working.{ratio_count, is_refuted, AreResults, IsEndAt, IsProblem, LookedFor};

use crate::problem::Problem;
use crate::pulse::Looking;
use crate::results::{Ended, Results, Tried, end_of};
use bx_desk::Gate;
use bx_logic::NoMemory;
use bx_race::{Race, RaceSeat};
use bx_verdict::{Trial, judge};
use std::alloc::Global;

/// A worker of a race: its seat, and what it found out.
#[derive(Drop)]
pub struct Worker {
    pub seat: RaceSeat,
    pub results: Results,
}

impl Worker {
    /// A worker without results, with room for so many. After a refusal the seat is gone.
    ///
    /// # Errors
    ///
    /// `NoMemory`.
    pub fn new(alloc: Global, seat: RaceSeat, room: u64) -> Result<Worker, NoMemory>
        ensures seat { IfOk result (λ w. w.seat ≡ seat) }
        ensures none { IfOk result (λ w. tried_of w.results ≡ []) }
        ensures room { IfOk result (λ w. room ≤ room_of w.results) }
    {
        let results = Results::with_room(alloc, room)?;
        Ok(Worker { seat, results })
    }

    /// Works on one ratio after the other, each told to the gate, with one formula at a time: draws its index; looks
    /// whether it is wanted; tries it, and looks again and again while its formula is searched; and draws again
    /// where it is refuted. An index that is found, left undecided or refused memory is offered. It ends by an offer,
    /// by a look that says no, which leaves the index without a result, or once the indices are drawn.
    pub fn work<G: Gate + Sync>(&mut self, alloc: Global, race: &Race, problem: &Problem, gate: &G)
        requires problem { IsProblem problem.now }
        requires seat { IsSeatOf race.now self.old.seat }
        requires unused { draws self.old.seat ≡ no_draws }
        requires race { indices_of race.now ≡ ratio_count problem.now }
        requires none { tried_of self.old.results ≡ [] }
        requires room { ratio_count problem.now ≤ room_of self.old.results }
        ensures seat { IsSameSeat race.now self.old.seat self.new.seat }

        // How it ended.
        ensures idle { (draws self.new.seat).current ≡ None }
        ensures ended { IsTrue (has_ended (draws self.new.seat)) }
        ensures one_end { length (draws self.new.seat).offered
            + length (draws self.new.seat).dropped ≤ 1 }

        // What it found out, and that it looked for it.
        ensures results { AreResults problem.now (draws self.new.seat) (tried_of self.new.results) }
        ensures looks { LookedFor problem.now (tried_of self.new.results)
            (looks self.old.seat) (looks self.new.seat) }
    {
        while let Some(index) = race.claim(&mut self.seat) {
            gate.enter(index);
            let ended = try_index(alloc, race, &mut self.seat, problem, index);
            gate.leave(index);
            let Some(ended) = ended else {
                return;
            };
            if !self.keep(race, Tried { index, ended }) {
                return;
            }
        }
    }

    // Keeps what is known of the current index, which is offered unless it is refuted. Whether it is, so that work
    // goes on.
    fn keep(&mut self, race: &Race, tried: Tried) -> bool
        requires of_race { IsSeatOf race.now self.old.seat }
        requires current { (draws self.old.seat).current ≡ Some tried.index }
        requires room { length (tried_of self.old.results) < room_of self.old.results }
        ensures goes_on { result ≡ is_refuted tried.ended }
        ensures more { tried_of self.new.results ≡ tried_of self.old.results ++ tried ∷ [] }
        ensures room { room_of self.old.results ≤ room_of self.new.results }
        ensures seat { IsSameSeat race.now self.old.seat self.new.seat }
        ensures draws { MatchBool result (draws self.new.seat ≡ draws self.old.seat)
            (draws self.new.seat ≡ offering (draws self.old.seat)) }
        ensures looks { looks self.new.seat ≡ looks self.old.seat }
    {
        let refuted = matches!(tried.ended, Ended::Refuted(_));
        self.results.put(tried);
        if !refuted {
            race.offer(&mut self.seat);
        }
        refuted
    }
}

// What is known of the ratio at the current index; none where a look said no, and then the index is dropped.
fn try_index(
    alloc: Global,
    race: &Race,
    seat: &mut RaceSeat,
    problem: &Problem,
    index: u64,
) -> Option<Ended>
    requires problem { IsProblem problem.now }
    requires of_race { IsSeatOf race.now seat.old }
    requires current { (draws seat.old).current ≡ Some index }
    requires inside { index < ratio_count problem.now }
    ensures seat { IsSameSeat race.now seat.old seat.new }
    ensures draws { MatchOption result (draws seat.new ≡ dropping (draws seat.old))
        (λ _. draws seat.new ≡ draws seat.old) }
    ensures end { IfSome result (λ ended. IsEndAt problem.now index ended) }
    ensures looks { IfSome result (λ ended. LookedFor problem.now
        (record { index = index; ended = ended } ∷ []) (looks seat.old) (looks seat.new)) }
    ensures more_looks { looks seat.old ≤ looks seat.new }
{
    if !race.look(seat) {
        return None;
    }
    let ratio = problem.ratios.at(index);
    let mut pulse = Looking { race, seat };
    match judge(
        alloc,
        problem.net,
        problem.permit,
        ratio,
        problem.budget,
        &mut pulse,
    ) {
        Ok(Trial::Ended(verdict)) => Some(end_of(verdict)),
        Ok(Trial::Stopped) => None,
        Err(NoMemory) => Some(Ended::NoMemory),
    }
}
