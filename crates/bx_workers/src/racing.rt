//! The race of all workers over the ratios of a problem.
ghost use Rattle.std.specs.Prelude.{◌≡◌, ◌≤◌, length, map, flat_map, All, IfOk};
ghost use Rattle.bx_layout.specs.Permits.{test_of};
ghost use Rattle.bx_race.specs.Finished.{least_of};
ghost use Rattle.bx_race.specs.Seats.{indices_of};
ghost use Rattle.bx_verdict.specs.Settling.{AreSettled, ShowInOrder};
ghost use Rattle.bx_workers.specs.Racing.{HasWorked, IsNewWorker, IsRaceOver, IsUnused};
ghost use Rattle.bx_workers.specs.Results.{tried_of};
ghost use Rattle.bx_workers.specs.Working.{ratio_count, IsProblem};

use crate::order::{all_refuted, in_order, last_of};
use crate::problem::Problem;
use crate::refutations::Refutations;
use crate::results::Tried;
use crate::worker::Worker;
use bx_desk::Gate;
use bx_logic::NoMemory;
use bx_race::{Finished, Race, RaceSeat};
use bx_verdict::Last;
use std::alloc::Global;
use std::thread;
use std::thread::Threads;

/// The most threads that work at one time, as a race has no more seats.
const MOST_THREADS: usize = 16;

/// What a race came to.
#[derive(Drop)]
pub struct Raced {
    /// The race itself.
    pub finished: Finished,
    /// The index of the first ratio that isn't refuted, or the number of ratios.
    pub least: u64,
    /// Of each ratio before that one, why it has no layout.
    pub refutations: Refutations,
    /// What is known of that one.
    pub last: Last,
}

/// What is known of a problem's ratios: the refutations of all before the first that isn't refuted, and what is known
/// of that one. So many workers race for it, each in a thread of its own where one can be started; what they find
/// doesn't depend on how many there are. Want of memory at a later ratio is no matter.
///
/// # Errors
///
/// `NoMemory`.
pub fn race_all<T: Threads + Sync, G: Gate + Sync>(
    threads: &T,
    alloc: Global,
    problem: &Problem,
    workers: u32,
    gate: &G,
) -> Result<Raced, NoMemory>
    requires problem { IsProblem problem.now }
    requires workers { (1 ≤ workers) × (workers ≤ 16) }
    ensures exact { IfOk result (λ raced.
        AreSettled problem.now.net.now (test_of problem.now.permit.now) problem.now.budget
        problem.now.ratios.now raced.refutations raced.last) }
    ensures shows { IfOk result (λ raced.
        ShowInOrder problem.now.net.now (test_of problem.now.permit.now)
        problem.now.ratios.now raced.refutations raced.last) }
    ensures count { IfOk result (λ raced. length raced.refutations ≡ raced.least) }

    // It comes of a race that was run to its end, with that many seats.
    ensures least { IfOk result (λ raced. raced.least ≡ least_of raced.finished) }
    ensures finished { IfOk result (λ raced. IsRaceOver problem.now workers raced.finished) }
{
    // (known from here on: the net is a network)
    let _nodes = problem.net.node_count();
    let count = problem.ratios.len();
    let (race, seats) = Race::new(alloc, count, workers)?;
    let crew = make_crew(alloc, seats, count)?;
    let crew = all_work(threads, alloc, &race, problem, gate, crew);
    let (seats, tried) = take_apart(alloc, crew)?;
    let finished = race.finish(seats)?;
    let least = finished.least();
    let ordered = in_order(alloc, tried, least)?;
    let refutations = all_refuted(alloc, ordered.refuted)?;
    let last = last_of(ordered.end)?;
    Ok(Raced {
        finished,
        least,
        refutations,
        last,
    })
}

// A worker for each seat, with room for so many results.
fn make_crew(alloc: Global, seats: Vec<RaceSeat>, room: u64) -> Result<Vec<Worker>, NoMemory>
    ensures seats { IfOk result (λ crew. map (λ w. w.seat) crew.items ≡ seats.items) }
    ensures unused { IfOk result (λ crew. All (IsUnused room) crew.items) }
{
    let mut crew = Vec::with_capacity(alloc, seats.len())?;
    for seat in seats {
        crew.push(Worker::new(alloc, seat, room)?)?;
    }
    Ok(crew)
}

// The workers, once all have worked, each in a thread.
fn all_work<T: Threads + Sync, G: Gate + Sync>(
    threads: &T,
    alloc: Global,
    race: &Race,
    problem: &Problem,
    gate: &G,
    mut crew: Vec<Worker>,
) -> Vec<Worker>
    requires problem { IsProblem problem.now }
    requires race { indices_of race.now ≡ ratio_count problem.now }
    requires new { All (IsNewWorker problem.now race.now) crew.items }
    ensures count { length result.items ≡ length crew.items }
    ensures worked { All (HasWorked problem.now race.now) result.items }
{
    thread::for_each_mut(
        threads,
        &mut crew,
        MOST_THREADS,
        &|_, worker: &mut Worker|
            requires { IsProblem problem.now × (indices_of race.now ≡ ratio_count problem.now)
                × IsNewWorker problem.now race.now worker.old }
        { works(alloc, race, problem, gate, worker) },
    );
    crew
}

fn works<G: Gate + Sync>(
    alloc: Global,
    race: &Race,
    problem: &Problem,
    gate: &G,
    worker: &mut Worker,
)
    requires problem { IsProblem problem.now }
    requires race { indices_of race.now ≡ ratio_count problem.now }
    requires new { IsNewWorker problem.now race.now worker.old }
    ensures { HasWorked problem.now race.now worker.new }
{
    worker.work(alloc, race, problem, gate);
}

// The seats of all workers, and all that they found out.
fn take_apart(alloc: Global, crew: Vec<Worker>) -> Result<(Vec<RaceSeat>, Vec<Tried>), NoMemory>
    ensures seats { IfOk result (λ r. r.0.items ≡ map (λ w. w.seat) crew.items) }
    ensures tried { IfOk result (λ r. r.1.items
        ≡ flat_map (λ w. tried_of w.results) crew.items) }
{
    let mut seats = Vec::with_capacity(alloc, crew.len())?;
    let mut all = Vec::new(alloc);
    for worker in crew {
        let Worker { seat, results } = worker;
        seats.push(seat)?;
        all.append(&mut results.into_vec())?;
    }
    Ok((seats, all))
}
