//! Races of several threads, each over a table of which indices are refuted: whatever the schedule is, the
//! least index at the end is the first that isn't.
ghost use Rattle.std.specs.Prelude.{◌≡◌, ◌<◌, ◌≤◌, ℕ, All, length, None};
ghost use Rattle.bx_race.specs.Seats.{draws, stands, indices_of, IsSeatOf, IsSameSeat, IsNewSeatOf};

use bx_logic::NoMemory;
use bx_race::{Race, RaceSeat};
use std::alloc::Global;
use std::process::Abort;
use std::test::Fail;
use std::thread;
use std::thread::Threads;

// Draws until an index isn't refuted, which is offered, or is dropped, or there is none any more.
fn works(rt: &impl Abort, race: &Race, refuted: &[bool], seat: &mut RaceSeat)
    requires new { IsNewSeatOf race.now seat.old }
    requires table { indices_of race.now ≡ length refuted.now }
    ensures seat { IsSameSeat race.now seat.old seat.new }
    ensures idle { (draws seat.new).current ≡ None }
{
    for _ in 0..=refuted.len() {
        let Some(index) = race.claim(seat) else {
            return;
        };
        if !race.look(seat) {
            return;
        }
        if !refuted[index as usize] {
            race.offer(seat);
            return;
        }
    }
    panic!(rt; "a worker drew more indices than there are");
}

// Each seat's worker in a thread; the seats as they are at the end.
fn all_work<R: Threads + Abort + Sync>(
    rt: &R,
    race: &Race,
    refuted: &[bool],
    mut seats: Vec<RaceSeat>,
) -> Vec<RaceSeat>
    requires new { All (IsNewSeatOf race.now) seats.items }
    requires table { indices_of race.now ≡ length refuted.now }
    ensures of_race { All (IsSeatOf race.now) result.items }
    ensures one { All (λ s. stands s ≡ 1) result.items }
    ensures idle { All (λ s. (draws s).current ≡ None) result.items }
    ensures count { length result.items ≡ length seats.items }
{
    thread::for_each_mut(
        rt,
        &mut seats,
        16,
        &|_, seat| works(rt, race, refuted, seat),
    );
    seats
}

fn least_of_race<R: Threads + Abort + Sync>(
    rt: &R,
    alloc: Global,
    refuted: &[bool],
    workers: u32,
) -> Result<u64, NoMemory>
    requires indices { length refuted.now ≤ 65536 }
    requires workers { (1 ≤ workers) × (workers ≤ 16) }
{
    let (race, seats) = Race::new(alloc, refuted.len() as u64, workers)?;
    let ended = all_work(rt, &race, refuted, seats);
    Ok(race.finish(ended)?.least())
}

/// Which indices are refuted.
const TABLES: &[&[bool]] = &[
    &[],
    &[true],
    &[false],
    &[true, false, true],
    &[false, false, false, false, false, false, false, false],
    &[
        true, true, true, true, true, true, true, true, true, true, true, true, true, true, true,
        true, true, true, true, false, true, true, false, true, false, false, true, true, true,
    ],
    &[
        true, true, true, true, true, true, true, true, true, true, true, true, true, true, true,
        true, true, true, true, true, true, true, true, true, true, true, true, true, true, true,
    ],
];

#[test]
fn workers_find_the_first_unrefuted_index(rt: HostRuntime) -> Result<(), Fail> {
    for &refuted in TABLES {
        for workers in 1..=16 {
            let least = least_of_race(&rt, rt.alloc(), refuted, workers)?;
            let first = refuted.iter().take_while(|&&is| is).count();
            assert_eq!(rt; least, first as u64, "{workers} workers");
        }
    }
    Ok(())
}
