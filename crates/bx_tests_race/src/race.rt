//! Races in one thread: which numbers are drawn, what a look is told, and the least index at the end.
ghost use Rattle.std.specs.Prelude.{◌≡◌, ℕ, false, sum_by, All, IsSome, IsTrue, None};
ghost use Rattle.bx_race.specs.Seats.{draws, stands, seats_of, IsSeatOf, IsSameSeat};

use bx_logic::NoMemory;
use bx_race::{Race, RaceSeat};
use std::process::Abort;
use std::test::Fail;

// The seat claims, and is told what is wanted.
fn claims(rt: &impl Abort, race: &Race, seat: &mut RaceSeat, wanted: Option<u64>)
    requires of_race { IsSeatOf race.now seat.old }
    requires in_race { (draws seat.old).past ≡ 0 }
    ensures seat { IsSameSeat race.now seat.old seat.new }
    ensures current { (draws seat.new).current ≡ wanted }
    ensures in_race { IsSome wanted → (draws seat.new).past ≡ 0 }
{
    assert_eq!(rt; race.claim(seat), wanted);
}

// The seat looks, and is told what is wanted.
fn looks(rt: &impl Abort, race: &Race, seat: &mut RaceSeat, wanted: bool)
    requires of_race { IsSeatOf race.now seat.old }
    requires drawn { IsSome (draws seat.old).current }
    ensures seat { IsSameSeat race.now seat.old seat.new }
    ensures past { (draws seat.new).past ≡ (draws seat.old).past }
    ensures current { IsTrue wanted → (draws seat.new).current ≡ (draws seat.old).current }
    ensures dropped { wanted ≡ false → (draws seat.new).current ≡ None }
{
    assert_eq!(rt; race.look(seat), wanted);
}

// The least index of the race, once it is over.
fn ends_at(rt: &impl Abort, race: Race, seats: Vec<RaceSeat>, wanted: u64) -> Result<(), NoMemory>
    requires of_race { All (IsSeatOf race) seats.items }
    requires all { sum_by stands seats.items ≡ seats_of race }
    requires idle { All (λ s. (draws s).current ≡ None) seats.items }
{
    assert_eq!(rt; race.finish(seats)?.least(), wanted);
    Ok(())
}

#[test]
fn a_race_of_no_indices_is_over_at_once(rt: HostRuntime) -> Result<(), Fail> {
    let (race, mut seats) = Race::new(rt.alloc(), 0, 1)?;
    claims(&rt, &race, &mut seats[0], None);
    ends_at(&rt, race, seats, 0)?;
    Ok(())
}

#[test]
fn one_seat_goes_through_a_race_alone(rt: HostRuntime) -> Result<(), Fail> {
    let (race, mut seats) = Race::new(rt.alloc(), 4, 1)?;
    claims(&rt, &race, &mut seats[0], Some(0));
    looks(&rt, &race, &mut seats[0], true);
    claims(&rt, &race, &mut seats[0], Some(1));
    looks(&rt, &race, &mut seats[0], true);
    race.offer(&mut seats[0]);
    ends_at(&rt, race, seats, 1)?;
    Ok(())
}

#[test]
fn where_no_index_is_offered_the_least_is_their_number(rt: HostRuntime) -> Result<(), Fail> {
    let (race, mut seats) = Race::new(rt.alloc(), 2, 1)?;
    claims(&rt, &race, &mut seats[0], Some(0));
    claims(&rt, &race, &mut seats[0], Some(1));
    claims(&rt, &race, &mut seats[0], None);
    ends_at(&rt, race, seats, 2)?;
    Ok(())
}

#[test]
fn a_seat_may_claim_after_its_own_offer_and_drop(rt: HostRuntime) -> Result<(), Fail> {
    let (race, mut seats) = Race::new(rt.alloc(), 3, 1)?;
    claims(&rt, &race, &mut seats[0], Some(0));
    race.offer(&mut seats[0]);
    claims(&rt, &race, &mut seats[0], Some(1));
    looks(&rt, &race, &mut seats[0], false);
    claims(&rt, &race, &mut seats[0], Some(2));
    looks(&rt, &race, &mut seats[0], false);
    claims(&rt, &race, &mut seats[0], None);
    ends_at(&rt, race, seats, 0)?;
    Ok(())
}

#[test]
fn an_index_is_dropped_once_one_below_it_is_offered(rt: HostRuntime) -> Result<(), Fail> {
    let (race, mut seats) = Race::new(rt.alloc(), 3, 2)?;
    claims(&rt, &race, &mut seats[0], Some(0));
    claims(&rt, &race, &mut seats[1], Some(1));
    race.offer(&mut seats[1]);
    looks(&rt, &race, &mut seats[0], true);
    claims(&rt, &race, &mut seats[0], Some(2));
    looks(&rt, &race, &mut seats[0], false);
    // Three numbers are drawn, so the next is no index.
    claims(&rt, &race, &mut seats[0], None);
    ends_at(&rt, race, seats, 1)?;
    Ok(())
}

#[test]
fn a_later_offer_does_not_raise_the_least(rt: HostRuntime) -> Result<(), Fail> {
    let (race, mut seats) = Race::new(rt.alloc(), 2, 2)?;
    claims(&rt, &race, &mut seats[0], Some(0));
    claims(&rt, &race, &mut seats[1], Some(1));
    race.offer(&mut seats[0]);
    race.offer(&mut seats[1]);
    ends_at(&rt, race, seats, 0)?;
    Ok(())
}

#[test]
fn more_seats_than_indices_are_past_them(rt: HostRuntime) -> Result<(), Fail> {
    let (race, mut seats) = Race::new(rt.alloc(), 1, 2)?;
    claims(&rt, &race, &mut seats[1], Some(0));
    claims(&rt, &race, &mut seats[0], None);
    race.offer(&mut seats[1]);
    ends_at(&rt, race, seats, 0)?;
    Ok(())
}

#[test]
fn the_largest_race_can_be_made(rt: HostRuntime) -> Result<(), Fail> {
    let (race, mut seats) = Race::new(rt.alloc(), 65_536, 16)?;
    claims(&rt, &race, &mut seats[15], Some(0));
    claims(&rt, &race, &mut seats[0], Some(1));
    Ok(())
}
