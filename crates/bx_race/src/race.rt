//! A race's two words, and the steps on them: each is one atomic step.
ghost use Rattle.std.specs.Prelude.{◌≡◌, ◌⊎◌, ◌<◌, ◌≤◌, ◌+◌, ◌-◌, ℕ, not, length, sum_by, All, Contains, IsSome, IsOk, IfOk, IfSome, None, MatchBool, MatchOption};
ghost use Rattle.bx_race.specs.Draws.{no_draws, times, indices, index_below, claiming, offering, dropping, is_above, looking};
ghost use Rattle.bx_race.specs.Fair.{RespectsLeast};
ghost use Rattle.bx_race.specs.Rule.{AreDifferentBelow, joint};

use crate::finished::Finished;
use crate::rule::{Claims, Closes, Joined, Looks, Offers, OneSeat, Raced};
use crate::seat::RaceSeat;
use crate::view::{Course, View};
use atomic_table::{Seat, Table};
use bx_logic::NoMemory;
use std::alloc::Global;

/// The word that counts the claims.
const CLAIMS: usize = 0;

/// The word of the least index that was offered, or of the number of indices where none was.
const LEAST: usize = 1;

/// What all workers of a race share.
#[derive(Drop)]
pub struct Race {
    table: Table<(), View, Course, Raced, Global>,
    n: u64,
    ghost two_words: { table.shared.table_id.words ≡ 2 },
    ghost same_n: { table.shared.key.n ≡ n },
    ghost few_indices: { n ≤ 65536 },
    ghost some_seat: { 1 ≤ table.shared.key.seats },
    ghost few_seats: { table.shared.key.seats ≤ 16 },
}

impl Race {
    ghost use Rattle.bx_race.specs.Seats.{draws, looks, stands, indices_of, seats_of, IsSeatOf, IsSameSeat, IsNewSeatOf};
    ghost use Rattle.bx_race.specs.Finished.{total, least_of, IsTogether, AreClaims, HaveEnded};

    /// A race over the indices below `n`, with so many seats.
    pub fn new(alloc: Global, n: u64, seats: u32) -> Result<(Race, Vec<RaceSeat>), NoMemory>
        requires indices { n ≤ 65536 }
        requires seats { (1 ≤ seats) × (seats ≤ 16) }
        ensures race { IfOk result (λ r. (indices_of r.0 ≡ n) × (seats_of r.0 ≡ seats)) }
        ensures count { IfOk result (λ r. length r.1.items ≡ seats) }
        ensures each { IfOk result (λ r. All (IsNewSeatOf r.0) r.1.items) }
    {
        let (race, mut rest) = Race::begin(alloc, n, seats)?;
        let mut row = Vec::with_capacity(alloc, seats as usize)?;
        for _ in 1..seats {
            row.push(race.cut_off(&mut rest))?;
        }
        row.push(rest)?;
        Ok((race, row))
    }

    // The race, and one seat that stands for all.
    fn begin(alloc: Global, n: u64, seats: u32) -> Result<(Race, RaceSeat), NoMemory>
        requires indices { n ≤ 65536 }
        requires seats { (1 ≤ seats) × (seats ≤ 16) }
        ensures race { IfOk result (λ r. (indices_of r.0 ≡ n) × (seats_of r.0 ≡ seats)) }
        ensures seat { IfOk result (λ r. IsSeatOf r.0 r.1 × (stands r.1 ≡ seats)
            × (draws r.1 ≡ no_draws) × (looks r.1 ≡ 0)) }
    {
        let (table, seat) = Table::of_words(alloc, &[0, n], &Course { n, seats })?;
        let all = RaceSeat {
            current: None,
            seat,
        };
        Ok((Race { table, n }, all))
    }

    // A seat of its own, from one that stands for more and has claimed nothing.
    fn cut_off(&self, rest: &mut RaceSeat) -> RaceSeat
        requires of_race { IsSeatOf self.now rest.old }
        requires more { 2 ≤ stands rest.old }
        requires unused { draws rest.old ≡ no_draws }
        ensures new { IsNewSeatOf self.now result }
        ensures rest { IsSeatOf self.now rest.new × (draws rest.new ≡ no_draws)
            × (looks rest.new ≡ looks rest.old) × (stands rest.new + 1 ≡ stands rest.old) }
    {
        let seat = self.table.shared.split_seat::<OneSeat>(&mut rest.seat);
        RaceSeat {
            current: None,
            seat,
        }
    }

    /// Draws the next number. The index that was current is done; the number is current where it is an
    /// index, and otherwise the seat is past them and draws no more. A seat may claim after its own offer
    /// or drop.
    pub fn claim(&self, seat: &mut RaceSeat) -> Option<u64>
        requires of_race { IsSeatOf self.now seat.old }
        requires in_race { (draws seat.old).past ≡ 0 }
        ensures seat { IsSameSeat self.now seat.old seat.new }
        ensures drawn { (x : ℕ) × (result ≡ index_below (indices_of self.now) x)
            × (draws seat.new ≡ claiming (indices_of self.now) x (draws seat.old)) }
        ensures current { (draws seat.new).current ≡ result }
        ensures index { IfSome result (λ i. i < indices_of self.now) }
        ensures past { MatchOption result
            ((draws seat.new).past ≡ (draws seat.old).past + 1)
            (λ _. (draws seat.new).past ≡ (draws seat.old).past) }
        ensures different { AreDifferentBelow (indices_of self.now) (indices (draws seat.new)) }
        ensures looks { looks seat.new ≡ looks seat.old }
    {
        let drawn = self
            .table
            .shared
            .fetch_add::<Claims>(&mut seat.seat, CLAIMS, 1);
        seat.current = if drawn < self.n { Some(drawn) } else { None };
        seat.current
    }

    /// Whether the current index is still wanted: where one below it was offered, it is dropped. What is
    /// read is at most each index that the seat offered itself.
    pub fn look(&self, seat: &mut RaceSeat) -> bool
        requires of_race { IsSeatOf self.now seat.old }
        requires drawn { IsSome (draws seat.old).current }
        ensures seat { IsSameSeat self.now seat.old seat.new }
        ensures read { (least : ℕ) × (result ≡ not (is_above least (draws seat.old).current))
            × (draws seat.new ≡ looking least (draws seat.old))
            × RespectsLeast least (draws seat.new) }
        ensures wanted { MatchBool result (draws seat.new ≡ draws seat.old)
            (draws seat.new ≡ dropping (draws seat.old)) }
        ensures looks { looks seat.new ≡ looks seat.old + 1 }
    {
        let Some(current) = seat.current else {
            unreachable!()
        };
        let least = self.table.shared.load::<Looks>(&mut seat.seat, LEAST);
        if least < current {
            seat.current = None;
            return false;
        }
        true
    }

    /// Offers the current index: it is decided, and every index above it is needless.
    pub fn offer(&self, seat: &mut RaceSeat)
        requires of_race { IsSeatOf self.now seat.old }
        requires drawn { IsSome (draws seat.old).current }
        ensures seat { IsSameSeat self.now seat.old seat.new }
        ensures offered { draws seat.new ≡ offering (draws seat.old) }
        ensures looks { looks seat.new ≡ looks seat.old }
    {
        let Some(current) = seat.current else {
            unreachable!()
        };
        self.table
            .shared
            .fetch_min::<Offers>(&mut seat.seat, LEAST, current);
        seat.current = None;
    }

    /// Ends the race: one seat is made of all, and the least word is read. It takes no memory, so it isn't
    /// refused. The race and the seats are gone.
    pub fn finish(self, seats: Vec<RaceSeat>) -> Result<Finished, NoMemory>
        requires of_race { All (IsSeatOf self) seats.items }
        requires all { sum_by stands seats.items ≡ seats_of self }
        requires idle { All (λ s. (draws s).current ≡ None) seats.items }
        ensures ok { IsOk result }
        ensures race { IfOk result (λ f. ((total f).n ≡ indices_of self)
            × ((total f).stands ≡ seats_of self)) }
        ensures together { IfOk result (λ f. IsTogether seats.items (total f)) }

        ensures claims { IfOk result (λ f. (claims : ℕ)
            × AreClaims (indices_of self) claims (total f).draws) }
        ensures offered { IfOk result (λ f. All (λ i. least_of f ≤ i) (total f).draws.offered) }
        ensures dropped { IfOk result (λ f. All (λ i. least_of f < i) (total f).draws.dropped) }
        ensures least { IfOk result (λ f. (least_of f ≡ indices_of self)
            ⊎ Contains (total f).draws.offered (least_of f)) }

        ensures done { HaveEnded seats.items
            → IfOk result (λ f. (i : ℕ) → i < least_of f → times i (total f).draws.done ≡ 1) }
    {
        let RaceSeat {
            current: _,
            seat: mut whole,
        } = self.join(seats);
        let least = self.table.shared.load::<Closes>(&mut whole, LEAST);
        Ok(Finished { least, whole })
    }

    // One seat of all. A later seat is joined to an earlier one, so their lists keep the order of the seats.
    fn join(&self, mut seats: Vec<RaceSeat>) -> RaceSeat
        requires of_race { All (IsSeatOf self.now) seats.items }
        requires some_seat { 1 ≤ sum_by stands seats.items }
        requires idle { All (λ s. (draws s).current ≡ None) seats.items }
        ensures of_race { IsSeatOf self.now result }
        ensures idle { (draws result).current ≡ None }
        ensures together { IsTogether seats.items result.seat.me.0 }
    {
        let Some(mut whole) = seats.pop() else {
            unreachable!()
        };
        while let Some(earlier) = seats.pop() {
            whole = self.join_two(earlier, whole);
        }
        whole
    }

    fn join_two(&self, mut earlier: RaceSeat, later: RaceSeat) -> RaceSeat
        requires of_race { IsSeatOf self.now earlier × IsSeatOf self.now later }
        requires idle { ((draws earlier).current ≡ None) × ((draws later).current ≡ None) }
        ensures of_race { IsSeatOf self.now result }
        ensures both { result.seat.me.0 ≡ joint earlier.seat.me.0 later.seat.me.0 }
    {
        let RaceSeat { current: _, seat } = later;
        self.table
            .shared
            .join_seat::<Joined>(&mut earlier.seat, seat);
        earlier
    }
}
