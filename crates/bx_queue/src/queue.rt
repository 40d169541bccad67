//! Variables in an order that changes by moving one to the front, with a mark at each; decisions take the
//! first that is free. It promises list and marks exactly; which variable is to be taken or moved is for
//! the solver to say.
//!
//! That a variable moves to the front when it occurs in a conflict is Ryan's heuristic ('variable move to
//! front', 2004). The linked list with stamps, and the place from which the search goes on, are those of
//! Biere and Fröhlich (2015). Turned down: a vector in the order, in which a move shifts all before the
//! variable; a list without stamps, in which nobody knows whether a variable that is given back stands
//! before the place, so that each search begins at the first; and a heap of activities, in which a move
//! takes as many steps as the heap is deep, and whose order a reader of a log can't follow.
//!
//! A variable takes 13 bytes: two links, a stamp and a mark.
ghost use Rattle.std.specs.Prelude.{◌≡◌, ◌++◌, ◌∷◌, ℕ, ◌+◌, ◌-◌, ◌≤◌, ◌<◌, ◌^◌, true, false, IfOk, IfSome, List, length, replicate, slice_set, Some, None, Contains, ◌≢◌};
ghost use Rattle.std.specs.List.{range_with_len, AllByRecursion};
ghost use Rattle.bx_queue.specs.Queue.{Queue, IsQueue, IsVariable, is_taken, first_free, moved_to_front};
ghost use Rattle.bx_queue.specs.Ring.{first_of};
ghost use Rattle.bx_queue.specs.Stamps.{AreTakenBefore, nearer, place_after, stamping};

use crate::ring::Ring;
use bx_logic::NoMemory;
use std::alloc::Global;
use std::marker::Model;

/// The variables from 1 on, in an order, and which of them are taken. Contracts see the order as a
/// list, and a mark for each variable.
#[derive(Drop)]
pub struct MoveFront {
    // the variables in their order
    ring: Ring,
    // whether a variable is taken, at its number less one
    taken: Vec<bool>,
    // at each variable a number above those of all that stand behind it; at 0 a 0, which is below all
    stamps: Vec<u32>,
    // where the search goes on: a variable before which all are taken, or 0 where all are
    place: u32,
}

impl Model for MoveFront {
    ghost use Rattle.bx_queue.specs.Queue.{Queue};
    ghost use Rattle.bx_queue.specs.Stamps.{IsSearched};

    ghost Value = { Queue };

    ghost view = { λ q. record { order = q.ring; taken = q.taken.items } };

    ghost invariant = { λ q. IsSearched q.ring q.taken.items q.stamps.items q.place };
}

impl MoveFront {
    /// The variables from 1 to `vars` in ascending order, none of them taken.
    pub fn new(alloc: Global, vars: u32) -> Result<Self, NoMemory>
        ensures order { IfOk result (λ q. q.order ≡ range_with_len 1 vars) }
        ensures free { IfOk result (λ q. q.taken ≡ replicate vars false) }
        ensures queue { IfOk result IsQueue }
    {
        Self::with_stamp(alloc, vars, vars)
    }

    /// As `new`, with this stamp at the first variable. Near the last number a few moves have all
    /// variables numbered anew, which else takes billions: so a test comes there.
    pub fn with_stamp(alloc: Global, vars: u32, stamp: u32) -> Result<Self, NoMemory>
        requires { vars ≤ stamp }
        ensures order { IfOk result (λ q. q.order ≡ range_with_len 1 vars) }
        ensures free { IfOk result (λ q. q.taken ≡ replicate vars false) }
        ensures queue { IfOk result IsQueue }
    {
        let ring = Ring::ascending(alloc, vars)?;
        let mut stamps = vec![in alloc; 0; vars as usize + 1]?;
        ring.number(&mut stamps, stamp);
        let taken = vec![in alloc; false; vars as usize]?;
        let place = ring.first();
        Ok(MoveFront {
            ring,
            taken,
            stamps,
            place,
        })
    }

    /// Takes a variable that is free.
    pub fn assigned(&mut self, var: u32)
        requires within { IsVariable (length self.old.taken) var }
        requires is_free { is_taken self.old var ≡ false }
        ensures { self.new ≡ record self.old { taken = slice_set self.old.taken (var - 1) true } }
    {
        self.taken[var as usize - 1] = true;
    }

    /// Gives back a variable that is taken.
    pub fn freed(&mut self, var: u32)
        requires within { IsVariable (length self.old.taken) var }
        requires is_taken { is_taken self.old var ≡ true }
        ensures { self.new ≡ record self.old { taken = slice_set self.old.taken (var - 1) false } }
    {
        self.taken[var as usize - 1] = false;
        self.place = nearer(&self.stamps, var, self.place);
    }

    /// The first variable of the order that isn't taken, and none exactly where all are taken.
    pub fn first_unassigned(&mut self) -> Option<u32>
        ensures first { result ≡ first_free self.old }
        ensures stays { self.new ≡ self.old }
        ensures within { IfSome result (λ v. IsVariable (length self.old.taken) v
            × (is_taken self.old v ≡ false)) }
        ensures none { result ≡ None → (v : ℕ) → IsVariable (length self.old.taken) v
            → is_taken self.old v ≡ true }
    {
        self.place = free_from(&self.ring, &self.taken, self.place);
        if self.place == 0 {
            None
        } else {
            Some(self.place)
        }
    }

    /// Moves a variable to the front; the others keep their order, and what is taken stays so.
    pub fn to_front(&mut self, var: u32)
        requires { IsVariable (length self.old.taken) var }
        ensures { self.new ≡ record self.old { order = moved_to_front var self.old.order } }
    {
        self.place = place_after(&self.ring, &self.taken, self.place, var);
        let above = self.stamps[self.ring.first() as usize];
        self.ring.move_to_front(var);
        stamp_first(&self.ring, &mut self.stamps, var, above);
    }
}

// The one of the two that stands nearer the front.
fn nearer(stamps: &[u32], var: u32, place: u32) -> u32
    requires var { var < length stamps.now }
    requires place { place < length stamps.now }
    ensures { result ≡ nearer stamps.now var place }
{
    if stamps[place as usize] < stamps[var as usize] {
        var
    } else {
        place
    }
}

// The first variable from this place on that isn't taken, and 0 where none is.
fn free_from(ring: &Ring, taken: &[bool], place: u32) -> u32
    requires queue { IsQueue (record { order = ring.now; taken = taken.now }) }
    requires within { place ≤ length taken.now }
    requires before { AreTakenBefore place taken.now ring.now }
    ensures within { result ≤ length taken.now }
    ensures before { AreTakenBefore result taken.now ring.now }
    ensures free { result ≢ 0 → is_taken (record { order = ring.now; taken = taken.now }) result
        ≡ false }
{
    let mut at = place;
    while at != 0 && taken[at as usize - 1] {
        at = ring.behind(at);
    }
    at
}

// Where the search starts once the variable stands first: at it if it is free, and else where it started,
// or behind the variable where that was its place.
fn place_after(ring: &Ring, taken: &[bool], place: u32, var: u32) -> u32
    requires variable { IsVariable (length taken.now) var }
    requires stands { Contains ring.now var }
    ensures { result ≡ place_after ring.now taken.now place var }
{
    if !taken[var as usize - 1] {
        var
    } else if place == var {
        ring.behind(var)
    } else {
        place
    }
}

// Gives the variable that is new at the front a stamp above this one, which is that of who was first; where
// this is the last number, all variables are numbered anew along the list.
fn stamp_first(ring: &Ring, stamps: &mut [u32], var: u32, above: u32)
    requires var { var < length stamps.old }
    requires each { length stamps.old ≡ length ring.now + 1 }
    requires room { AllByRecursion (λ v. v < length stamps.old) ring.now }
    requires few { length ring.now < 2 ^ 32 }
    ensures { stamps.new ≡ stamping (2 ^ 32 - 1) ring.now stamps.old var above }
{
    if above < u32::MAX {
        stamps[var as usize] = above + 1;
    } else {
        ring.number(stamps, (stamps.len() - 1) as u32);
    }
}
