//! The lanes as they stand between two operations, and the operations that led there. Each call does what
//! the definition of its name says, and needs memory for the operations alone.
ghost use Rattle.std.specs.Prelude.{◌≡◌, ◌<◌, ◌≤◌, ◌+◌, ◌-◌, ◌++◌, OnOk, [], length, take};
ghost use Rattle.bx_quick.specs.LaneStates.{with_operation, lane_of as lane_of_edge, exchange as exchanged, move_right as moved_right, move_to as moved_to, move_both as moved_both, move_pair as moved_pair};

use crate::operation::{CROSS, Operation, form};
use bx_forms::Form;
use bx_logic::NoMemory;
use std::alloc::Global;
use std::marker::Model;

// The edge in each lane, and the operations so far.
#[derive(Drop)]
pub struct State {
    pub lanes: Vec<u32>,
    pub operations: Vec<Operation>,
}

impl Model for State {
    ghost use Rattle.bx_quick.specs.LaneStates.{State};

    ghost Value = { State };

    ghost view = { λ state. record {
      lanes = state.lanes.items;
      operations = state.operations.items;
    } };
}

impl State {
    // These lanes, and no operation yet.
    pub fn new(alloc: Global, lanes: Vec<u32>) -> State
        ensures { result ≡ record { lanes = lanes.items; operations = [] } }
    {
        State {
            lanes,
            operations: Vec::new(alloc),
        }
    }

    // The lane in which the edge is on its way, or the number of lanes where it is in none.
    pub fn lane_of(&self, e: u32) -> usize
        ensures is { result ≡ lane_of_edge self.now.lanes e }
        ensures within { result ≤ length self.now.lanes }
    {
        lane_in(&self.lanes, e)
    }

    // Notes an operation at this lane.
    pub fn note(&mut self, lane: usize, form: Form) -> Result<(), NoMemory>
        requires lane { lane < 65536 }
        requires few { length self.old.lanes < 16384 }
        ensures { OnOk result (self.new ≡ record {
          lanes = self.old.lanes;
          operations = with_operation self.old lane form;
        }) }
    {
        let lanes = self.lanes.len() as u16;
        self.operations.push(Operation {
            lanes,
            lane: lane as u16,
            form,
        })?;
        Ok(())
    }

    // The edges of this lane and the next change places.
    pub fn exchange(&mut self, x: usize) -> Result<(), NoMemory>
        requires next { x + 1 < length self.old.lanes }
        requires few { length self.old.lanes < 16384 }
        ensures exchanged { OnOk result (self.new ≡ exchanged self.old x) }
        ensures count { OnOk result (length self.new.lanes ≡ length self.old.lanes) }
    {
        self.note(x, form(CROSS))?;
        self.lanes.swap(x, x + 1);
        Ok(())
    }

    // The edge of this lane moves right to that one.
    pub fn move_right(&mut self, x: usize, to: usize) -> Result<(), NoMemory>
        requires within { to ≤ length self.old.lanes - 1 }
        requires few { length self.old.lanes < 16384 }
        ensures moved { OnOk result (self.new ≡ moved_right self.old x (to - x)) }
        ensures count { OnOk result (length self.new.lanes ≡ length self.old.lanes) }
    {
        for lane in x..to {
            self.exchange(lane)?;
        }
        Ok(())
    }

    // The edge moves right to this lane.
    pub fn move_to(&mut self, e: u32, to: usize) -> Result<(), NoMemory>
        requires within { to ≤ length self.old.lanes - 1 }
        requires few { length self.old.lanes < 16384 }
        ensures moved { OnOk result (self.new ≡ moved_to self.old e to) }
        ensures count { OnOk result (length self.new.lanes ≡ length self.old.lanes) }
    {
        let x = self.lane_of(e);
        self.move_right(x, to)
    }

    // Both edges move to the end, the second one first.
    pub fn move_both(&mut self, left: u32, right: u32) -> Result<(), NoMemory>
        requires { length self.old.lanes < 16384 }
        ensures moved { OnOk result (self.new ≡ moved_both self.old left right) }
        ensures count { OnOk result (length self.new.lanes ≡ length self.old.lanes) }
    {
        let count = self.lanes.len();
        self.move_to(right, count.saturating_sub(1))?;
        self.move_to(left, count.saturating_sub(2))
    }

    // Both edges move to the end, the one further right first.
    pub fn move_pair(&mut self, a: u32, b: u32) -> Result<(), NoMemory>
        requires { length self.old.lanes < 16384 }
        ensures moved { OnOk result (self.new ≡ moved_pair self.old a b) }
        ensures count { OnOk result (length self.new.lanes ≡ length self.old.lanes) }
    {
        if self.lane_of(a) < self.lane_of(b) {
            self.move_both(a, b)
        } else {
            self.move_both(b, a)
        }
    }

    // An operation at this lane takes it and all behind it.
    pub fn take_from(&mut self, lane: usize, form: Form) -> Result<(), NoMemory>
        requires lane { lane < 65536 }
        requires few { length self.old.lanes < 16384 }
        ensures taken { OnOk result (self.new ≡ record {
          lanes = take lane self.old.lanes;
          operations = with_operation self.old lane form;
        }) }
    {
        self.note(lane, form)?;
        self.lanes.truncate(lane);
        Ok(())
    }
}

// The lane that holds the edge, or the number of lanes where none does.
fn lane_in(lanes: &[u32], e: u32) -> usize
    ensures is { result ≡ lane_of_edge lanes.now e }
    ensures within { result ≤ length lanes.now }
{
    for (lane, other) in lanes.iter().enumerate() {
        if *other == e {
            return lane;
        }
    }
    lanes.len()
}
