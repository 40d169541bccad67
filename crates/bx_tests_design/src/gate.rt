//! The gate of whole runs: how often it is entered and left, and that two ratios are tried at the same time.

use crate::asserts::{holds, is_number};
use crate::runs::{DESIGN, HALF_ADDER, INVERTER, desk_with, words};
use bx_desk::Gate;
use bx_engine::run;
use bx_logic::NoMemory;
use std::alloc::Global;
use std::sync::atomic::{AtomicU64, Ordering};
use std::test::Fail;
use std::thread;
use std::thread::Threads;

// The exit status of a run of these words for a module, with this gate.
fn code_with<R: Threads + Sync, G: Gate + Sync>(
    rt: &R,
    alloc: Global,
    text: &str,
    line: &str,
    gate: &G,
) -> Result<u8, NoMemory> {
    let words = words(alloc, line)?;
    let mut desk = desk_with(alloc, text.as_bytes())?;
    Ok(run(rt, alloc, &words, &mut desk, gate).code())
}

// A gate that counts how often it is entered and left.
#[derive(Drop)]
struct Counter {
    entered: AtomicU64,
    left: AtomicU64,
}

impl Gate for Counter {
    fn enter(&self, _index: u64) {
        self.entered.fetch_add(1, Ordering::SeqCst);
    }

    fn leave(&self, _index: u64) {
        self.left.fetch_add(1, Ordering::SeqCst);
    }
}

// One worker tries the ratios up to the one that is found, of three tiles below each other.
#[test]
fn the_gate_is_entered_and_left_for_each_ratio(rt: HostRuntime) -> Result<(), Fail> {
    let gate = Counter {
        entered: AtomicU64::new(0),
        left: AtomicU64::new(0),
    };
    let line = format!(in rt.alloc(); "{DESIGN} --workers 1")?;
    let code = code_with(&rt, rt.alloc(), INVERTER, line.as_str(), &gate)?;
    is_number(&rt, u64::from(code), 0, "status");
    is_number(&rt, gate.entered.load(Ordering::SeqCst), 4, "entered");
    is_number(&rt, gate.left.load(Ordering::SeqCst), 4, "left");
    Ok(())
}

// A gate at which the worker of the first ratio waits until the second ratio is entered too, for so many turns at
// most.
#[derive(Drop)]
struct Meeting {
    second: AtomicU64,
    missed: AtomicU64,
}

impl Gate for Meeting {
    fn enter(&self, index: u64) {
        if index == 1 {
            self.second.store(1, Ordering::SeqCst);
        }
        if index == 0 && !self.has_met() {
            self.missed.store(1, Ordering::SeqCst);
        }
    }

    fn leave(&self, _index: u64) {}
}

impl Meeting {
    fn has_met(&self) -> bool {
        for _ in 0..20_000_000 {
            if self.second.load(Ordering::SeqCst) == 1 {
                return true;
            }
            thread::yield_now();
        }
        false
    }
}

#[test]
fn two_ratios_are_tried_at_the_same_time(rt: HostRuntime) -> Result<(), Fail> {
    let gate = Meeting {
        second: AtomicU64::new(0),
        missed: AtomicU64::new(0),
    };
    let line = format!(in rt.alloc(); "{DESIGN} --area 15 --budget 1000000 --workers 4")?;
    let code = code_with(&rt, rt.alloc(), HALF_ADDER, line.as_str(), &gate)?;
    is_number(&rt, u64::from(code), 0, "status");
    holds(&rt, gate.second.load(Ordering::SeqCst) == 1, "both entered");
    holds(&rt, gate.missed.load(Ordering::SeqCst) == 0, "both at once");
    Ok(())
}
