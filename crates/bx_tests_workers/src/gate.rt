//! The gate of a race is entered once for each ratio that a worker draws, and left once.

use crate::asserts::is_number;
use crate::problems::{Sample, Task, raced};
use bx_desk::Gate;
use std::alloc::{AllocError, Global};
use std::process::Abort;
use std::sync::atomic::{AtomicU64, Ordering};
use std::test::Fail;

// How often each index was told.
#[derive(Drop)]
struct Counts {
    entered: Vec<AtomicU64>,
    left: Vec<AtomicU64>,
}

impl Counts {
    fn new(alloc: Global, indices: u64) -> Result<Counts, AllocError> {
        Ok(Counts {
            entered: zeros(alloc, indices)?,
            left: zeros(alloc, indices)?,
        })
    }
}

fn zeros(alloc: Global, count: u64) -> Result<Vec<AtomicU64>, AllocError> {
    let mut words = Vec::new(alloc);
    for _ in 0..count {
        words.push(AtomicU64::new(0))?;
    }
    Ok(words)
}

fn add_one(words: &[AtomicU64], index: u64) {
    if let Some(word) = words.get(index as usize) {
        word.fetch_add(1, Ordering::SeqCst);
    }
}

impl Gate for Counts {
    fn enter(&self, index: u64) {
        add_one(&self.entered, index);
    }

    fn leave(&self, index: u64) {
        add_one(&self.left, index);
    }
}

// How many ratios of area up to 15 there are, and their index from which on none has to be tried.
const TASK: Task = (Sample::HalfAdder, 15, &[], 0);

const RATIOS: u64 = 45;

const LEAST: u64 = 31;

#[test]
fn a_gate_is_entered_and_left_once_for_each_ratio(rt: HostRuntime) -> Result<(), Fail> {
    for workers in 1..=4 {
        let counts = Counts::new(rt.alloc(), RATIOS)?;
        let _found = raced(&rt, rt.alloc(), TASK, workers, &counts)?;
        for (k, (entered, left)) in counts.entered.iter().zip(counts.left.iter()).enumerate() {
            is_told(&rt, k as u64, entered, left);
        }
    }
    Ok(())
}

// A ratio up to the least is told once, a later one at most once; and it is left as often as entered.
fn is_told(rt: &impl Abort, k: u64, entered: &AtomicU64, left: &AtomicU64) {
    let times = entered.load(Ordering::SeqCst);
    let wanted = if k <= LEAST { 1 } else { times.min(1) };
    is_number(rt, times, wanted, "entered");
    is_number(rt, left.load(Ordering::SeqCst), times, "left");
}
