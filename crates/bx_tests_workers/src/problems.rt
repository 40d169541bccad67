//! Problems of the tests, and what workers that race find of them.
ghost use Rattle.std.specs.Prelude.{◌≤◌, length, IsTrue};
ghost use Rattle.bx_verdict.specs.Settling.{AreInOrder};

use crate::lines::line_of;
use bx_desk::Gate;
use bx_encode::{MOST_AREA, MOST_NODES};
use bx_grid::{Limits, Ratios};
use bx_logic::NoMemory;
use bx_network::MappedNet;
use bx_samples::{conjunction, half_adder, passing, without};
use bx_verdict::MOST_SEARCH_BUDGET;
use bx_workers::{Problem, race_all};
use std::alloc::Global;
use std::test::Fail;
use std::thread::Threads;

/// A network of the samples.
#[derive(Clone, Copy)]
pub(crate) enum Sample {
    Wire,
    Conjunction,
    HalfAdder,
}

/// A sample's ratios of no more area than this, without these forms and within this budget.
pub(crate) type Task = (Sample, u32, &'static [u8], u64);

/// The least index of a race of so many workers, and what they find, as a line.
pub(crate) fn raced<T: Threads + Sync, G: Gate + Sync>(
    threads: &T,
    alloc: Global,
    task: Task,
    workers: u32,
    gate: &G,
) -> Result<(u64, String), Fail> {
    let (sample, area, left_out, budget) = task;
    let net = net_of(alloc, sample)?;
    if !is_small(&net, area, budget) || workers < 1 || workers > 16 {
        return Err("too much".into());
    }
    let permit = without(left_out);
    let ratios = of_area(area);
    let problem = Problem {
        net: &net,
        permit: &permit,
        ratios: &ratios,
        budget,
    };
    let raced = race_all(threads, alloc, &problem, workers, gate)?;
    let line = line_of(alloc, raced.refutations.as_slice(), &raced.last)?;
    Ok((raced.least, line))
}

fn net_of(alloc: Global, sample: Sample) -> Result<MappedNet, NoMemory> {
    match sample {
        Sample::Wire => passing(alloc),
        Sample::Conjunction => conjunction(alloc),
        Sample::HalfAdder => half_adder(alloc),
    }
}

// Whether there is some area, and neither it nor the network or the budget is too large.
fn is_small(net: &MappedNet, area: u32, budget: u64) -> bool
    ensures some { IsTrue result → 1 ≤ area }
    ensures area { IsTrue result → area ≤ MOST_AREA }
    ensures nodes { IsTrue result → length net.now.nodes ≤ MOST_NODES }
    ensures budget { IsTrue result → budget ≤ MOST_SEARCH_BUDGET }
{
    let few = net.node_count() <= MOST_NODES && budget <= MOST_SEARCH_BUDGET;
    area >= 1 && area <= MOST_AREA && few
}

// All ratios of no more area than this.
fn of_area(area: u32) -> Ratios
    requires some { 1 ≤ area }
    requires few { area ≤ MOST_AREA }
    ensures { AreInOrder result }
{
    Ratios::new(Limits {
        area,
        width: 144,
        height: 144,
    })
}
