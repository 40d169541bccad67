//! The search of a network's formula on a grid: how it ends, how much it did, and how long it took.
ghost use Rattle.std.specs.Prelude.{◌≡◌, ◌<◌};

use crate::dimacs::formula;
use bx_cnf::Clauses;
use bx_grid::Ratio;
use bx_logic::NoMemory;
use bx_map::MappedNet;
use bx_pulse::Steady;
use bx_search::{Outcome, Tally, solve_counted};
use std::alloc::{AllocError, Global};
use std::io;
use std::marker::Brand;
use std::sync::ledger::{Blank, Ledger};
use std::time::Instant;

/// Says how the search of the formula under the permit of all forms ends within a budget, and what it did.
pub fn say_search(
    rt: &HostRuntime,
    network: &MappedNet,
    ratio: Ratio,
    budget: u64,
) -> io::Result<bool> {
    match formula(rt.alloc(), network, ratio)? {
        Ok(clauses) => {
            say_end(rt, &clauses, budget)?;
            Ok(true)
        }
        Err(reason) => {
            println!(rt; "{reason}")?;
            Ok(false)
        }
    }
}

// Says how the search of a formula ends, and what it did. The solver's own start counts into its time.
fn say_end(rt: &HostRuntime, clauses: &Clauses, budget: u64) -> io::Result<()> {
    let start = Instant::now(rt)?;
    let Ok((end, tally)) = search::<Brand>(rt.alloc(), clauses, budget, Blank::new(1)) else {
        return Err(AllocError.into());
    };
    let micros = start.elapsed(rt)?.as_micros();
    let end = name_of(&end);
    let Tally {
        conflicts,
        propagations,
    } = tally;
    println!(rt; "{end}, {conflicts} conflicts, {propagations} propagations, {micros} microseconds")
}

// The search that nothing stops, where a new ledger counts how often its pulse is asked. Of the budget only so much
// is used as clauses and steps have numbers of 32 bits with.
fn search<L: Ledger>(
    alloc: Global,
    clauses: &Clauses,
    budget: u64,
    blank: Blank,
) -> Result<(Outcome, Tally), NoMemory>
    requires name { blank.name ≡ L.name }
    requires parts { blank.parts ≡ L.parts }
    requires some { 0 < blank.parts }
{
    let most = u64::from(u32::MAX - clauses.len());
    let mut pulse = Steady::<L>::new(blank);
    solve_counted(alloc, clauses, budget.min(most), &mut pulse)
}

fn name_of(end: &Outcome) -> &'static str {
    match end {
        Outcome::Sat(_) => "found",
        Outcome::Unsat(_) => "refuted",
        Outcome::Undecided(_) => "undecided",
        Outcome::Stopped => "stopped",
    }
}
