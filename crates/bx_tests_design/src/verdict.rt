//! Verdicts of the ratios of a wire, an input that leads to an output, under permits that lack some of its forms,
//! and within budgets at their edges. The steps come from another solver or were worked out by hand.
ghost use Rattle.std.specs.Prelude.{◌≡◌, ◌<◌, ◌≤◌, IsTrue, length};
ghost use Rattle.bx_grid.specs.Tiles.{tile_count, IsGrid};
ghost use Rattle.bx_verdict.specs.Settling.{AreInOrder};

use crate::asserts::is_text;
use bx_cnf::{Bits, Lit};
use bx_encode::{MOST_AREA, MOST_NODES};
use bx_grid::{CountProof, Limits, Ratio, Ratios};
use bx_layout::Permit;
use bx_logic::NoMemory;
use bx_network::MappedNet;
use bx_proof::{Refutation, Steps};
use bx_pulse::Steady;
use bx_samples::{passing, without};
use bx_verdict::{Ended, Last, MOST_SEARCH_BUDGET, Settled, Trial, judge, settle};
use std::alloc::Global;
use std::marker::Brand;
use std::sync::ledger::{Blank, Ledger};
use std::test::Fail;

// ---- One ratio

// On so many columns and rows, without these forms and within this budget.
type Case = (u32, u32, &'static [u8], u64, &'static str);

const CASES: &[Case] = &[
    (1, 1, &[], 9, "late 0"),
    (2, 1, &[], 9, "late 0"),
    (1, 2, &[], 0, "found 1 4 5 6 8 12"),
    (1, 2, &[2], 8, "46 0 11 1 5 2 13 29 18 45 0"),
    (1, 2, &[2], 7, "undecided 0"),
    (1, 2, &[0, 1], 6, "49 0 11 1 13 29 18 46 0"),
    (1, 2, &[0, 1], 5, "undecided 0"),
];

#[test]
fn a_ratio_has_this_verdict(rt: HostRuntime) -> Result<(), Fail> {
    for &(w, h, left_out, budget, wanted) in CASES {
        let found = judged(rt.alloc(), Ratio { w, h }, left_out, budget)?;
        is_text(&rt, found.as_str(), wanted, wanted);
    }
    Ok(())
}

// The verdict of a ratio, as a line.
fn judged(alloc: Global, ratio: Ratio, left_out: &[u8], budget: u64) -> Result<String, Fail> {
    let net = passing(alloc)?;
    if budget > MOST_SEARCH_BUDGET || !is_small(&net, ratio) {
        return Err("too much".into());
    }
    judged_steadily::<Brand>(
        alloc,
        &net,
        &without(left_out),
        ratio,
        budget,
        Blank::new(1),
    )
}

// The same, where a new ledger counts how often the pulse is asked.
fn judged_steadily<L: Ledger>(
    alloc: Global,
    net: &MappedNet,
    permit: &Permit,
    ratio: Ratio,
    budget: u64,
    blank: Blank,
) -> Result<String, Fail>
    requires grid { IsGrid ratio }
    requires nodes { length net.now.nodes ≤ MOST_NODES }
    requires area { tile_count ratio ≤ MOST_AREA }
    requires budget { budget ≤ MOST_SEARCH_BUDGET }
    requires name { blank.name ≡ L.name }
    requires parts { blank.parts ≡ L.parts }
    requires some { 0 < blank.parts }
{
    let mut pulse = Steady::<L>::new(blank);
    match judge(alloc, net, permit, ratio, budget, &mut pulse)? {
        Trial::Ended(end) => Ok(line_of_end(alloc, &end)?),
        Trial::Stopped => Err("stopped".into()),
    }
}

// Whether formulas are made of this network on such a grid.
fn is_small(net: &MappedNet, ratio: Ratio) -> bool
    ensures grid { IsTrue result → IsGrid ratio }
    ensures nodes { IsTrue result → length net.now.nodes ≤ MOST_NODES }
    ensures area { IsTrue result → tile_count ratio ≤ MOST_AREA }
{
    let tiles = u64::from(ratio.w) * u64::from(ratio.h);
    let few = tiles <= u64::from(MOST_AREA) && net.node_count() <= MOST_NODES;
    ratio.w >= 1 && ratio.h >= 1 && few
}

fn line_of_end(alloc: Global, end: &Ended) -> Result<String, NoMemory> {
    match end {
        Ended::Refuted(proof) => line_of(alloc, proof),
        Ended::Found(bits) => line_of_bits(alloc, bits),
        Ended::Undecided(spent) => Ok(format!(in alloc; "undecided {spent}")?),
    }
}

// A count, or steps: the number of the first, and then the literals and the hints of each.
fn line_of(alloc: Global, proof: &Refutation) -> Result<String, NoMemory> {
    match proof {
        Refutation::Count(CountProof::Late { node }) => Ok(format!(in alloc; "late {node}")?),
        Refutation::Count(_) => Ok(format!(in alloc; "another count")?),
        Refutation::Clauses(steps) => line_of_steps(alloc, steps),
    }
}

fn line_of_steps(alloc: Global, steps: &Steps) -> Result<String, NoMemory> {
    let mut text = format!(in alloc; "{}", steps.first())?;
    for k in 0..steps.len() {
        push_step(alloc, steps.literals(k), steps.hints(k), &mut text)?;
    }
    Ok(text)
}

fn push_step(
    alloc: Global,
    literals: &[Lit],
    hints: &[u32],
    text: &mut String,
) -> Result<(), NoMemory> {
    for lit in literals {
        text.push_str(format!(in alloc; " {}", lit.number())?.as_str())?;
    }
    text.push_str(" 0")?;
    for hint in hints {
        text.push_str(format!(in alloc; " {hint}")?.as_str())?;
    }
    text.push_str(" 0")?;
    Ok(())
}

// The variables that are true.
fn line_of_bits(alloc: Global, bits: &Bits) -> Result<String, NoMemory> {
    let mut text = format!(in alloc; "found")?;
    for (k, bit) in bits.as_slice().iter().enumerate() {
        if *bit {
            text.push_str(format!(in alloc; " {}", k + 1)?.as_str())?;
        }
    }
    Ok(text)
}

// ---- Ratios in order

// Within this area, without these forms and within this budget: why each ratio in turn has no layout, and what is
// known of the first that isn't refuted.
type Order = (u32, &'static [u8], u64, &'static str);

const ORDERS: &[Order] = &[
    (
        100,
        &[2],
        100,
        "late 0, 46 0 11 1 5 2 13 29 18 45 0, late 0, found",
    ),
    (
        2,
        &[0, 1],
        100,
        "late 0, 49 0 11 1 13 29 18 46 0, late 0, none",
    ),
    (
        2,
        &[0, 1],
        6,
        "late 0, 49 0 11 1 13 29 18 46 0, late 0, none",
    ),
    (2, &[0, 1], 5, "late 0, undecided 0"),
    (1, &[], 100, "late 0, none"),
];

#[test]
fn ratios_in_order_are_settled_so(rt: HostRuntime) -> Result<(), Fail> {
    for &(area, left_out, budget, wanted) in ORDERS {
        let found = settled(rt.alloc(), area, left_out, budget)?;
        is_text(&rt, found.as_str(), wanted, wanted);
    }
    Ok(())
}

// What is known of the ratios of an area, as a line.
fn settled(alloc: Global, area: u32, left_out: &[u8], budget: u64) -> Result<String, Fail> {
    if budget > MOST_SEARCH_BUDGET || area < 1 || area > MOST_AREA {
        return Err("too much".into());
    }
    let net = passing(alloc)?;
    if net.node_count() > MOST_NODES {
        return Err("too much".into());
    }
    let settled = settle(alloc, &net, &without(left_out), &of_area(area), budget)?;
    Ok(line_of_settled(alloc, &settled)?)
}

// All ratios of no more area than this.
fn of_area(area: u32) -> Ratios
    requires some { 1 ≤ area }
    requires few { area ≤ MOST_AREA }
    ensures { AreInOrder result }
{
    Ratios::new(Limits {
        area,
        width: 144,
        height: 144,
    })
}

fn line_of_settled(alloc: Global, settled: &Settled) -> Result<String, NoMemory> {
    let mut text = String::new(alloc);
    for proof in &settled.refutations {
        text.push_str(line_of(alloc, proof)?.as_str())?;
        text.push_str(", ")?;
    }
    text.push_str(line_of_last(alloc, &settled.last)?.as_str())?;
    Ok(text)
}

fn line_of_last(alloc: Global, last: &Last) -> Result<String, NoMemory> {
    match last {
        Last::Found(_) => Ok(format!(in alloc; "found")?),
        Last::Undecided(spent) => Ok(format!(in alloc; "undecided {spent}")?),
        Last::NoneWithin => Ok(format!(in alloc; "none")?),
    }
}
