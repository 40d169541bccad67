//! What is known of ratios in their order, and who finds it out: one ratio after the other, up to the first that
//! isn't refuted.
ghost use Rattle.std.specs.Prelude.{◌≡◌, ◌<◌, ◌≤◌, length, IfOk};
ghost use Rattle.bx_grid.specs.Tiles.{tile_count, IsGrid};
ghost use Rattle.bx_layout.specs.Permits.{test_of};
ghost use Rattle.bx_verdict.specs.Settling.{AreInOrder, AreSettled, ShowInOrder};
ghost use Rattle.bx_verdict.specs.Verdicts.{IsVerdict, Shows};

use crate::verdict::{Ended, MOST_SEARCH_BUDGET, Trial, judge};
use bx_cnf::Bits;
use bx_encode::{MOST_AREA, MOST_NODES};
use bx_grid::{Ratio, Ratios};
use bx_layout::Permit;
use bx_logic::NoMemory;
use bx_network::MappedNet;
use bx_proof::Refutation;
use bx_pulse::Steady;
use std::alloc::Global;
use std::marker::Brand;
use std::sync::ledger::{Blank, Ledger};

/// What is known of ratios in their order.
#[derive(Drop)]
pub struct Settled {
    /// Of each ratio before the first that isn't refuted, why it has no layout.
    pub refutations: Vec<Refutation>,
    /// What is known of that one.
    pub last: Last,
}

/// The first ratio that isn't refuted: the one at the index behind the refutations.
#[derive(Drop)]
pub enum Last {
    /// It has a layout: these bits make every clause of its formula true.
    Found(Bits),
    /// The search spent so much, and its next step would pass the budget.
    Undecided(u64),
    /// There is none.
    NoneWithin,
}

/// What is known of the ratios under a permit, each searched within this budget: the refutations of all before the
/// first that isn't refuted, one for each in order, and what is known of that one. One formula and its solver are
/// there at a time, and are given up before the next ratio is tried.
///
/// # Errors
///
/// `NoMemory`.
pub fn settle(
    alloc: Global,
    net: &MappedNet,
    permit: &Permit,
    ratios: &Ratios,
    budget: u64,
) -> Result<Settled, NoMemory>
    requires order { AreInOrder ratios.now }
    requires nodes { length net.now.nodes ≤ MOST_NODES }
    requires budget { budget ≤ MOST_SEARCH_BUDGET }
    ensures exact { IfOk result (λ s.
        AreSettled net.now (test_of permit.now) budget ratios.now s.refutations.items s.last) }
    ensures shows { IfOk result (λ s.
        ShowInOrder net.now (test_of permit.now) ratios.now s.refutations.items s.last) }
{
    let mut refutations = Vec::new(alloc);
    for k in 0..ratios.len() {
        let ratio = ratios.at(k);
        let last = match judge_to_the_end(alloc, net, permit, ratio, budget)? {
            Ended::Refuted(proof) => {
                refutations.push(proof)?;
                continue;
            }
            Ended::Found(bits) => Last::Found(bits),
            Ended::Undecided(spent) => Last::Undecided(spent),
        };
        return Ok(Settled { refutations, last });
    }
    Ok(Settled {
        refutations,
        last: Last::NoneWithin,
    })
}

// The verdict of a ratio. No pulse stops it.
fn judge_to_the_end(
    alloc: Global,
    net: &MappedNet,
    permit: &Permit,
    ratio: Ratio,
    budget: u64,
) -> Result<Ended, NoMemory>
    requires grid { IsGrid ratio }
    requires nodes { length net.now.nodes ≤ MOST_NODES }
    requires area { tile_count ratio ≤ MOST_AREA }
    requires budget { budget ≤ MOST_SEARCH_BUDGET }
    ensures exact { IfOk result (IsVerdict net.now (test_of permit.now) ratio budget) }
    ensures shows { IfOk result (Shows net.now (test_of permit.now) ratio) }
{
    judge_steadily::<Brand>(alloc, net, permit, ratio, budget, Blank::new(1))
}

// The same, where a new ledger counts how often the pulse is asked.
fn judge_steadily<L: Ledger>(
    alloc: Global,
    net: &MappedNet,
    permit: &Permit,
    ratio: Ratio,
    budget: u64,
    blank: Blank,
) -> Result<Ended, NoMemory>
    requires grid { IsGrid ratio }
    requires nodes { length net.now.nodes ≤ MOST_NODES }
    requires area { tile_count ratio ≤ MOST_AREA }
    requires budget { budget ≤ MOST_SEARCH_BUDGET }
    requires name { blank.name ≡ L.name }
    requires parts { blank.parts ≡ L.parts }
    requires some { 0 < blank.parts }
    ensures exact { IfOk result (IsVerdict net.now (test_of permit.now) ratio budget) }
    ensures shows { IfOk result (Shows net.now (test_of permit.now) ratio) }
{
    let mut pulse = Steady::<L>::new(blank);
    match judge(alloc, net, permit, ratio, budget, &mut pulse)? {
        Trial::Ended(end) => Ok(end),
        // A steady pulse never says no.
        Trial::Stopped => unreachable!(),
    }
}
