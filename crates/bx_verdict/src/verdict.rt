//! The verdict of one ratio, and who finds it out: first by counting, and then by a search of its formula, which a
//! pulse may stop.
ghost use Rattle.std.specs.Prelude.{◌≡◌, ℕ, ◌+◌, ◌≤◌, length, IfOk, OnErr};
ghost use Rattle.bx_cnf.specs.Formulas.{IsFormula};
ghost use Rattle.bx_grid.specs.Tiles.{tile_count, IsGrid};
ghost use Rattle.bx_layout.specs.Permits.{test_of};
ghost use Rattle.bx_encode.specs.Sizes.{most_clauses};
ghost use Rattle.bx_verdict.specs.Verdicts.{Asks, EndsAfter, IfEnded, IsVerdict, Shows};

use bx_bounds::refute;
use bx_cnf::{Bits, Clauses};
use bx_encode::{MOST_AREA, MOST_NODES, encode};
use bx_grid::Ratio;
use bx_layout::Permit;
use bx_logic::NoMemory;
use bx_network::MappedNet;
use bx_proof::Refutation;
use bx_pulse::Pulse;
use bx_search::{Outcome, solve};
use std::alloc::Global;

/// The largest budget of a search. With it the clauses of a formula and those that are learned are still numbered
/// by 32 bits.
pub const MOST_SEARCH_BUDGET: u64 = 4_000_000_000;

/// How the trial of a ratio ended.
#[derive(Drop)]
pub enum Ended {
    /// It has no layout, for this reason.
    Refuted(Refutation),
    /// These bits make every clause of its formula true, and mean a layout.
    Found(Bits),
    /// The search spent so much, and its next step would pass the budget.
    Undecided(u64),
}

/// How far the trial of a ratio came.
#[derive(Drop)]
pub enum Trial {
    /// To its end.
    Ended(Ended),
    /// It was given up, as the pulse said no.
    Stopped,
}

/// The verdict of a ratio under a permit: by the first count that refutes it, and where none does by the search of
/// its formula within the budget, which asks the pulse as it goes and stops where the answer is no. Formula and
/// solver are given up before it returns.
///
/// # Errors
///
/// `NoMemory`. The pulse may have been asked, and never answered no.
pub fn judge<P: Pulse>(
    alloc: Global,
    net: &MappedNet,
    permit: &Permit,
    ratio: Ratio,
    budget: u64,
    pulse: &mut P,
) -> Result<Trial, NoMemory>
    requires ready { P.ready pulse.old }
    requires grid { IsGrid ratio }
    requires nodes { length net.now.nodes ≤ MOST_NODES }
    requires area { tile_count ratio ≤ MOST_AREA }
    requires budget { budget ≤ MOST_SEARCH_BUDGET }
    ensures exact { IfOk result (λ trial. IfEnded trial
        (IsVerdict net.now (test_of permit.now) ratio budget)) }
    ensures shows { IfOk result (λ trial. IfEnded trial (Shows net.now (test_of permit.now) ratio)) }

    // The pulse was asked as often as the verdict's search asks, and never answered no.
    ensures asked { IfOk result (λ trial. IfEnded trial (λ end.
        (n : ℕ) × Asks net.now (test_of permit.now) ratio budget end n
        × (P.asked pulse.new ≡ P.asked pulse.old + n))) }
    ensures not_stopped { IfOk result (λ trial. IfEnded trial
        (λ end. P.stops pulse.new ≡ P.stops pulse.old)) }
    ensures still_ready { IfOk result (λ trial. IfEnded trial (λ end. P.ready pulse.new)) }

    // It is stopped only where the pulse said so, at last, which is never asked more often than the budget pays for.
    ensures stopped { IfOk result (λ trial. trial ≡ Trial.Stopped
        → P.stops pulse.new ≡ P.stops pulse.old + 1) }
    ensures at_most { P.asked pulse.new ≤ P.asked pulse.old + budget }
    ensures no_memory { OnErr result (P.stops pulse.new ≡ P.stops pulse.old) }
    ensures leads { P.leads pulse.old pulse.new }
{
    // (known from here on: the net is a network)
    let _nodes = net.node_count();
    if let Some(proof) = refute(net, ratio) {
        return Ok(Trial::Ended(Ended::Refuted(Refutation::Count(proof))));
    }
    let clauses = encode(alloc, net, permit, ratio)?;
    // (and the clauses are a formula)
    let _count = clauses.len();
    search(alloc, &clauses, budget, pulse)
}

// How the search of a formula ends.
fn search<P: Pulse>(
    alloc: Global,
    clauses: &Clauses,
    budget: u64,
    pulse: &mut P,
) -> Result<Trial, NoMemory>
    requires ready { P.ready pulse.old }
    requires formed { IsFormula clauses.now }
    requires few { length clauses.now.clauses ≤ most_clauses }
    requires budget { budget ≤ MOST_SEARCH_BUDGET }
    ensures ended { IfOk result (λ trial. IfEnded trial (λ end.
        (n : ℕ) × EndsAfter clauses.now budget end n
        × (P.asked pulse.new ≡ P.asked pulse.old + n))) }
    ensures not_stopped { IfOk result (λ trial. IfEnded trial
        (λ end. P.stops pulse.new ≡ P.stops pulse.old)) }
    ensures still_ready { IfOk result (λ trial. IfEnded trial (λ end. P.ready pulse.new)) }
    ensures stopped { IfOk result (λ trial. trial ≡ Trial.Stopped
        → P.stops pulse.new ≡ P.stops pulse.old + 1) }
    ensures at_most { P.asked pulse.new ≤ P.asked pulse.old + budget }
    ensures no_memory { OnErr result (P.stops pulse.new ≡ P.stops pulse.old) }
    ensures leads { P.leads pulse.old pulse.new }
{
    match solve(alloc, clauses, budget, pulse)? {
        Outcome::Sat(bits) => Ok(Trial::Ended(Ended::Found(bits))),
        Outcome::Unsat(steps) => Ok(Trial::Ended(Ended::Refuted(Refutation::Clauses(steps)))),
        Outcome::Undecided(spent) => Ok(Trial::Ended(Ended::Undecided(spent))),
        Outcome::Stopped => Ok(Trial::Stopped),
    }
}
