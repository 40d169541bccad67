//! Pair: below two nodes more edges must pass than there are borders between two rows. Those that
//! pass begin at one of the nodes or above it, and end below both. They are counted by bits: an
//! edge is known by the node that it enters and its operand, so a row of bits for each operand has
//! each edge once, also where two lead from one node to another.
ghost use Rattle.std.specs.Prelude.{◌≡◌, ◌↔◌, ◌+◌, ◌^◌, ◌<◌, ◌≤◌, IsTrue, length, count_ones};
ghost use Rattle.bx_grid.specs.declared.count.CountProof.TheVariants.{Pair};
ghost use Rattle.bx_bounds.specs.Numbers.{IsLeast};
ghost use Rattle.bx_bounds.specs.Precedes.{kind_place, IsFirst};
ghost use Rattle.bx_bounds.specs.Refutes.{Refutes};
ghost use Rattle.bx_bounds.specs.Rows.{ArePassing, passing_bits};

use crate::cut::borders_between;
use crate::rows::{Rows, descendants, entered_from_above};
use bx_grid::{CountProof, Ratio};
use bx_network::MappedNet;

// What is asked of each node of a network when edges are counted.
#[derive(Drop)]
pub struct Passing {
    // The node's descendants.
    pub below: Rows,
    // The nodes that an edge from this node, or from an ancestor of it, enters by the first
    // operand, and those that one enters by the second.
    pub first: Rows,
    pub second: Rows,
}

impl Passing {
    // Those of a network.
    pub fn of(net: &MappedNet) -> Passing
        requires { length net.now.nodes ≤ 128 }
        ensures { ArePassing net.now.edges result.below result.first result.second }
    {
        Passing {
            below: descendants(net),
            first: entered_from_above(net, 0),
            second: entered_from_above(net, 1),
        }
    }
}

// Whether there are such nodes, the lesser first, and more edges pass below them than there are
// borders.
pub fn is_pair(net: &MappedNet, passing: &Passing, ratio: Ratio, one: u32, two: u32) -> bool
    requires few { length net.now.nodes ≤ 128 }
    requires passing { ArePassing net.now.edges passing.now.below passing.now.first
        passing.now.second }
    ensures { IsTrue result ↔ Refutes net.now ratio (Pair one two) }
{
    if two < one || two >= net.node_count() {
        return false;
    }
    u64::from(passing_below(passing, one, two)) > borders_between(ratio)
}

// How many edges pass below both nodes.
fn passing_below(passing: &Passing, one: u32, two: u32) -> u32
    requires one { one < 128 }
    requires two { two < 128 }
    ensures bits { result ≡
        count_ones (passing_bits passing.now.below passing.now.first one two) + count_ones
        (passing_bits passing.now.below passing.now.second one two) }
    ensures first_fits { passing_bits passing.now.below passing.now.first one two < 2 ^ 128 }
    ensures second_fits { passing_bits passing.now.below passing.now.second one two < 2 ^ 128 }
{
    let (u, v) = (one as usize, two as usize);
    let below = passing.below[u] & passing.below[v];
    let by_first = (passing.first[u] | passing.first[v]) & below;
    let by_second = (passing.second[u] | passing.second[v]) & below;
    by_first.count_ones() + by_second.count_ones()
}

// The first such proof.
pub fn first_pair(net: &MappedNet, ratio: Ratio) -> Option<CountProof>
    requires { length net.now.nodes ≤ 128 }
    ensures { IsFirst (λ c. (kind_place c ≡ 3) × Refutes net.now ratio c) result }
{
    let passing = Passing::of(net);
    for one in 0..net.node_count() {
        if let Some(two) = first_pair_with(net, &passing, ratio, one) {
            return Some(CountProof::Pair { one, two });
        }
    }
    None
}

// The other node of the first such proof that has this one first.
fn first_pair_with(net: &MappedNet, passing: &Passing, ratio: Ratio, one: u32) -> Option<u32>
    requires few { length net.now.nodes ≤ 128 }
    requires passing { ArePassing net.now.edges passing.now.below passing.now.first
        passing.now.second }
    ensures { IsLeast (λ two. Refutes net.now ratio (Pair one two)) result }
{
    for two in one..net.node_count() {
        if is_pair(net, passing, ratio, one, two) {
            return Some(two);
        }
    }
    None
}
