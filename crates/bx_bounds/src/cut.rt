//! Cut: more edges must cross from a row to the next than there are borders between them.
ghost use Rattle.std.specs.Prelude.{◌≡◌, ◌↔◌, ◌+◌, ◌^◌, ◌<◌, IsTrue, length};
ghost use Rattle.bx_grid.specs.declared.count.CountProof.TheVariants.{Cut};
ghost use Rattle.bx_network.specs.Networks.{IsNetwork};
ghost use Rattle.bx_bounds.specs.Numbers.{IsCount};
ghost use Rattle.bx_bounds.specs.Precedes.{kind_place, IsFirst};
ghost use Rattle.bx_bounds.specs.Refutes.{IsCutAt, Refutes, borders_between as borders_of};

use crate::windows::{is_earliest_from, is_latest_to};
use bx_grid::{CountProof, Ratio};
use bx_network::MappedNet;

// Whether there is a row below this one, and more edges cross to it than there are borders. It
// looks at each edge.
pub fn is_cut(net: &MappedNet, ratio: Ratio, row: u32) -> bool
    ensures { IsTrue result ↔ Refutes net.now ratio (Cut row) }
{
    if u64::from(row) + 1 >= u64::from(ratio.h) {
        return false;
    }
    u64::from(cut_at(net, ratio.h, row)) > borders_between(ratio)
}

// How many borders lead from a row to the next.
pub fn borders_between(ratio: Ratio) -> u64
    ensures { result ≡ borders_of ratio }
{
    (2 * u64::from(ratio.w)).saturating_sub(1)
}

// How many edges must cross from this row to the next.
fn cut_at(net: &MappedNet, height: u32, row: u32) -> u32
    requires { row + 1 < 2 ^ 32 }
    ensures { IsCount (IsCutAt net.now height row) result }
{
    let mut count = 0;
    for e in 0..net.edge_count() {
        if is_cut_at(net, height, row, e) {
            count += 1;
        }
    }
    count
}

fn is_cut_at(net: &MappedNet, height: u32, row: u32, e: u32) -> bool
    requires network { IsNetwork net.now }
    requires edge { e < length net.now.edges }
    requires row { row + 1 < 2 ^ 32 }
    ensures { IsTrue result ↔ IsCutAt net.now height row e }
{
    let edge = net.edge(e);
    is_latest_to(net, edge.source, row, height)
        && is_earliest_from(net, edge.target, row + 1, height)
}

// The first such proof.
pub fn first_cut(net: &MappedNet, ratio: Ratio) -> Option<CountProof>
    ensures { IsFirst (λ c. (kind_place c ≡ 2) × Refutes net.now ratio c) result }
{
    for row in 0..ratio.h {
        if is_cut(net, ratio, row) {
            return Some(CountProof::Cut { row });
        }
    }
    None
}
