//! Crowd: more nodes must stand in some rows than there are tiles in them.
ghost use Rattle.std.specs.Prelude.{◌≡◌, ◌↔◌, ◌<◌, ◌≤◌, IsTrue, length};
ghost use Rattle.bx_grid.specs.declared.count.CountProof.TheVariants.{Crowd};
ghost use Rattle.bx_bounds.specs.Numbers.{IsCount, IsLeast};
ghost use Rattle.bx_bounds.specs.Precedes.{kind_place, IsFirst};
ghost use Rattle.bx_bounds.specs.Refutes.{IsKeptTo, Refutes};

use crate::windows::{is_earliest_from, is_latest_to};
use bx_grid::{CountProof, Ratio};
use bx_network::MappedNet;

// Whether there are such rows, and more nodes are kept to them than they have tiles. It looks at
// each node.
pub fn is_crowd(net: &MappedNet, ratio: Ratio, first: u32, last: u32) -> bool
    ensures { IsTrue result ↔ Refutes net.now ratio (Crowd first last) }
{
    if last < first || last >= ratio.h {
        return false;
    }
    let tiles = u64::from(ratio.w) * (u64::from(last - first) + 1);
    u64::from(kept_to(net, ratio.h, first, last)) > tiles
}

// How many nodes are kept to these rows.
fn kept_to(net: &MappedNet, height: u32, first: u32, last: u32) -> u32
    ensures { IsCount (IsKeptTo net.now height first last) result }
{
    let mut count = 0;
    for v in 0..net.node_count() {
        if is_kept_to(net, height, first, last, v) {
            count += 1;
        }
    }
    count
}

fn is_kept_to(net: &MappedNet, height: u32, first: u32, last: u32, v: u32) -> bool
    requires { v < length net.now.nodes }
    ensures { IsTrue result ↔ IsKeptTo net.now height first last v }
{
    is_earliest_from(net, v, first, height) && is_latest_to(net, v, last, height)
}

// The first such proof.
pub fn first_crowd(net: &MappedNet, ratio: Ratio) -> Option<CountProof>
    ensures { IsFirst (λ c. (kind_place c ≡ 1) × Refutes net.now ratio c) result }
{
    for first in 0..ratio.h {
        if let Some(last) = first_crowd_from(net, ratio, first) {
            return Some(CountProof::Crowd { first, last });
        }
    }
    None
}

// The last of the rows in the first such proof that begins with this row.
fn first_crowd_from(net: &MappedNet, ratio: Ratio, first: u32) -> Option<u32>
    ensures { IsLeast (λ last. Refutes net.now ratio (Crowd first last)) result }
{
    for last in first..ratio.h {
        if is_crowd(net, ratio, first, last) {
            return Some(last);
        }
    }
    None
}
