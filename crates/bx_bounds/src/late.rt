//! Late: the longest path through a node has at least as many edges as there are rows.
ghost use Rattle.std.specs.Prelude.{◌≡◌, ◌↔◌, IsTrue};
ghost use Rattle.bx_bounds.specs.Precedes.{kind_place, IsFirst};
ghost use Rattle.bx_bounds.specs.Refutes.{IsLate, Refutes};

use bx_grid::{CountProof, Ratio};
use bx_network::MappedNet;

// Whether there is such a node, and the path through it is too long for so many rows.
pub fn is_late(net: &MappedNet, height: u32, v: u32) -> bool
    ensures { IsTrue result ↔ IsLate net.now height v }
{
    v < net.node_count() && u64::from(height) <= u64::from(net.down(v)) + u64::from(net.up(v))
}

// The first such proof.
pub fn first_late(net: &MappedNet, ratio: Ratio) -> Option<CountProof>
    ensures { IsFirst (λ c. (kind_place c ≡ 0) × Refutes net.now ratio c) result }
{
    for node in 0..net.node_count() {
        if is_late(net, ratio.h, node) {
            return Some(CountProof::Late { node });
        }
    }
    None
}
