//! Whether a count proof holds, and the first that does.
ghost use Rattle.std.specs.Prelude.{◌↔◌, ◌≤◌, IsTrue, IfSome, length};
ghost use Rattle.bx_layout.specs.Permits.{PermitTest};
ghost use Rattle.bx_layout.specs.Legal.{LacksLayout};
ghost use Rattle.bx_bounds.specs.Precedes.{IsFirst};
ghost use Rattle.bx_bounds.specs.Refutes.{Refutes};

use crate::crowd::{first_crowd, is_crowd};
use crate::cut::{first_cut, is_cut};
use crate::late::{first_late, is_late};
use crate::pair::{Passing, first_pair, is_pair};
use crate::rows::MOST_COUNTED;
use bx_grid::{CountProof, Ratio};
use bx_network::MappedNet;

/// The first count proof that refutes the ratio, by kind and then by its numbers, and none exactly
/// where there is no such proof. Takes no memory. Its time is that of h * h * n steps for h rows
/// and n nodes, and of n * n more.
pub fn refute(net: &MappedNet, ratio: Ratio) -> Option<CountProof>
    requires { length net.now.nodes ≤ 128 }
    ensures first { IsFirst (Refutes net.now ratio) result }
    ensures no_layout { IfSome result
        (λ proof. (permit : PermitTest) → LacksLayout net.now permit ratio) }
{
    let nodes = net.node_count() as usize;
    prove!(nodes <= MOST_COUNTED);
    if let Some(proof) = first_late(net, ratio) {
        return Some(proof);
    }
    if let Some(proof) = first_crowd(net, ratio) {
        return Some(proof);
    }
    if let Some(proof) = first_cut(net, ratio) {
        return Some(proof);
    }
    first_pair(net, ratio)
}

/// Whether the proof refutes the ratio. One whose numbers are out of range refutes none. Takes no
/// memory.
pub fn check_count(net: &MappedNet, ratio: Ratio, proof: CountProof) -> bool
    requires { length net.now.nodes ≤ 128 }
    ensures exact { IsTrue result ↔ Refutes net.now ratio proof }
    ensures no_layout { IsTrue result → (permit : PermitTest) → LacksLayout net.now permit ratio }
{
    let nodes = net.node_count() as usize;
    prove!(nodes <= MOST_COUNTED);
    match proof {
        CountProof::Late { node } => is_late(net, ratio.h, node),
        CountProof::Crowd { first, last } => is_crowd(net, ratio, first, last),
        CountProof::Cut { row } => is_cut(net, ratio, row),
        CountProof::Pair { one, two } => is_pair(net, &Passing::of(net), ratio, one, two),
    }
}
