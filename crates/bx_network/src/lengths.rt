//! How long the longest paths of a network are, from the inputs and to the outputs, for all nodes in one
//! walk over the edges each.
ghost use Rattle.std.specs.Prelude.{◌≡◌, ◌<◌, IfOk, slice_index, length};
ghost use Rattle.bx_network.specs.Networks.{IsNetwork, network_of};
ghost use Rattle.bx_network.specs.Mapped.{AreDowns, AreUps, with_edge};

use crate::{Edge, Node};
use bx_logic::NoMemory;
use std::alloc::Global;

// For each node how long the longest path from an input to it is. An edge stands behind those that enter
// its source, so one walk is enough.
pub fn downs(alloc: Global, nodes: &[Node], edges: &[Edge]) -> Result<Vec<u32>, NoMemory>
    requires { IsNetwork (network_of nodes.now edges.now) }
    ensures { IfOk result (λ lengths. AreDowns (network_of nodes.now edges.now) lengths.items) }
{
    let mut lengths = vec![in alloc; 0u32; nodes.len()]?;
    for number in 0..edges.len() {
        let edge = edges[number];
        raise(&mut lengths, edge.source, edge.target);
    }
    Ok(lengths)
}

// For each node how long the longest path from it to an output is, by a walk from the last edge to the
// first.
pub fn ups(alloc: Global, nodes: &[Node], edges: &[Edge]) -> Result<Vec<u32>, NoMemory>
    requires { IsNetwork (network_of nodes.now edges.now) }
    ensures { IfOk result (λ lengths. AreUps (network_of nodes.now edges.now) lengths.items) }
{
    let mut lengths = vec![in alloc; 0u32; nodes.len()]?;
    for done in 0..edges.len() {
        let edge = edges[edges.len() - 1 - done];
        raise(&mut lengths, edge.target, edge.source);
    }
    Ok(lengths)
}

// Makes the length at one place at least one more than that at another.
fn raise(lengths: &mut Vec<u32>, from: u32, to: u32)
    requires from_within { from < length lengths.old.items }
    requires to_within { to < length lengths.old.items }
    requires short { slice_index lengths.old.items from < 4294967295 }
    ensures { lengths.new.items ≡ with_edge lengths.old.items from to }
{
    let longer = lengths[from as usize] + 1;
    let own = lengths[to as usize];
    lengths[to as usize] = own.max(longer);
}
