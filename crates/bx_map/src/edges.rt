//! The edges of a mapped network, by the node that each leaves and its slot.
ghost use Rattle.std.specs.Prelude.{◌≡◌, ◌<◌, ◌≤◌, ◌+◌, ◌^◌, ◌++◌, IfOk, OnOk, length};
ghost use Rattle.std.specs.List.{AllByRecursion};
ghost use Rattle.bx_map.specs.FanOuts.{IsConsumerOf, tree_of};
ghost use Rattle.bx_map.specs.Numbers.{cell_edges, edge_to, fan_edges, numbering_of};

use crate::cell::Target;
use crate::consumer::Consumer;
use crate::fan_outs::FanOuts;
use bx_logic::NoMemory;
use bx_network::Edge;
use std::alloc::Global;

// A list that is halved so often has one item left, if it had fewer than 2^32.
const MOST_HALVINGS: u32 = 32;

// All edges, in time and memory linear in their number.
pub fn edges_of(alloc: Global, fan_outs: &FanOuts) -> Result<Vec<Edge>, NoMemory>
    ensures { IfOk result (λ edges. edges.items ≡ (numbering_of fan_outs.now).edges) }
{
    let mut edges = Vec::new(alloc);
    for cell in 0..fan_outs.cells().len() {
        put_cell_edges(&mut edges, fan_outs, cell)?;
    }
    Ok(edges)
}

// Appends the edges that leave a cell and its fans.
fn put_cell_edges(edges: &mut Vec<Edge>, fan_outs: &FanOuts, cell: usize) -> Result<(), NoMemory>
    requires { cell < length fan_outs.now.cells }
    ensures { OnOk result (edges.new.items ≡ edges.old.items ++ cell_edges fan_outs.now cell) }
{
    let node = fan_outs.number(cell);
    let consumers = fan_outs.consumers(cell);
    let target = fan_outs.entry(node + 1, consumers);
    edges.push(edge_to(node, 0, target))?;
    put_fan_edges(edges, fan_outs, node + 1, consumers, MOST_HALVINGS)
}

// Appends the edges that leave the fans of these consumers, numbered from `v` on. The consumers are halved
// until each is alone: at most as often as `halvings` says, which is how many of these calls are in one
// another.
fn put_fan_edges(
    edges: &mut Vec<Edge>,
    fan_outs: &FanOuts,
    v: u32,
    consumers: &[Consumer],
    halvings: u32,
) -> Result<(), NoMemory>
    requires some { 0 < length consumers.now }
    requires own { AllByRecursion (IsConsumerOf fan_outs.now) consumers.now }
    requires numbers { v + length consumers.now < 4294967297 }
    requires shallow { length consumers.now ≤ 2 ^ halvings }
    ensures { OnOk result (edges.new.items
        ≡ edges.old.items ++ fan_edges fan_outs.now v (tree_of consumers.now)) }
{
    if consumers.len() == 1 {
        return Ok(());
    }
    let (first, second) = consumers.split_at(consumers.len().div_ceil(2));
    let behind = v + first.len() as u32;
    let target = fan_outs.entry(v + 1, first);
    edges.push(edge_to(v, 0, target))?;
    let other = fan_outs.entry(behind, second);
    edges.push(edge_to(v, 1, other))?;
    put_fan_edges(edges, fan_outs, v + 1, first, halvings - 1)?;
    put_fan_edges(edges, fan_outs, behind, second, halvings - 1)
}

// The edge from a slot of a node to where it ends.
fn edge_to(source: u32, slot: u8, target: Target) -> Edge
    ensures { result ≡ edge_to source slot target }
{
    Edge {
        source,
        slot,
        target: target.node,
        operand: target.operand,
    }
}
