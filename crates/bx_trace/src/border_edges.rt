//! Which edge each border carries. An edge goes down from tile to tile, so that from the first
//! border to the last each is known from those above it: on a node's tile an edge begins, and on any
//! other the form hands one on.
ghost use Rattle.std.specs.Prelude.{◌≡◌, ◌*◌, ◌<◌, ◌≤◌, ℕ, length, Some, IfOk};
ghost use Rattle.bx_grid.specs.Tiles.{tile_count, IsGrid, IsTile};
ghost use Rattle.bx_layout.specs.declared.layout.Layout.{Layout};
ghost use Rattle.bx_layout.specs.Layouts.{leaves, edge_on as edge_of};
ghost use Rattle.bx_layout.specs.TileForms.{on_side, HasWireForm};
ghost use Rattle.bx_network.specs.Networks.{IsNetwork, HasSlot};
ghost use Rattle.bx_network.specs.Values.{edge_out};
ghost use Rattle.bx_trace.specs.Known.{entry, target_of, Begins, IsLayoutOf, IsStraight, KnowsTargets, KnowsBorders};

use crate::passing::{is_used, source};
use crate::ways::side_of;
use bx_forms::{Form, Side};
use bx_grid::{Ratio, border, entering};
use bx_layout::FormGrid;
use bx_logic::NoMemory;
use bx_network::MappedNet;
use std::alloc::Global;

/// The edge on each border, or none, of the layout that has this form grid and these nodes on its
/// tiles, where there is one, and where of a fan's two edges to one node that of slot 0 goes out on
/// the left. Time and memory are linear in tiles.
///
/// # Errors
///
/// `NoMemory` if memory is refused for the list.
pub fn borders(
    alloc: Global,
    net: &MappedNet,
    grid: &FormGrid,
    nodes: &[Option<u32>],
    targets: &[Option<u32>],
) -> Result<Vec<Option<u32>>, NoMemory>
    requires network { IsNetwork net.now }
    requires nodes { length nodes.now ≡ tile_count grid.now.ratio }
    requires own { (t v : ℕ) → entry nodes.now t ≡ Some v → v < length net.now.nodes }
    requires targets { length targets.now ≡ 2 * tile_count grid.now.ratio }
    ensures { IfOk result (λ edges. (L : Layout) → IsLayoutOf net.now grid.now nodes.now L →
        IsStraight net.now L → KnowsTargets net.now L targets.now → edges.items ≡ L.borders) }
{
    let ratio = grid.ratio();
    let borders = 2 * (ratio.w * ratio.h);
    let mut edges = Vec::with_capacity(alloc, borders as usize)?;
    for b in 0..borders {
        edges.push(carried(net, grid, nodes, targets, &edges, b))?;
    }
    Ok(edges)
}

// What this border carries, where it is known what those before it carry.
fn carried(
    net: &MappedNet,
    grid: &FormGrid,
    nodes: &[Option<u32>],
    targets: &[Option<u32>],
    edges: &[Option<u32>],
    b: u32,
) -> Option<u32>
    requires network { IsNetwork net.now }
    requires nodes { length nodes.now ≡ tile_count grid.now.ratio }
    requires own { (t v : ℕ) → entry nodes.now t ≡ Some v → v < length net.now.nodes }
    requires targets { length targets.now ≡ 2 * tile_count grid.now.ratio }
    requires border { b < 2 * tile_count grid.now.ratio }
    ensures { (L : Layout) → IsLayoutOf net.now grid.now nodes.now L → IsStraight net.now L →
        KnowsTargets net.now L targets.now → KnowsBorders L edges.now b →
        result ≡ edge_of L b }
{
    let ratio = grid.ratio();
    let tile = b / 2;
    let side = side_of(b);
    let form = grid.tile(tile)?;
    match nodes[tile as usize] {
        Some(v) => {
            let left = targets[border(tile, Side::Left) as usize];
            begun(net, form, v, left, side)
        }
        None => passed(ratio, form, edges, tile, side),
    }
}

// The edge that begins on the tile of a node and leaves it on this lower side, where the way from
// the lower left leads to this node.
fn begun(net: &MappedNet, form: Form, v: u32, left: Option<u32>, side: Side) -> Option<u32>
    requires network { IsNetwork net.now }
    requires node { v < length net.now.nodes }
    ensures { (L : Layout) (t : ℕ) → Begins net.now L v t form left → result ≡ leaves L t side }
{
    if !is_used(form.lower(), side) {
        return None;
    }
    match net.node(v).kind.slots() {
        0 => None,
        1 => Some(net.edge_out(v, 0)),
        _ => Some(net.edge_out(v, slot_on(net, v, left, side))),
    }
}

// The slot of the edge that leaves a fan on this lower side: on the left that of slot 0 if its edge
// leads where the way from there leads, and on the right the other.
fn slot_on(net: &MappedNet, v: u32, left: Option<u32>, side: Side) -> u8
    requires network { IsNetwork net.now }
    requires fan { HasSlot net.now v 1 }
    ensures few { result ≤ 1 }
    ensures straight { left ≡ target_of net.now (edge_out net.now.edges v 0) →
        result ≡ on_side 0 1 side }
    ensures crossed { (left ≡ target_of net.now (edge_out net.now.edges v 0) → ⊥) →
        result ≡ on_side 1 0 side }
{
    let first = net.edge(net.edge_out(v, 0));
    match (left == Some(first.target), side) {
        (true, Side::Left) | (false, Side::Right) => 0,
        (true, Side::Right) | (false, Side::Left) => 1,
    }
}

// The edge that the form hands on to this lower side of a tile without a node.
fn passed(ratio: Ratio, form: Form, edges: &[Option<u32>], tile: u32, side: Side) -> Option<u32>
    requires grid { IsGrid ratio }
    requires tile { IsTile ratio tile }
    ensures { (L : Layout) → L.ratio ≡ ratio → HasWireForm L tile form →
        KnowsBorders L edges.now (2 * tile) → result ≡ leaves L tile side }
{
    if form.node().is_some() {
        return None;
    }
    let from = source(form, side)?;
    edge_on(edges, entering(ratio, tile, from)?)
}

// The edge on a border, or none where the border isn't there yet.
fn edge_on(edges: &[Option<u32>], b: u32) -> Option<u32>
    ensures { result ≡ entry edges.now b }
{
    edges.get(b as usize).copied().unwrap_or(None)
}
