//! Whether the edges of a layout are balanced: each enters a tile, or begins there, as often as it
//! leaves it, or ends there, once at most. On a tile that neither holds one of its nodes nor carries
//! it an edge is, so that each is looked at on its two nodes' tiles and on those that carry it alone.
ghost use Rattle.std.specs.Prelude.{◌≡◌, ◌↔◌, ◌<◌, ◌≤◌, ℕ, Option, Some, IfSome, IsTrue, length, slice_get};
ghost use Rattle.bx_grid.specs.Tiles.{tile_count, IsGrid, IsTile};
ghost use Rattle.bx_layout.specs.Layouts.{Stands, one_if_is as one_of, ways_in as ways_in_of, ways_out as ways_out_of, stands_count as stands_count_of};
ghost use Rattle.bx_layout.specs.Legal.{IsPlaced, IsBalancedAt, IsOf};
ghost use Rattle.bx_trace.specs.Tests.{IsBalancedWith, IsBalancedAtEnds, AreEndsBalanced, MayCarry, IsPassedOn, IsPassed, ArePassed};

use crate::around::{enters, leaves};
use bx_forms::Side;
use bx_layout::Layout;
use bx_network::{Edge, MappedNet};

/// Whether each edge is balanced on the tiles of its two nodes. Time is linear in edges.
pub fn are_ends_balanced(net: &MappedNet, layout: &Layout) -> bool
    requires grid { IsGrid layout.now.ratio }
    requires placed { IsPlaced net.now layout.now }
    ensures { IsTrue result ↔ AreEndsBalanced net.now layout.now }
{
    for e in 0..net.edge_count() {
        if !is_balanced_at_ends(layout, e, net.edge(e)) {
            return false;
        }
    }
    true
}

// Whether the edge is balanced where its two nodes stand.
fn is_balanced_at_ends(layout: &Layout, e: u32, edge: Edge) -> bool
    requires grid { IsGrid layout.now.ratio }
    requires inside { (v t : ℕ) → Stands layout.now v t → IsTile layout.now.ratio t }
    ensures { IsTrue result ↔ IsBalancedAtEnds layout.now e edge }
{
    is_balanced_with(layout, edge.source, e, edge) && is_balanced_with(layout, edge.target, e, edge)
}

// Whether the edge is balanced where this node stands.
fn is_balanced_with(layout: &Layout, v: u32, e: u32, edge: Edge) -> bool
    requires grid { IsGrid layout.now.ratio }
    requires inside { (v t : ℕ) → Stands layout.now v t → IsTile layout.now.ratio t }
    ensures { IsTrue result ↔ IsBalancedWith layout.now v e edge }
{
    match layout.places.as_slice().get(v as usize).copied() {
        None => true,
        Some(tile) => is_balanced_at(layout, tile, e, edge),
    }
}

/// Whether each edge that enters a tile or leaves it is balanced there, and is one of the node that
/// stands there, if one does. Time is linear in tiles.
pub fn are_passed(net: &MappedNet, layout: &Layout, nodes: &[Option<u32>]) -> bool
    requires grid { IsGrid layout.now.ratio }
    requires placed { IsPlaced net.now layout.now }
    requires nodes { length nodes.now ≡ tile_count layout.now.ratio }
    ensures { IsTrue result ↔ ArePassed net.now layout.now nodes.now }
{
    for tile in 0..layout.ratio.w * layout.ratio.h {
        if !is_passed(net, layout, tile, nodes[tile as usize]) {
            return false;
        }
    }
    true
}

// Whether each edge that enters this tile or leaves it may.
fn is_passed(net: &MappedNet, layout: &Layout, tile: u32, node: Option<u32>) -> bool
    requires grid { IsGrid layout.now.ratio }
    requires placed { IsPlaced net.now layout.now }
    requires tile { IsTile layout.now.ratio tile }
    ensures { IsTrue result ↔ IsPassed net.now layout.now tile node }
{
    is_passed_on(net, layout, tile, node, Side::Left)
        && is_passed_on(net, layout, tile, node, Side::Right)
}

// Whether what enters the tile on this side, and what leaves it there, may.
fn is_passed_on(net: &MappedNet, layout: &Layout, tile: u32, node: Option<u32>, side: Side) -> bool
    requires grid { IsGrid layout.now.ratio }
    requires placed { IsPlaced net.now layout.now }
    requires tile { IsTile layout.now.ratio tile }
    ensures { IsTrue result ↔ IsPassedOn net.now layout.now tile node side }
{
    may_carry(net, layout, tile, node, enters(layout, tile, side))
        && may_carry(net, layout, tile, node, leaves(layout, tile, side))
}

// Whether there is no edge, or one that is balanced on the tile and is one of this node there.
fn may_carry(
    net: &MappedNet,
    layout: &Layout,
    tile: u32,
    node: Option<u32>,
    carried: Option<u32>,
) -> bool
    requires grid { IsGrid layout.now.ratio }
    requires tile { IsTile layout.now.ratio tile }
    requires carried { IfSome carried (λ e. e < length net.now.edges) }
    ensures { IsTrue result ↔ MayCarry net.now layout.now tile node carried }
{
    match carried {
        None => true,
        Some(e) => {
            let edge = net.edge(e);
            is_balanced_at(layout, tile, e, edge) && is_own(node, edge)
        }
    }
}

// Whether there is no node, or one at which the edge begins or ends.
fn is_own(node: Option<u32>, edge: Edge) -> bool
    ensures { IsTrue result ↔ ((v : ℕ) → node ≡ Some v → IsOf edge v) }
{
    match node {
        None => true,
        Some(v) => edge.source == v || edge.target == v,
    }
}

// Whether the edge enters the tile, or begins there, as often as it leaves it, or ends there.
fn is_balanced_at(layout: &Layout, tile: u32, e: u32, edge: Edge) -> bool
    requires grid { IsGrid layout.now.ratio }
    requires tile { IsTile layout.now.ratio tile }
    ensures { IsTrue result ↔ IsBalancedAt layout.now tile e edge }
{
    let before = ways_in(layout, tile, e) + stands_count(layout, tile, edge.source);
    let after = ways_out(layout, tile, e) + stands_count(layout, tile, edge.target);
    before == after && before <= 1
}

fn ways_in(layout: &Layout, tile: u32, e: u32) -> u8
    requires grid { IsGrid layout.now.ratio }
    requires tile { IsTile layout.now.ratio tile }
    ensures is { result ≡ ways_in_of layout.now tile e }
    ensures few { result ≤ 2 }
{
    one_if_is(enters(layout, tile, Side::Left), e) + one_if_is(enters(layout, tile, Side::Right), e)
}

fn ways_out(layout: &Layout, tile: u32, e: u32) -> u8
    requires grid { IsGrid layout.now.ratio }
    requires tile { IsTile layout.now.ratio tile }
    ensures is { result ≡ ways_out_of layout.now tile e }
    ensures few { result ≤ 2 }
{
    one_if_is(leaves(layout, tile, Side::Left), e) + one_if_is(leaves(layout, tile, Side::Right), e)
}

fn stands_count(layout: &Layout, tile: u32, v: u32) -> u8
    ensures is { result ≡ stands_count_of layout.now tile v }
    ensures few { result ≤ 1 }
{
    let place = layout.places.as_slice().get(v as usize).copied();
    one_if_is(place, tile)
}

fn one_if_is(found: Option<u32>, n: u32) -> u8
    ensures is { result ≡ one_of found n }
    ensures few { result ≤ 1 }
{
    match found {
        None => 0,
        Some(m) => u8::from(m == n),
    }
}
