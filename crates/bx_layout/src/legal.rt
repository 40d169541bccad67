//! Whether a layout is legal: the six conditions one after the other, each tile and each edge
//! looked at a constant number of times for each other.
ghost use Rattle.std.specs.Prelude.{◌≡◌, ◌↔◌, ◌⊎◌, ◌<◌, ◌≤◌, ◌*◌, ◌^◌, ℕ, List, Option, Some, None, IsSome, IfSome, IsTrue, length, slice_get, slice_index_or};
ghost use Rattle.bx_forms.specs.declared.side.Side.{Side};
ghost use Rattle.bx_grid.specs.declared.ratio.Ratio.{Ratio};
ghost use Rattle.bx_grid.specs.Tiles.{tile_count, IsGrid, IsTile, below as tile_below};
ghost use Rattle.bx_network.specs.declared.node.Edge.{Edge};
ghost use Rattle.bx_layout.specs.Layouts.{one_if_is as one_of, ways_in as ways_in_of, ways_out as ways_out_of, stands_count as stands_count_of, leaves as leaves_of};
ghost use Rattle.bx_layout.specs.Permits.{Allows, all_forms, test_of};
ghost use Rattle.bx_layout.specs.TileForms.{HasForm};
ghost use Rattle.bx_layout.specs.Legal.{IsPlaced, StandsAtItsEnd, HasItsEnds, StaysOnGrid, IsBalancedAt, IsBalanced, IsOf, IsAloneOn, IsAlone, NodesAreAlone, IsPermitted, IsLegal};

use crate::around::{enters, leaves};
use crate::layout::Layout;
use crate::permit::Permit;
use crate::tile_form::tile_form;
use bx_forms::{Kind, Side};
use bx_grid::{MOST_TILES, Ratio, below, column_and_row};
use bx_network::{Edge, MappedNet};

/// Whether the layout is legal: each node on a tile of its own, inputs in the first row and outputs
/// in the last, each edge on a way of borders from its source to its target, and each form
/// permitted. Takes no memory.
pub fn is_legal(net: &MappedNet, permit: &Permit, layout: &Layout) -> bool
    ensures { IsTrue result ↔ IsLegal net.now (test_of permit.now) layout.now }
{
    if !is_grid(layout.ratio) {
        return false;
    }
    if !is_placed(net, layout) {
        return false;
    }
    if !has_its_ends(net, layout) || !stays_on_grid(layout) {
        return false;
    }
    if !is_balanced(net, layout) || !nodes_are_alone(net, layout) {
        return false;
    }
    is_permitted(net, permit, layout)
}

// Whether a grid can have these sides.
fn is_grid(ratio: Ratio) -> bool
    ensures { IsTrue result ↔ IsGrid ratio }
{
    ratio.w >= 1 && ratio.h >= 1 && u64::from(ratio.w) * u64::from(ratio.h) <= u64::from(MOST_TILES)
}

// Condition 1.
fn is_placed(net: &MappedNet, layout: &Layout) -> bool
    requires { IsGrid layout.now.ratio }
    ensures { IsTrue result ↔ IsPlaced net.now layout.now }
{
    let tiles = layout.ratio.w * layout.ratio.h;
    let places = layout.places.as_slice();
    let borders = layout.borders.as_slice();
    let whole = places.len() == net.node_count() as usize && borders.len() == 2 * tiles as usize;
    whole && are_edges(borders, net.edge_count()) && are_tiles(places, tiles) && are_apart(places)
}

// Whether each of these is none, or the number of an edge.
fn are_edges(borders: &[Option<u32>], count: u32) -> bool
    ensures { IsTrue result ↔ ((b e : ℕ) → slice_index_or borders.now b None ≡ Some e → e < count) }
{
    for border in borders {
        if let Some(e) = *border {
            if e >= count {
                return false;
            }
        }
    }
    true
}

// Whether each of these is the number of a tile.
fn are_tiles(places: &[u32], count: u32) -> bool
    ensures { IsTrue result ↔ ((v t : ℕ) → slice_get places.now v ≡ Some t → t < count) }
{
    for place in places {
        if *place >= count {
            return false;
        }
    }
    true
}

// Whether no two of these are the same.
fn are_apart(places: &[u32]) -> bool
    ensures { IsTrue result ↔
        ((u v t : ℕ) → slice_get places.now u ≡ Some t → slice_get places.now v ≡ Some t → u ≡ v) }
{
    for v in 0..places.len() {
        if places[..v].contains(&places[v]) {
            return false;
        }
    }
    true
}

// Condition 2.
fn has_its_ends(net: &MappedNet, layout: &Layout) -> bool
    requires grid { IsGrid layout.now.ratio }
    requires placed { IsPlaced net.now layout.now }
    ensures { IsTrue result ↔ HasItsEnds net.now layout.now }
{
    let places = layout.places.as_slice();
    for v in 0..net.node_count() {
        if !stands_at_its_end(net.node(v).kind, layout.ratio, places[v as usize]) {
            return false;
        }
    }
    true
}

// Whether a node of this kind may stand on this tile.
fn stands_at_its_end(kind: Kind, ratio: Ratio, tile: u32) -> bool
    requires grid { IsGrid ratio }
    requires tile { IsTile ratio tile }
    ensures { IsTrue result ↔ StandsAtItsEnd kind ratio tile }
{
    let (_, row) = column_and_row(ratio, tile);
    match kind {
        Kind::Input => row == 0,
        Kind::Output => row + 1 == ratio.h,
        _ => true,
    }
}

// Condition 3.
fn stays_on_grid(layout: &Layout) -> bool
    requires { IsGrid layout.now.ratio }
    ensures { IsTrue result ↔ StaysOnGrid layout.now }
{
    for tile in 0..layout.ratio.w * layout.ratio.h {
        if leads_off(layout, tile, Side::Left) || leads_off(layout, tile, Side::Right) {
            return false;
        }
    }
    true
}

// Whether an edge leaves the tile, and the grid, on this lower side.
fn leads_off(layout: &Layout, tile: u32, side: Side) -> bool
    requires grid { IsGrid layout.now.ratio }
    requires tile { IsTile layout.now.ratio tile }
    ensures { IsTrue result ↔
        ((tile_below layout.now.ratio tile side ≡ None) × IsSome (leaves_of layout.now tile side)) }
{
    below(layout.ratio, tile, side).is_none() && leaves(layout, tile, side).is_some()
}

// Condition 4.
fn is_balanced(net: &MappedNet, layout: &Layout) -> bool
    requires grid { IsGrid layout.now.ratio }
    requires placed { IsPlaced net.now layout.now }
    ensures { IsTrue result ↔ IsBalanced net.now layout.now }
{
    for tile in 0..layout.ratio.w * layout.ratio.h {
        if !is_balanced_on(net, layout, tile) {
            return false;
        }
    }
    true
}

// Whether each edge enters this tile, or begins there, as often as it leaves it, or ends there.
fn is_balanced_on(net: &MappedNet, layout: &Layout, tile: u32) -> bool
    requires grid { IsGrid layout.now.ratio }
    requires placed { IsPlaced net.now layout.now }
    requires tile { IsTile layout.now.ratio tile }
    ensures { IsTrue result ↔
        ((e : ℕ) (edge : Edge) → slice_get net.now.edges e ≡ Some edge →
        IsBalancedAt layout.now tile e edge) }
{
    for e in 0..net.edge_count() {
        let edge = net.edge(e);
        if !is_balanced_at(layout, tile, e, edge) {
            return false;
        }
    }
    true
}

fn is_balanced_at(layout: &Layout, tile: u32, e: u32, edge: Edge) -> bool
    requires grid { IsGrid layout.now.ratio }
    requires tile { IsTile layout.now.ratio tile }
    ensures { IsTrue result ↔ IsBalancedAt layout.now tile e edge }
{
    let before = ways_in(layout, tile, e) + stands_count(layout, tile, edge.source);
    let after = ways_out(layout, tile, e) + stands_count(layout, tile, edge.target);
    before == after && before <= 1
}

fn ways_in(layout: &Layout, tile: u32, e: u32) -> u8
    requires grid { IsGrid layout.now.ratio }
    requires tile { IsTile layout.now.ratio tile }
    ensures is { result ≡ ways_in_of layout.now tile e }
    ensures few { result ≤ 2 }
{
    one_if_is(enters(layout, tile, Side::Left), e) + one_if_is(enters(layout, tile, Side::Right), e)
}

fn ways_out(layout: &Layout, tile: u32, e: u32) -> u8
    requires grid { IsGrid layout.now.ratio }
    requires tile { IsTile layout.now.ratio tile }
    ensures is { result ≡ ways_out_of layout.now tile e }
    ensures few { result ≤ 2 }
{
    one_if_is(leaves(layout, tile, Side::Left), e) + one_if_is(leaves(layout, tile, Side::Right), e)
}

fn stands_count(layout: &Layout, tile: u32, v: u32) -> u8
    ensures is { result ≡ stands_count_of layout.now tile v }
    ensures few { result ≤ 1 }
{
    let place = layout.places.as_slice().get(v as usize).copied();
    one_if_is(place, tile)
}

fn one_if_is(found: Option<u32>, n: u32) -> u8
    ensures is { result ≡ one_of found n }
    ensures few { result ≤ 1 }
{
    match found {
        None => 0,
        Some(m) => u8::from(m == n),
    }
}

// Condition 5.
fn nodes_are_alone(net: &MappedNet, layout: &Layout) -> bool
    requires grid { IsGrid layout.now.ratio }
    requires placed { IsPlaced net.now layout.now }
    ensures { IsTrue result ↔ NodesAreAlone net.now layout.now }
{
    let places = layout.places.as_slice();
    for v in 0..net.node_count() {
        if !is_alone(net, layout, v, places[v as usize]) {
            return false;
        }
    }
    true
}

// Whether this tile carries the edges of this node alone.
fn is_alone(net: &MappedNet, layout: &Layout, v: u32, tile: u32) -> bool
    requires grid { IsGrid layout.now.ratio }
    requires placed { IsPlaced net.now layout.now }
    requires tile { IsTile layout.now.ratio tile }
    ensures { IsTrue result ↔ IsAlone net.now layout.now v tile }
{
    is_alone_on(net, layout, v, tile, Side::Left) && is_alone_on(net, layout, v, tile, Side::Right)
}

// Whether what enters the tile on this side, and what leaves it there, is the node's.
fn is_alone_on(net: &MappedNet, layout: &Layout, v: u32, tile: u32, side: Side) -> bool
    requires grid { IsGrid layout.now.ratio }
    requires placed { IsPlaced net.now layout.now }
    requires tile { IsTile layout.now.ratio tile }
    ensures { IsTrue result ↔ IsAloneOn net.now layout.now v tile side }
{
    is_own(net, v, enters(layout, tile, side)) && is_own(net, v, leaves(layout, tile, side))
}

// Whether there is no edge, or one that begins or ends at this node.
fn is_own(net: &MappedNet, v: u32, edge: Option<u32>) -> bool
    requires { IfSome edge (λ e. e < length net.now.edges) }
    ensures { IsTrue result ↔
        ((e : ℕ) (own : Edge) → edge ≡ Some e → slice_get net.now.edges e ≡ Some own → IsOf own v) }
{
    match edge {
        None => true,
        Some(e) => {
            let edge = net.edge(e);
            edge.source == v || edge.target == v
        }
    }
}

// Condition 6.
fn is_permitted(net: &MappedNet, permit: &Permit, layout: &Layout) -> bool
    requires { IsLegal net.now all_forms layout.now }
    ensures { IsTrue result ↔ IsPermitted net.now (test_of permit.now) layout.now }
{
    for tile in 0..layout.ratio.w * layout.ratio.h {
        if !is_permitted_on(net, permit, layout, tile) {
            return false;
        }
    }
    true
}

// Whether the form of this tile, if it has one, may stand there.
fn is_permitted_on(net: &MappedNet, permit: &Permit, layout: &Layout, tile: u32) -> bool
    requires legal { IsLegal net.now all_forms layout.now }
    requires tile { IsTile layout.now.ratio tile }
    ensures { IsTrue result ↔
        ((form : ℕ) → HasForm net.now layout.now tile form →
        Allows (test_of permit.now) layout.now.ratio tile form) }
{
    match tile_form(net, layout, tile) {
        None => true,
        Some(form) => permit.allows(layout.ratio, tile, form),
    }
}
