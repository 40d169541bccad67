//! Whether a legal layout has the given form on each tile, where it is known which node stands there:
//! by that node and the sides on which edges enter and leave, or by the way that edges go through.
ghost use Rattle.std.specs.Prelude.{◌≡◌, ◌↔◌, ◌<◌, ℕ, Some, None, IfSome, IsTrue, length};
ghost use Rattle.bx_forms.specs.declared.side.Side.{Side};
ghost use Rattle.bx_grid.specs.Tiles.{tile_count, IsGrid, IsTile};
ghost use Rattle.bx_network.specs.Networks.{IsNetwork};
ghost use Rattle.bx_layout.specs.Layouts.{Stands, IsFree, enters as enters_of, leaves as leaves_of};
ghost use Rattle.bx_layout.specs.Legal.{IsLegal};
ghost use Rattle.bx_layout.specs.Permits.{all_forms};
ghost use Rattle.bx_layout.specs.TileForms.{slot_of as slot_of_edge, on_side, upper_from, ComesFrom, IsWireOf, HasForm};
ghost use Rattle.bx_trace.specs.Known.{AreNodesAt};
ghost use Rattle.bx_trace.specs.Traced.{HasFormGrid};

use crate::around::{enters, leaves};
use bx_forms::{Form, Side, Sides};
use bx_layout::{FormGrid, Layout};
use bx_network::MappedNet;

/// Whether the layout, with these nodes on its tiles, has this form grid. Time is linear in tiles,
/// and it takes no memory.
pub fn has_form_grid(
    net: &MappedNet,
    grid: &FormGrid,
    layout: &Layout,
    nodes: &[Option<u32>],
) -> bool
    requires network { IsNetwork net.now }
    requires legal { IsLegal net.now all_forms layout.now }
    requires ratio { layout.now.ratio ≡ grid.now.ratio }
    requires whole { length nodes.now ≡ tile_count layout.now.ratio }
    requires nodes { AreNodesAt layout.now.places nodes.now }
    ensures { IsTrue result ↔ HasFormGrid net.now layout.now grid.now }
{
    let ratio = grid.ratio();
    for tile in 0..ratio.w * ratio.h {
        let form = tile_form(net, layout, tile, nodes[tile as usize]);
        if !is_same(form, grid.tile(tile)) {
            return false;
        }
    }
    true
}

// The form of this tile, on which this node stands or none does, or none where it has none.
fn tile_form(net: &MappedNet, layout: &Layout, tile: u32, node: Option<u32>) -> Option<Form>
    requires network { IsNetwork net.now }
    requires legal { IsLegal net.now all_forms layout.now }
    requires tile { IsTile layout.now.ratio tile }
    requires node { (v : ℕ) → (node ≡ Some v) ↔ Stands layout.now v tile }
    ensures { (form : ℕ) → (result ≡ Some form) ↔ HasForm net.now layout.now tile form }
{
    match node {
        Some(v) => node_form(net, layout, tile, v),
        None => wire_form(net, layout, tile),
    }
}

// The form of the tile on which this node stands.
fn node_form(net: &MappedNet, layout: &Layout, tile: u32, v: u32) -> Option<Form>
    requires network { IsNetwork net.now }
    requires legal { IsLegal net.now all_forms layout.now }
    requires stands { Stands layout.now v tile }
    ensures { (form : ℕ) → (result ≡ Some form) ↔ HasForm net.now layout.now tile form }
{
    let node = net.node(v);
    let upper = Sides {
        left: enters(layout, tile, Side::Left).is_some(),
        right: enters(layout, tile, Side::Right).is_some(),
    };
    let left = slot_of(net, leaves(layout, tile, Side::Left));
    let right = slot_of(net, leaves(layout, tile, Side::Right));
    Form::of_node(node.kind, upper, left, right)
}

// The slot by which an edge leaves its source.
fn slot_of(net: &MappedNet, edge: Option<u32>) -> Option<u8>
    requires { IfSome edge (λ e. e < length net.now.edges) }
    ensures { result ≡ slot_of_edge net.now edge }
{
    match edge {
        None => None,
        Some(e) => Some(net.edge(e).slot),
    }
}

// The form of a tile on which no node stands.
fn wire_form(net: &MappedNet, layout: &Layout, tile: u32) -> Option<Form>
    requires network { IsNetwork net.now }
    requires legal { IsLegal net.now all_forms layout.now }
    requires tile { IsTile layout.now.ratio tile }
    requires free { IsFree layout.now tile }
    ensures { (form : ℕ) → (result ≡ Some form) ↔ HasForm net.now layout.now tile form }
{
    let _edges = net.edge_count();
    let left = side_from(layout, tile, Side::Left);
    let right = side_from(layout, tile, Side::Right);
    wire(left, right)
}

// The upper side on which the edge enters that leaves on this lower side, or none.
fn side_from(layout: &Layout, tile: u32, side: Side) -> Option<Side>
    requires grid { IsGrid layout.now.ratio }
    requires tile { IsTile layout.now.ratio tile }
    requires enters { (e : ℕ) → leaves_of layout.now tile side ≡ Some e →
        (from : Side) × (enters_of layout.now tile from ≡ Some e) }
    ensures { ComesFrom layout.now tile side result }
{
    let edge = leaves(layout, tile, side)?;
    if enters(layout, tile, Side::Left) == Some(edge) {
        Some(Side::Left)
    } else {
        Some(Side::Right)
    }
}

// The wire, double or cross that sends out on the lower left and the lower right what comes in on
// these upper sides.
fn wire(left: Option<Side>, right: Option<Side>) -> Option<Form>
    requires { (from : Side) → left ≡ Some from → right ≡ Some from → ⊥ }
    ensures { (form : ℕ) → (result ≡ Some form) ↔ IsWireOf (upper_from left right) left right form }
{
    let number = match left {
        None => match right {
            None => return None,
            Some(from) => beside(5, 7, from),
        },
        Some(from) => match right {
            None => beside(4, 6, from),
            Some(_) => beside(26, 27, from),
        },
    };
    Form::from_number(number)
}

// Of two numbers that on this side.
fn beside(left: u8, right: u8, side: Side) -> u8
    ensures { result ≡ on_side left right side }
{
    match side {
        Side::Left => left,
        Side::Right => right,
    }
}

// Whether it is the same form, or none twice.
fn is_same(one: Option<Form>, other: Option<Form>) -> bool
    ensures { IsTrue result ↔ (one ≡ other) }
{
    match (one, other) {
        (None, None) => true,
        (Some(one), Some(other)) => one.number() == other.number(),
        _ => false,
    }
}
