//! Whether a layout is legal, whatever form stands on a tile, where it is known which node stands on
//! each tile. Then no two nodes stand on one, and nothing goes through all nodes or edges on a tile.
ghost use Rattle.std.specs.Prelude.{◌≡◌, ◌↔◌, ◌<◌, ℕ, Some, None, IsTrue, length, slice_index_or};
ghost use Rattle.bx_grid.specs.Tiles.{tile_count, IsGrid, IsTile};
ghost use Rattle.bx_network.specs.Networks.{IsNetwork};
ghost use Rattle.bx_layout.specs.Legal.{IsPlaced, StandsAtItsEnd, HasItsEnds, IsLegal};
ghost use Rattle.bx_layout.specs.Permits.{all_forms};
ghost use Rattle.bx_trace.specs.Known.{AreNodesAt};

use crate::passed::{are_ends_balanced, are_passed};
use bx_forms::Kind;
use bx_grid::{Ratio, column_and_row};
use bx_layout::Layout;
use bx_network::MappedNet;

/// Whether the layout, with these nodes on its tiles, is legal under the permit of all forms. Time is
/// linear in tiles, nodes and edges, and it takes no memory.
pub fn is_legal(net: &MappedNet, layout: &Layout, nodes: &[Option<u32>]) -> bool
    requires network { IsNetwork net.now }
    requires grid { IsGrid layout.now.ratio }
    requires places { length layout.now.places ≡ length net.now.nodes }
    requires whole { length nodes.now ≡ tile_count layout.now.ratio }
    requires nodes { AreNodesAt layout.now.places nodes.now }
    ensures { IsTrue result ↔ IsLegal net.now all_forms layout.now }
{
    if !is_placed(net, layout, nodes) || !has_its_ends(net, layout) {
        return false;
    }
    are_ends_balanced(net, layout) && are_passed(net, layout, nodes)
}

// Whether there is an entry for each border, none or the number of an edge.
fn is_placed(net: &MappedNet, layout: &Layout, nodes: &[Option<u32>]) -> bool
    requires grid { IsGrid layout.now.ratio }
    requires places { length layout.now.places ≡ length net.now.nodes }
    requires whole { length nodes.now ≡ tile_count layout.now.ratio }
    requires nodes { AreNodesAt layout.now.places nodes.now }
    ensures { IsTrue result ↔ IsPlaced net.now layout.now }
{
    let borders = layout.borders.as_slice();
    borders.len() == 2 * nodes.len() && are_edges(borders, net.edge_count())
}

// Whether each of these is none, or the number of an edge.
fn are_edges(borders: &[Option<u32>], count: u32) -> bool
    ensures { IsTrue result ↔ ((b e : ℕ) → slice_index_or borders.now b None ≡ Some e → e < count) }
{
    for border in borders {
        if let Some(e) = *border {
            if e >= count {
                return false;
            }
        }
    }
    true
}

// Whether inputs stand in the first row, and outputs in the last.
fn has_its_ends(net: &MappedNet, layout: &Layout) -> bool
    requires grid { IsGrid layout.now.ratio }
    requires placed { IsPlaced net.now layout.now }
    ensures { IsTrue result ↔ HasItsEnds net.now layout.now }
{
    let places = layout.places.as_slice();
    for v in 0..net.node_count() {
        if !stands_at_its_end(net.node(v).kind, layout.ratio, places[v as usize]) {
            return false;
        }
    }
    true
}

// Whether a node of this kind may stand on this tile.
fn stands_at_its_end(kind: Kind, ratio: Ratio, tile: u32) -> bool
    requires grid { IsGrid ratio }
    requires tile { IsTile ratio tile }
    ensures { IsTrue result ↔ StandsAtItsEnd kind ratio tile }
{
    let (_, row) = column_and_row(ratio, tile);
    match kind {
        Kind::Input => row == 0,
        Kind::Output => row + 1 == ratio.h,
        _ => true,
    }
}
