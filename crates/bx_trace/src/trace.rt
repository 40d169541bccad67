//! The question itself: the one layout that the forms leave is made, and judged, with the node of
//! each tile noted once, so that neither goes through all nodes or all edges on a tile.
ghost use Rattle.std.specs.Prelude.{◌≡◌, ◌↔◌, IfOk, IsTrue, length};
ghost use Rattle.bx_grid.specs.Tiles.{tile_count};
ghost use Rattle.bx_network.specs.Networks.{IsNetwork};
ghost use Rattle.bx_trace.specs.Known.{AreNodesAt};
ghost use Rattle.bx_trace.specs.Traced.{IsLegalWith, IsTraced};

use crate::border_edges::borders;
use crate::forms::has_form_grid;
use crate::legal::is_legal;
use crate::nodes::nodes_at;
use crate::ways::targets;
use bx_layout::{Borders, FormGrid, Layout, Places};
use bx_logic::NoMemory;
use bx_network::MappedNet;
use std::alloc::Global;

/// Whether some layout with these places, legal under the permit of all forms, has this form grid.
/// Places of a wrong number, off the grid, or of two nodes at once have none. Time and memory are
/// linear in tiles and nodes.
///
/// # Errors
///
/// `NoMemory` if memory is refused for the layout.
pub fn traces(
    alloc: Global,
    net: &MappedNet,
    grid: &FormGrid,
    places: &[u32],
) -> Result<bool, NoMemory>
    ensures { IfOk result (λ traced.
        IsTrue traced ↔ IsTraced net.now grid.now places.now) }
{
    if places.len() != net.node_count() as usize {
        return Ok(false);
    }
    let ratio = grid.ratio();
    let Some(nodes) = nodes_at(alloc, ratio.w * ratio.h, places)? else {
        return Ok(false);
    };
    let targets = targets(alloc, grid, &nodes)?;
    let edges = borders(alloc, net, grid, &nodes, &targets)?;
    let layout = Layout {
        ratio,
        places: Places::new(Vec::from_slice(alloc, places)?),
        borders: Borders::new(edges),
    };
    Ok(is_layout_of(net, grid, &layout, &nodes))
}

// Whether the layout, with these nodes on its tiles, is legal and has this form grid.
fn is_layout_of(net: &MappedNet, grid: &FormGrid, layout: &Layout, nodes: &[Option<u32>]) -> bool
    requires network { IsNetwork net.now }
    requires ratio { layout.now.ratio ≡ grid.now.ratio }
    requires places { length layout.now.places ≡ length net.now.nodes }
    requires whole { length nodes.now ≡ tile_count layout.now.ratio }
    requires nodes { AreNodesAt layout.now.places nodes.now }
    ensures { IsTrue result ↔ IsLegalWith net.now layout.now grid.now }
{
    let _grid = grid.ratio();
    is_legal(net, layout, nodes) && has_form_grid(net, grid, layout, nodes)
}
