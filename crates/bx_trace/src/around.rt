//! What enters a tile of a layout and what leaves it.
ghost use Rattle.std.specs.Prelude.{◌≡◌, ◌<◌};
ghost use Rattle.bx_grid.specs.Tiles.{IsGrid, IsTile};
ghost use Rattle.bx_layout.specs.Layouts.{edge_on as edge_of, enters as enters_of, leaves as leaves_of};

use bx_forms::Side;
use bx_grid::{border, entering};
use bx_layout::Layout;

/// The edge that enters the tile on this upper side, or none.
pub fn enters(layout: &Layout, tile: u32, side: Side) -> Option<u32>
    requires grid { IsGrid layout.now.ratio }
    requires tile { IsTile layout.now.ratio tile }
    ensures { result ≡ enters_of layout.now tile side }
{
    match entering(layout.ratio, tile, side) {
        None => None,
        Some(b) => edge_on(layout, b),
    }
}

/// The edge that leaves the tile on this lower side, or none.
pub fn leaves(layout: &Layout, tile: u32, side: Side) -> Option<u32>
    requires grid { IsGrid layout.now.ratio }
    requires tile { IsTile layout.now.ratio tile }
    ensures { result ≡ leaves_of layout.now tile side }
{
    edge_on(layout, border(tile, side))
}

// The edge on a border, or none.
fn edge_on(layout: &Layout, b: u32) -> Option<u32>
    ensures { result ≡ edge_of layout.now b }
{
    layout
        .borders
        .as_slice()
        .get(b as usize)
        .copied()
        .unwrap_or(None)
}
