//! Whether a form grid is sound, tile by tile.
ghost use Rattle.std.specs.Prelude.{◌≡◌, ◌↔◌, IsTrue, IsSome};
ghost use Rattle.bx_grid.specs.Tiles.{IsTile, below as tile_below};
ghost use Rattle.bx_layout.specs.Grids.{takes as takes_of, sends as sends_of, goes_to, StandsInItsRow, IsSoundAt, IsSound};

use crate::grid::FormGrid;
use crate::sides::{is_used, opposite};
use bx_forms::{Kind, Side};
use bx_grid::{below, column_and_row, entering};

/// Whether each tile takes on exactly the upper sides on which the tiles above go out, nothing
/// leads off the grid, and inputs stand in the first row and outputs in the last, alone. Takes no
/// memory.
pub fn is_sound(grid: &FormGrid) -> bool
    ensures { IsTrue result ↔ IsSound grid.now }
{
    let ratio = grid.ratio();
    for tile in 0..ratio.w * ratio.h {
        if !is_sound_at(grid, tile) {
            return false;
        }
    }
    true
}

// Whether all that a sound grid asks of a tile holds of this one.
fn is_sound_at(grid: &FormGrid, tile: u32) -> bool
    requires { IsTile grid.now.ratio tile }
    ensures { IsTrue result ↔ IsSoundAt grid.now tile }
{
    let left = meets(grid, tile, Side::Left) && stays(grid, tile, Side::Left);
    let right = meets(grid, tile, Side::Right) && stays(grid, tile, Side::Right);
    left && right && stands_in_its_row(grid, tile)
}

// Whether the tile takes on this upper side exactly where the tile above goes out.
fn meets(grid: &FormGrid, tile: u32, side: Side) -> bool
    requires { IsTile grid.now.ratio tile }
    ensures { IsTrue result ↔ (takes_of grid.now tile side ≡ goes_to grid.now tile side) }
{
    let takes = match grid.tile(tile) {
        None => false,
        Some(form) => is_used(form.upper(), side),
    };
    takes == is_sent_to(grid, tile, side)
}

// Whether the tile above this upper side goes out to it.
fn is_sent_to(grid: &FormGrid, tile: u32, side: Side) -> bool
    requires { IsTile grid.now.ratio tile }
    ensures { result ≡ goes_to grid.now tile side }
{
    match entering(grid.ratio(), tile, side) {
        None => false,
        Some(border) => sends(grid, border / 2, opposite(side)),
    }
}

// Whether nothing leads off the grid on this lower side.
fn stays(grid: &FormGrid, tile: u32, side: Side) -> bool
    requires { IsTile grid.now.ratio tile }
    ensures { IsTrue result ↔
        (IsTrue (sends_of grid.now tile side) → IsSome (tile_below grid.now.ratio tile side)) }
{
    !sends(grid, tile, side) || below(grid.ratio(), tile, side).is_some()
}

// Whether the tile goes out on this lower side.
fn sends(grid: &FormGrid, tile: u32, side: Side) -> bool
    requires { IsTile grid.now.ratio tile }
    ensures { result ≡ sends_of grid.now tile side }
{
    match grid.tile(tile) {
        None => false,
        Some(form) => is_used(form.lower(), side),
    }
}

// Whether what stands on the tile, if anything, may stand in its row.
fn stands_in_its_row(grid: &FormGrid, tile: u32) -> bool
    requires { IsTile grid.now.ratio tile }
    ensures { IsTrue result ↔ StandsInItsRow grid.now tile }
{
    let ratio = grid.ratio();
    let (_, row) = column_and_row(ratio, tile);
    match grid.tile(tile) {
        None => true,
        Some(form) => {
            let node = form.node();
            let is_input = node == Some(Kind::Input);
            let is_output = node == Some(Kind::Output);
            is_input == (row == 0) && is_output == (row + 1 == ratio.h)
        }
    }
}
