//! Where the tiles of a grid stand, and the borders between them. Tile (x, y) has the number
//! y * w + x. Odd rows are shifted right by half a tile, so each tile has a left and a right one
//! below it and above it, unless they are off the grid. What comes in on an upper side comes by the
//! lower side of the tile above.
ghost use Rattle.std.specs.Prelude.{◌≡◌, ℕ, ◌+◌, ◌<◌, ◌≤◌, ◌^◌, Option, Some, IfSome};
ghost use Rattle.bx_grid.specs.Tiles.{IsGrid, IsTile, is_odd, x_of, y_of, one_less, column_beside as column_of, below as tile_below, above as tile_above, border as border_of, entering as border_entering};

use crate::ratio::{MOST_TILES, Ratio};
use bx_forms::Side;

/// The column and the row of a tile.
pub fn column_and_row(ratio: Ratio, tile: u32) -> (u32, u32)
    requires { 1 ≤ ratio.w }
    ensures column { result.0 ≡ x_of ratio tile }
    ensures row { result.1 ≡ y_of ratio tile }
{
    (tile % ratio.w, tile / ratio.w)
}

/// The tile below on this side, or none where it is off the grid.
pub fn below(ratio: Ratio, tile: u32, side: Side) -> Option<u32>
    requires grid { IsGrid ratio }
    requires tile { IsTile ratio tile }
    ensures { result ≡ tile_below ratio tile side }
{
    let (column, row) = column_and_row(ratio, tile);
    let x = column_beside(row % 2 == 1, side, column)?;
    if x < ratio.w && row + 1 < ratio.h {
        Some((row + 1) * ratio.w + x)
    } else {
        None
    }
}

/// The border by which something can come in on this upper side, or none where it is off the grid.
pub fn entering(ratio: Ratio, tile: u32, side: Side) -> Option<u32>
    requires grid { IsGrid ratio }
    requires tile { IsTile ratio tile }
    ensures { result ≡ border_entering ratio tile side }
{
    let above = above(ratio, tile, side)?;
    match side {
        Side::Left => Some(border(above, Side::Right)),
        Side::Right => Some(border(above, Side::Left)),
    }
}

/// The lower side of a tile as a border: twice the tile's number, and one more on the right.
pub fn border(tile: u32, side: Side) -> u32
    requires { tile < MOST_TILES }
    ensures { result ≡ border_of tile side }
{
    match side {
        Side::Left => 2 * tile,
        Side::Right => 2 * tile + 1,
    }
}

// The tile above on this side, or none where it is off the grid.
fn above(ratio: Ratio, tile: u32, side: Side) -> Option<u32>
    requires grid { IsGrid ratio }
    requires tile { IsTile ratio tile }
    ensures is { result ≡ tile_above ratio tile side }
    ensures lower { IfSome result (λ u. u < tile) }
{
    let (x, y) = column_and_row(ratio, tile);
    if y == 0 {
        return None;
    }
    let x = column_beside(y % 2 == 1, side, x)?;
    if x < ratio.w {
        Some((y - 1) * ratio.w + x)
    } else {
        None
    }
}

// The column of the tile on this side of column x, in the rows next to an odd row or an even one.
fn column_beside(odd: bool, side: Side, x: u32) -> Option<u32>
    requires { x + 1 < 2 ^ 32 }
    ensures { result ≡ column_of odd side x }
{
    match (odd, side) {
        (false, Side::Left) => if x == 0 { None } else { Some(x - 1) },
        (false, Side::Right) | (true, Side::Left) => Some(x),
        (true, Side::Right) => Some(x + 1),
    }
}
