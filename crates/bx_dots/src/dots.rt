//! The dots of a form grid, in their order. Whether the grid is sound plays no part.
ghost use Rattle.std.specs.Prelude.{◌≡◌, ◌<◌, ◌≤◌, ◌*◌, ◌^◌, ◌++◌, map, length, All, IfOk, OnOk};
ghost use Rattle.bx_grid.specs.Tiles.{tile_count};
ghost use Rattle.bx_library.specs.Dots.{IsAscending};
ghost use Rattle.bx_library.specs.Tiles.{IsLibrary};
ghost use Rattle.bx_dots.specs.GridDots.{AreOffered, AreDotsOf, IsNear, grid_dots};
ghost use Rattle.bx_dots.specs.Places.{moved_by};

use crate::place::Origin;
use bx_layout::FormGrid;
use bx_library::{Dot, Library};
use bx_logic::NoMemory;
use std::alloc::Global;

/// The dots of all tiles, each where its tile stands, in order.
///
/// # Errors
///
/// `NoMemory` if memory is refused for the dots.
pub fn dots_of(alloc: Global, library: &Library, grid: &FormGrid) -> Result<Vec<Dot>, NoMemory>
    requires { AreOffered library.now grid.now }
    ensures same { IfOk result (λ dots. AreDotsOf library.now grid.now dots.items) }
    ensures ascending { IfOk result (λ dots. IsAscending dots.items) }
    ensures near { IfOk result (λ dots. All (IsNear grid.now.ratio) dots.items) }
{
    let mut dots = by_tile(alloc, library, grid)?;
    // No dot is there twice, since tiles don't overlap.
    dots.sort_unstable();
    Ok(dots)
}

// The dots of all tiles, tile by tile.
fn by_tile(alloc: Global, library: &Library, grid: &FormGrid) -> Result<Vec<Dot>, NoMemory>
    requires { AreOffered library.now grid.now }
    ensures listed { IfOk result (λ dots. dots.items ≡ grid_dots library.now grid.now) }
    ensures kept { IfOk result (λ dots. 0 < length dots.items → IsLibrary library.now) }
{
    let ratio = grid.ratio();
    let mut dots = Vec::with_capacity(alloc, dot_count(library, grid))?;
    for tile in 0..ratio.w * ratio.h {
        if let Some(form) = grid.tile(tile) {
            let origin = Origin::of(library, ratio, tile);
            push_moved(&mut dots, library.dots(form), origin)?;
        }
    }
    Ok(dots)
}

// How many dots the tiles have together, so that no more memory is taken for them than they need.
fn dot_count(library: &Library, grid: &FormGrid) -> usize
    requires { AreOffered library.now grid.now }
{
    let ratio = grid.ratio();
    let mut count = 0;
    for tile in 0..ratio.w * ratio.h {
        if let Some(form) = grid.tile(tile) {
            count += library.dots(form).len();
        }
    }
    count
}

// Adds the dots of a form, moved to where its tile stands.
fn push_moved(dots: &mut Vec<Dot>, owns: &[Dot], origin: Origin) -> Result<(), NoMemory>
    requires near { (origin.n < 2 ^ 31) × (origin.m < 2 ^ 31) }
    requires small { All (λ own. (own.n < 2 ^ 31) × (own.m < 2 ^ 31)) owns.now }
    ensures { OnOk result
        (dots.new.items ≡ dots.old.items ++ map (moved_by origin.n origin.m) owns.now) }
{
    for own in owns {
        dots.push(origin.moved(*own))?;
    }
    Ok(())
}
