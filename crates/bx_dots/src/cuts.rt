//! Cutting a set of dots into tiles. It promises the form grid, or the first thing that is in the
//! way of one, unless memory runs out. Each tile finds its rows of dots by halving and looks
//! through those, so that a dot is looked at as often as its row has tiles, wherever the dots lie.
ghost use Rattle.std.specs.Prelude.{◌≡◌, ◌≢◌, ◌≤◌, ℕ, length, slice_index_or, vec_len, None, Result, Ok, Err, IfOk, IfErr, OnOk, OnErr};
ghost use Rattle.bx_grid.specs.declared.ratio.TheConstants.{MOST_LIMIT};
ghost use Rattle.bx_grid.specs.Tiles.{tile_count, IsGrid, IsTile};
ghost use Rattle.bx_layout.specs.Grids.{FormGrid as Grid, IsSound};
ghost use Rattle.bx_library.specs.Dots.{IsAscending};
ghost use Rattle.bx_library.specs.Tiles.{IsLibrary};
ghost use Rattle.bx_dots.specs.declared.fault.CutFault.{CutFault as Fault};
ghost use Rattle.bx_dots.specs.GridDots.{AreOffered, AreDotsOf};
ghost use Rattle.bx_dots.specs.Cuts.{NoneStray, ReadsAs, CutsTo};
ghost use Rattle.bx_dots.specs.Reading.{IsStrangeFault};

use crate::CutFault;
use crate::place::is_stray;
use crate::tile::read_tile;
use bx_forms::Form;
use bx_grid::Ratio;
use bx_layout::FormGrid;
use bx_library::{Dot, Library};
use std::alloc::Global;

/// The form grid of which these are the dots, by the forms of the library. The first row is read by
/// inputs alone, the last one by outputs alone where it isn't the first one too, and the rows
/// between them by the other forms.
///
/// # Errors
///
/// `StrayDot` with the first dot that lies in no tile, else `StrangeTile` with the least tile whose
/// dots are neither none nor those of a form of its row, or `NoMemory`.
pub fn cut(
    alloc: Global,
    library: &Library,
    ratio: Ratio,
    dots: &[Dot],
) -> Result<FormGrid, CutFault>
    requires some_width { 1 ≤ ratio.w }
    requires some_height { 1 ≤ ratio.h }
    requires width { ratio.w ≤ MOST_LIMIT }
    requires height { ratio.h ≤ MOST_LIMIT }
    requires ascending { IsAscending dots.now }
    // The grid that is answered is the one that the dots are cut into.
    ensures found { IfOk result (λ grid. CutsTo library.now ratio dots.now (Ok grid)) }
    // The fault that is answered is the first one.
    ensures faults { IfErr result
        (λ fault. fault ≢ CutFault.NoMemory → CutsTo library.now ratio dots.now (Err fault)) }
    // What cutting gives is answered, unless memory runs out.
    ensures exact { (r : Result Grid Fault) → CutsTo library.now ratio dots.now r →
        result ≢ Err CutFault.NoMemory → result ≡ r }
    // The dots of a sound grid give this grid.
    ensures back { (grid : Grid) → grid.ratio ≡ ratio → length grid.tiles ≡ tile_count ratio →
        IsSound grid → AreOffered library.now grid → AreDotsOf library.now grid dots.now →
        result ≢ Err CutFault.NoMemory → result ≡ Ok grid }
{
    refuse_strays(library, ratio, dots)?;
    let tiles = read_tiles(alloc, library, ratio, dots)?;
    Ok(FormGrid::new(ratio, tiles))
}

// Refuses dots of which one lies in no tile.
fn refuse_strays(library: &Library, ratio: Ratio, dots: &[Dot]) -> Result<(), CutFault>
    requires grid { IsGrid ratio }
    requires ascending { IsAscending dots.now }
    ensures none { OnOk result (NoneStray library.now ratio dots.now) }
    ensures err { IfErr result (λ fault. CutsTo library.now ratio dots.now (Err fault)) }
    ensures kept { OnErr result (IsLibrary library.now) }
{
    for dot in dots {
        if is_stray(library, ratio, *dot) {
            return Err(CutFault::StrayDot(*dot));
        }
    }
    Ok(())
}

// The form on each tile, or none where it is empty.
fn read_tiles(
    alloc: Global,
    library: &Library,
    ratio: Ratio,
    dots: &[Dot],
) -> Result<Vec<Option<Form>>, CutFault>
    requires grid { IsGrid ratio }
    requires ascending { IsAscending dots.now }
    ensures whole { IfOk result (λ tiles. vec_len tiles ≡ tile_count ratio) }
    ensures tiles { IfOk result (λ tiles. (t : ℕ) → IsTile ratio t →
        ReadsAs library.now ratio dots.now t (slice_index_or tiles.items t None)) }
    ensures err { IfErr result
        (λ fault. fault ≢ CutFault.NoMemory → IsStrangeFault library.now ratio dots.now fault) }
    ensures kept { result ≢ Err CutFault.NoMemory → IsLibrary library.now }
{
    let mut tiles = Vec::with_capacity(alloc, ratio.w as usize * ratio.h as usize)?;
    for tile in 0..ratio.w * ratio.h {
        tiles.push(read_tile(alloc, library, ratio, tile, dots)?)?;
    }
    Ok(tiles)
}
