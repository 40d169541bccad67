//! Whether a design is that of a layout whose nodes have given places.
ghost use Rattle.std.specs.Prelude.{◌≡◌, ◌↔◌, IfOk, IsTrue, All};
ghost use Rattle.bx_grid.specs.Tiles.{IsGrid};
ghost use Rattle.bx_verify.specs.Cutting.{IsCutInto, IsWrongDesign};
ghost use Rattle.bx_verify.specs.Failing.{IsOn, Fits, tiles_of as tile_list};

use crate::claims::is_same;
use crate::verdict::Part;
use bx_cert::Spot;
use bx_dots::{CutFault, cut};
use bx_grid::Ratio;
use bx_layout::FormGrid;
use bx_library::Library;
use bx_logic::NoMemory;
use bx_network::MappedNet;
use bx_siqad::Design;
use bx_trace::traces;
use std::alloc::Global;

/// What is wrong with a design of the found ratio whose nodes are to have these places: its size, its dots or what
/// they make, in this order, or none where it is right.
pub(crate) fn wrong_design(
    alloc: Global,
    net: &MappedNet,
    library: &Library,
    design: &Design,
    found: Ratio,
    spots: &[Spot],
) -> Result<Option<Part>, NoMemory>
    ensures { IfOk result (IsWrongDesign net.now library.now design.now found spots.now) }
{
    if !is_same(design.ratio(), found) {
        return Ok(Some(Part::Size));
    }
    let Some(grid) = cut_design(alloc, library, design)? else {
        return Ok(Some(Part::Dots));
    };
    if !fits(alloc, net, &grid, spots)? {
        return Ok(Some(Part::Network));
    }
    Ok(None)
}

// The form grid that a design's dots are cut into, or none where something is in the way of one.
fn cut_design(
    alloc: Global,
    library: &Library,
    design: &Design,
) -> Result<Option<FormGrid>, NoMemory>
    ensures { IfOk result (IsCutInto library.now design.now) }
{
    match cut(alloc, library, design.ratio(), design.dots()) {
        Ok(grid) => Ok(Some(grid)),
        Err(CutFault::NoMemory) => Err(NoMemory),
        Err(_) => Ok(None),
    }
}

// Whether there is a place on the grid for each node, and some layout with these places has this form grid.
fn fits(alloc: Global, net: &MappedNet, grid: &FormGrid, spots: &[Spot]) -> Result<bool, NoMemory>
    ensures { IfOk result (λ yes. IsTrue yes ↔ Fits net.now grid.now spots.now) }
{
    let ratio = grid.ratio();
    if spots.len() != net.node_count() as usize || !are_on(ratio, spots) {
        return Ok(false);
    }
    let tiles = tiles_of(alloc, ratio, spots)?;
    traces(alloc, net, grid, &tiles)
}

// Whether each place is on the grid.
fn are_on(ratio: Ratio, spots: &[Spot]) -> bool
    ensures { IsTrue result ↔ All (IsOn ratio) spots.now }
{
    for spot in spots {
        if spot.x >= ratio.w || spot.y >= ratio.h {
            return false;
        }
    }
    true
}

// The tiles of places.
fn tiles_of(alloc: Global, ratio: Ratio, spots: &[Spot]) -> Result<Vec<u32>, NoMemory>
    requires grid { IsGrid ratio }
    requires on { All (IsOn ratio) spots.now }
    ensures { IfOk result (λ tiles. tiles.items ≡ tile_list ratio spots.now) }
{
    let mut tiles = Vec::with_capacity(alloc, spots.len())?;
    for spot in spots {
        tiles.push(spot.y * ratio.w + spot.x)?;
    }
    Ok(tiles)
}
