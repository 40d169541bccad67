//! Form grids and places with one thing changed.

use bx_forms::Form;
use bx_layout::FormGrid;
use std::alloc::Global;
use std::test::Fail;

/// How many ways there are to fill a tile: with one of the forms, or not at all.
pub const FILLINGS: u8 = 29;

/// The same form grid, with the form of this number on a tile, or none where there is no such form.
pub fn with_form(alloc: Global, grid: &FormGrid, tile: u32, number: u8) -> Result<FormGrid, Fail> {
    let ratio = grid.ratio();
    let mut tiles = Vec::new(alloc);
    for t in 0..ratio.w * ratio.h {
        tiles.push(if t == tile {
            Form::from_number(number)
        } else {
            grid.tile(t)
        })?;
    }
    if tiles.len() == (ratio.w * ratio.h) as usize {
        Ok(FormGrid::new(ratio, tiles))
    } else {
        Err("not a form for each tile".into())
    }
}

/// Whether it is the same form, or none twice.
pub fn is_same_form(one: Option<Form>, other: Option<Form>) -> bool {
    match (one, other) {
        (None, None) => true,
        (Some(one), Some(other)) => one.number() == other.number(),
        _ => false,
    }
}

/// The same places, but those of two nodes exchanged.
pub fn with_exchange(
    alloc: Global,
    places: &[u32],
    one: usize,
    other: usize,
) -> Result<Vec<u32>, Fail> {
    let mut exchanged = Vec::from_slice(alloc, places)?;
    if one < places.len() && other < places.len() {
        exchanged[one] = places[other];
        exchanged[other] = places[one];
    }
    Ok(exchanged)
}
