//! Form grids as data: a form, or nothing, on each tile. What such a grid promises is for the
//! definitions to say; it may be unsound.
ghost use Rattle.std.specs.Prelude.{◌≡◌, ◌<◌, vec_len, slice_index_or};
ghost use Rattle.bx_grid.specs.Tiles.{tile_count, IsGrid, IsTile, row_items};
ghost use Rattle.bx_layout.specs.Grids.{form_at};

use bx_forms::Form;
use bx_grid::Ratio;
use std::marker::Model;

/// A grid with a form, or nothing, on each tile. Contracts see it as the record of its ratio and
/// the list of its tiles, row by row.
#[derive(Drop)]
pub struct FormGrid {
    ratio: Ratio,
    tiles: Vec<Option<Form>>,
}

impl Model for FormGrid {
    ghost use Rattle.std.specs.Prelude.{◌≡◌, vec_len};
    ghost use Rattle.bx_grid.specs.Tiles.{tile_count, IsGrid};
    ghost use Rattle.bx_layout.specs.Grids.{FormGrid};

    ghost Value = { FormGrid };

    ghost view = { λ grid. record { ratio = grid.ratio; tiles = grid.tiles.items } };

    ghost invariant = { λ grid. IsGrid grid.ratio × (vec_len grid.tiles ≡ tile_count grid.ratio) };
}

impl FormGrid {
    /// The grid with these tiles, row by row. Takes no memory.
    pub fn new(ratio: Ratio, tiles: Vec<Option<Form>>) -> FormGrid
        requires grid { IsGrid ratio }
        requires whole { vec_len tiles ≡ tile_count ratio }
        ensures { result ≡ record { ratio = ratio; tiles = tiles.items } }
    {
        FormGrid { ratio, tiles }
    }

    /// How many tiles stand in a row, and how many rows there are.
    pub fn ratio(&self) -> Ratio
        ensures same { result ≡ self.now.ratio }
        ensures grid { IsGrid result }
    {
        self.ratio
    }

    /// The form on a tile, or none where it is empty.
    pub fn tile(&self, t: u32) -> Option<Form>
        requires { IsTile self.now.ratio t }
        ensures { result ≡ form_at self.now t }
    {
        self.tiles[t as usize]
    }

    /// The tiles of a row, from left to right.
    pub fn row(&self, y: u32) -> &[Option<Form>]
        requires { y < self.now.ratio.h }
        ensures { result.now ≡ row_items self.now.ratio self.now.tiles y }
    {
        let width = self.ratio.w as usize;
        let start = y as usize * width;
        &self.tiles[start..start + width]
    }
}
