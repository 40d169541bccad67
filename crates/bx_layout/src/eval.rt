//! The values of the borders of a form grid, row by row, and what an output reads of them. A grid
//! has one valuation, sound or not; what it means is for the layers above to say.
ghost use Rattle.std.specs.Prelude.{◌≡◌, ◌*◌, length, [], ◌∷◌, Some};
ghost use Rattle.bx_forms.specs.Forms.{form_node, form_sends};
ghost use Rattle.bx_logic.specs.Op.{first_value};
ghost use Rattle.bx_forms.specs.declared.kind.Kind.TheVariants.{Input};
ghost use Rattle.bx_forms.specs.declared.side.Side.TheVariants.{Left, Right};
ghost use Rattle.bx_grid.specs.Tiles.{tile_count, IsTile, entering as border_in};
ghost use Rattle.bx_layout.specs.Grids.{form_at};
ghost use Rattle.bx_layout.specs.Valuations.{value_on, comes_in, reads, sent_value as sent_value_of, IsOnlyBorderValuation};

use crate::grid::FormGrid;
use crate::sides::is_used;
use bx_forms::{Form, Kind, Side};
use bx_grid::{border, entering};

/// Fills in the value of each border, where the tiles of the first row are given these values. The
/// values that stood there before don't matter. Takes no memory.
pub fn eval_grid(grid: &FormGrid, given: &[bool], borders: &mut [bool])
    requires given { length given.now ≡ grid.now.ratio.w }
    requires borders { length borders.old ≡ 2 * tile_count grid.now.ratio }
    ensures { IsOnlyBorderValuation grid.now given.now borders.new }
{
    let ratio = grid.ratio();
    for tile in 0..ratio.w * ratio.h {
        let (left, right) = sent(grid, given, borders, tile);
        borders[border(tile, Side::Left) as usize] = left;
        borders[border(tile, Side::Right) as usize] = right;
    }
}

/// The value that an output on this tile reads, where the borders have these values. Takes no
/// memory.
pub fn out_value(grid: &FormGrid, borders: &[bool], tile: u32) -> bool
    requires borders { length borders.now ≡ 2 * tile_count grid.now.ratio }
    requires tile { IsTile grid.now.ratio tile }
    ensures { result ≡ first_value (comes_in grid.now borders.now tile) }
{
    match grid.tile(tile) {
        None => false,
        Some(form) => {
            let upper = form.upper();
            if upper.left {
                value_entering(grid, borders, tile, Side::Left)
            } else if upper.right {
                value_entering(grid, borders, tile, Side::Right)
            } else {
                false
            }
        }
    }
}

// What goes out of a tile on the lower left and the lower right.
fn sent(grid: &FormGrid, given: &[bool], borders: &[bool], tile: u32) -> (bool, bool)
    requires borders { length borders.now ≡ 2 * tile_count grid.now.ratio }
    requires tile { IsTile grid.now.ratio tile }
    ensures left { result.0 ≡
        sent_value_of (form_at grid.now tile) (reads grid.now given.now borders.now tile) Left }
    ensures right { result.1 ≡
        sent_value_of (form_at grid.now tile) (reads grid.now given.now borders.now tile) Right }
{
    let Some(form) = grid.tile(tile) else {
        return (false, false);
    };
    if form.node() == Some(Kind::Input) {
        let value = given.get(tile as usize).copied().unwrap_or(false);
        let left = sent_by_input(form, value, Side::Left);
        let right = sent_by_input(form, value, Side::Right);
        (left, right)
    } else {
        let left = value_entering(grid, borders, tile, Side::Left);
        let right = value_entering(grid, borders, tile, Side::Right);
        form.apply(left, right)
    }
}

// What an input sends out on this lower side, where it is given this value.
fn sent_by_input(form: Form, value: bool, side: Side) -> bool
    requires { form_node form ≡ Some Input }
    ensures { result ≡ form_sends form (value ∷ []) side }
{
    if is_used(form.lower(), side) {
        value
    } else {
        false
    }
}

// The value of the border that enters a tile on this upper side, false where there is none.
fn value_entering(grid: &FormGrid, borders: &[bool], tile: u32, side: Side) -> bool
    requires borders { length borders.now ≡ 2 * tile_count grid.now.ratio }
    requires tile { IsTile grid.now.ratio tile }
    ensures { result ≡ value_on borders.now (border_in grid.now.ratio tile side) }
{
    match entering(grid.ratio(), tile, side) {
        None => false,
        Some(b) => borders.get(b as usize).copied().unwrap_or(false),
    }
}
