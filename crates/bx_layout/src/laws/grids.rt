//! What holds of form grids. Nothing here runs.
ghost use Rattle.std.specs.Prelude.{List, Bool};
ghost use Rattle.bx_layout.specs.Grids.{FormGrid, IsSound, LosesNothing};
ghost use Rattle.bx_layout.specs.Valuations.{IsOnlyBorderValuation};

/// What goes out of a tile of a sound grid comes in at the tile below.
pub fn a_sound_grid_loses_nothing()
    ensures { (g : FormGrid) → IsSound g → LosesNothing g }
{}

/// For any values given to its first row the borders of a form grid, sound or not and of any number
/// of rows, have exactly one valuation.
pub fn a_grid_has_one_valuation()
    ensures { (g : FormGrid) (given : List Bool) →
        (borders : List Bool) × IsOnlyBorderValuation g given borders }
{}
