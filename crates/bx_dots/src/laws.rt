//! Laws about the definitions alone, each the clause of a function with an empty body. Nothing here
//! runs.
ghost use Rattle.std.specs.Prelude.{◌≡◌, ℕ, List, length, Result};
ghost use Rattle.bx_grid.specs.declared.ratio.Ratio.{Ratio};
ghost use Rattle.bx_grid.specs.Tiles.{tile_count, IsGrid};
ghost use Rattle.bx_layout.specs.Grids.{FormGrid, IsSound};
ghost use Rattle.bx_library.specs.declared.dot.Dot.{Dot};
ghost use Rattle.bx_library.specs.Dots.{IsAscending};
ghost use Rattle.bx_library.specs.Tiles.{Tiles, IsLibrary};
ghost use Rattle.bx_dots.specs.declared.fault.CutFault.{CutFault};
ghost use Rattle.bx_dots.specs.Cuts.{CutsTo, IsCut};
ghost use Rattle.bx_dots.specs.GridDots.{AreOffered, IsDotOf, AreDotsOf, IsNear};
ghost use Rattle.bx_dots.specs.Places.{LiesIn};

/// Tiles don't overlap: a dot lies in one of them at most.
pub fn a_dot_lies_in_one_tile()
    ensures { (lib : Tiles) (r : Ratio) (t u : ℕ) (dot : Dot) → LiesIn lib r t dot →
        LiesIn lib r u dot → t ≡ u }
{}

/// A dot of a grid stands within bounds that the sides of the grid give, whatever the size of the
/// tiles.
pub fn a_dot_of_a_grid_stands_near()
    ensures { (lib : Tiles) (grid : FormGrid) (dot : Dot) → IsLibrary lib → IsDotOf lib grid dot →
        IsNear grid.ratio dot }
{}

/// A set of dots is cut into one form grid, or one thing is in the way of one.
pub fn a_set_of_dots_has_one_cut()
    ensures { (lib : Tiles) (ratio : Ratio) (dots : List Dot) (r s : Result FormGrid CutFault) →
        IsLibrary lib → CutsTo lib ratio dots r → CutsTo lib ratio dots s → r ≡ s }
{}

/// The dots of a sound grid are cut into this grid.
pub fn dots_of_a_sound_grid_are_cut_into_it()
    ensures { (lib : Tiles) (grid : FormGrid) (dots : List Dot) → IsLibrary lib →
        length grid.tiles ≡ tile_count grid.ratio → IsSound grid → AreOffered lib grid →
        AreDotsOf lib grid dots → IsCut lib grid.ratio dots grid }
{}

/// A set of dots, told in order, is cut into a form grid, or something is the first thing in the way of
/// one.
pub fn a_set_of_dots_has_a_cut()
    ensures { (lib : Tiles) (ratio : Ratio) (dots : List Dot) →
        IsLibrary lib → IsGrid ratio → IsAscending dots →
        (result : Result FormGrid CutFault) × CutsTo lib ratio dots result }
{}
