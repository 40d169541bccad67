//! A legal layout, a sound form grid and pins, and those that are nearly so. Nothing here runs.
ghost use Rattle.std.specs.Prelude.{[], ◌∷◌, Some, None};
ghost use Rattle.bx_network.specs.Examples.{inversion};
ghost use Rattle.bx_layout.specs.Examples.{column, wired, straight, all_but, column_of, straight_forms, pin, pins_with};
ghost use Rattle.bx_layout.specs.Grids.{IsSound};
ghost use Rattle.bx_layout.specs.Legal.{IsLegal};
ghost use Rattle.bx_layout.specs.Permits.{all_forms};
ghost use Rattle.bx_layout.specs.Pins.{ArePins};

/// An inversion may stand in a column of three tiles. With two nodes on one tile, its input in the
/// second row, an edge that leads off the grid, an edge that isn't carried, one that is carried
/// past a node, or where its `not` isn't permitted, it may not: each breaks one of the six
/// conditions.
pub fn near_misses_of_a_legal_layout()
    ensures legal { IsLegal inversion all_forms straight }
    ensures placed { IsLegal inversion all_forms
        (column 3 (0 ∷ 1 ∷ 1 ∷ []) (wired None (Some 0) (Some 1))) → ⊥ }
    ensures ends { IsLegal inversion all_forms
        (column 4 (1 ∷ 2 ∷ 3 ∷ [])
        (None ∷ None ∷ Some 0 ∷ None ∷ None ∷ Some 1 ∷ None ∷ None ∷ [])) → ⊥ }
    ensures stays { IsLegal inversion all_forms
        (column 3 (0 ∷ 1 ∷ 2 ∷ []) (wired (Some 0) (Some 0) (Some 1))) → ⊥ }
    ensures balanced { IsLegal inversion all_forms
        (column 3 (0 ∷ 1 ∷ 2 ∷ []) (wired None (Some 0) None)) → ⊥ }
    ensures alone { IsLegal inversion all_forms
        (column 3 (0 ∷ 1 ∷ 2 ∷ []) (wired None (Some 1) (Some 1))) → ⊥ }
    ensures permitted { IsLegal inversion (all_but 8) straight → ⊥ }
{}

/// An input, a `not` and an output below each other are sound. With a `not` that reads where
/// nothing goes out, with one that sends off the grid, with none in place of the input, or with an
/// input in place of the `not`, they aren't.
pub fn near_misses_of_a_sound_grid()
    ensures sound { IsSound straight_forms }
    ensures meets { IsSound (column_of 1 10 3) → ⊥ }
    ensures stays { IsSound (column_of 1 9 3) → ⊥ }
    ensures first { IsSound (column_of 5 8 3) → ⊥ }
    ensures input { IsSound (column_of 1 0 3) → ⊥ }
    ensures last { IsSound (column_of 1 8 7) → ⊥ }
{}

/// Each port of the inversion has a pin on the tile of its node. Without the input's pin, with it
/// twice, with another port, or on another tile, they are no pins of it.
pub fn near_misses_of_pins()
    ensures pins { ArePins straight_forms inversion (pins_with (pin 0 0 ∷ []) (pin 0 2 ∷ [])) }
    ensures missing { ArePins straight_forms inversion (pins_with [] (pin 0 2 ∷ [])) → ⊥ }
    ensures twice { ArePins straight_forms inversion
        (pins_with (pin 0 0 ∷ pin 0 0 ∷ []) (pin 0 2 ∷ [])) → ⊥ }
    ensures port { ArePins straight_forms inversion (pins_with (pin 0 0 ∷ []) (pin 1 2 ∷ [])) → ⊥ }
    ensures tile { ArePins straight_forms inversion (pins_with (pin 0 1 ∷ []) (pin 0 2 ∷ [])) → ⊥ }
{}
