//! What holds of tiles and of the borders between them. Nothing here runs.
ghost use Rattle.std.specs.Prelude.{◌≡◌, ℕ, ◌+◌, ◌*◌, ◌%◌, ◌<◌, Some};
ghost use Rattle.bx_forms.specs.declared.side.Side.{Side};
ghost use Rattle.bx_forms.specs.Sides.{opposite};
ghost use Rattle.bx_grid.specs.declared.ratio.Ratio.{Ratio};
ghost use Rattle.bx_grid.specs.Tiles.{tile_count, IsTile, y_of, zone_of, below, above, border};

/// The tile below on a side and the tile above on the opposite side undo each other.
pub fn the_tiles_above_and_below_agree()
    ensures below { (r : Ratio) (t u : ℕ) (side : Side) →
        below r t side ≡ Some u → above r u (opposite side) ≡ Some t }
    ensures above { (r : Ratio) (t u : ℕ) (side : Side) →
        IsTile r t → above r t side ≡ Some u → below r u (opposite side) ≡ Some t }
{}

/// What goes out of a tile goes to the next row, and so to the next of the four clock zones.
pub fn a_border_leads_to_the_next_row()
    ensures row { (r : Ratio) (t u : ℕ) (side : Side) →
        below r t side ≡ Some u → y_of r u ≡ y_of r t + 1 }
    ensures zone { (r : Ratio) (t u : ℕ) (side : Side) →
        below r t side ≡ Some u → zone_of r u ≡ (zone_of r t + 1) % 4 }
{}

/// A border is the side of one tile, and each number below twice that of the tiles is a border's.
pub fn each_side_has_its_border()
    ensures one { (t u : ℕ) (a b : Side) → border t a ≡ border u b → (t ≡ u) × (a ≡ b) }
    ensures some { (r : Ratio) (b : ℕ) → b < 2 * tile_count r →
        (t : ℕ) × (side : Side) × IsTile r t × (border t side ≡ b) }
    ensures inside { (r : Ratio) (t : ℕ) (side : Side) →
        IsTile r t → border t side < 2 * tile_count r }
{}
