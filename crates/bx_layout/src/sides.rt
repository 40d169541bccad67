//! Of the two sides of a tile, which one is meant.
ghost use Rattle.std.specs.Prelude.{◌≡◌};
ghost use Rattle.bx_forms.specs.Sides.{is_used as used_of, opposite as opposite_of};

use bx_forms::{Side, Sides};

/// Whether the side is one of these.
pub fn is_used(sides: Sides, side: Side) -> bool
    ensures { result ≡ used_of sides side }
{
    match side {
        Side::Left => sides.left,
        Side::Right => sides.right,
    }
}

/// The other side.
pub fn opposite(side: Side) -> Side
    ensures { result ≡ opposite_of side }
{
    match side {
        Side::Left => Side::Right,
        Side::Right => Side::Left,
    }
}
