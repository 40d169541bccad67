//! The sides of a tile. Two tiles stand above a tile and two below it, so that a side is left or
//! right, above or below; which tile stands there is for the grids to say.

/// A side of a tile, upper or lower.
#[derive(Clone, Copy)]
pub enum Side {
    Left,
    Right,
}

/// Which of two sides are used, the upper ones of a tile or the lower ones.
#[derive(Clone, Copy, PartialEq, Eq)]
pub struct Sides {
    pub left: bool,
    pub right: bool,
}
