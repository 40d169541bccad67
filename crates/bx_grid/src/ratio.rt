//! The sides of a grid, and the limits within which they are searched. Both are plain numbers; what
//! a call asks of them is in its contract, and which ratios lie within limits is for the order to
//! say.

/// The most tiles that a grid has.
pub const MOST_TILES: u32 = 4_194_304;

/// The most that a limit is.
pub const MOST_LIMIT: u32 = 144;

/// The sides of a grid: so many tiles in a row, and so many rows. Both are at least 1 wherever a
/// call takes a ratio, and their product is at most [`MOST_TILES`].
#[derive(Clone, Copy)]
pub struct Ratio {
    /// Tiles in a row.
    pub w: u32,
    /// Rows.
    pub h: u32,
}

/// The largest ratios that are tried. Each limit is from 1 to [`MOST_LIMIT`].
#[derive(Clone, Copy, Debug)]
pub struct Limits {
    /// Tiles in all.
    pub area: u32,
    /// Tiles in a row.
    pub width: u32,
    /// Rows.
    pub height: u32,
}
