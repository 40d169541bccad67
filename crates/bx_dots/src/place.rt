//! Where a tile stands on the lattice of dots, and whether a dot lies in a tile at all.
ghost use Rattle.std.specs.Prelude.{◌≡◌, ◌↔◌, ◌+◌, ◌<◌, ◌≤◌, ◌^◌, IsTrue};
ghost use Rattle.bx_grid.specs.Tiles.{IsGrid, IsTile};
ghost use Rattle.bx_library.specs.Tiles.{IsLibrary};
ghost use Rattle.bx_dots.specs.Places.{shift as shift_of, left, top, moved_by, IsStray};
ghost use Rattle.bx_dots.specs.Reading.{moved_back as back_by};

use bx_grid::{Ratio, column_and_row};
use bx_library::{Dot, Library};

/// The first dimer of each row of a tile, and the first row of dimers: where a dot of its form at 0
/// and 0 stands.
#[derive(Clone, Copy)]
pub(crate) struct Origin {
    pub(crate) n: u32,
    pub(crate) m: u32,
}

impl Origin {
    /// Where a tile stands.
    pub(crate) fn of(library: &Library, ratio: Ratio, tile: u32) -> Origin
        requires grid { IsGrid ratio }
        requires tile { IsTile ratio tile }
        ensures n { result.n ≡ left library.now ratio tile }
        ensures m { result.m ≡ top library.now ratio tile }
        ensures near { (result.n < 2 ^ 31) × (result.m < 2 ^ 31) }
        ensures kept { IsLibrary library.now }
    {
        let (column, row) = column_and_row(ratio, tile);
        Origin {
            n: column * library.width() + shift(library, row),
            m: row * library.height(),
        }
    }

    /// A dot of a form, moved to where the tile stands.
    pub(crate) fn moved(self, own: Dot) -> Dot
        requires near { (self.n < 2 ^ 31) × (self.m < 2 ^ 31) }
        requires small { (own.n < 2 ^ 31) × (own.m < 2 ^ 31) }
        ensures { result ≡ moved_by self.n self.m own }
    {
        Dot {
            n: self.n + own.n,
            m: self.m + own.m,
            l: own.l,
        }
    }

    /// A dot of the tile, moved back to where a form would have it.
    pub(crate) fn moved_back(self, dot: Dot) -> Dot
        requires right { self.n ≤ dot.n }
        requires below { self.m ≤ dot.m }
        ensures { result ≡ back_by self.n self.m dot }
    {
        Dot {
            n: dot.n - self.n,
            m: dot.m - self.m,
            l: dot.l,
        }
    }
}

/// Whether a dot lies in no tile of the grid.
pub(crate) fn is_stray(library: &Library, ratio: Ratio, dot: Dot) -> bool
    requires { IsGrid ratio }
    ensures stray { IsTrue result ↔ IsStray library.now ratio dot }
    ensures kept { IsLibrary library.now }
{
    let row = dot.m / library.height();
    if row >= ratio.h {
        return true;
    }
    let shift = shift(library, row);
    if dot.n < shift {
        return true;
    }
    (dot.n - shift) / library.width() >= ratio.w
}

// How far a row of tiles is shifted to the right.
fn shift(library: &Library, row: u32) -> u32
    ensures is { result ≡ shift_of library.now row }
    ensures small { result ≤ 128 }
{
    if row % 2 == 1 { library.width() / 2 } else { 0 }
}
