//! Layouts as data: a tile for each node, and for each border the edge that it carries, if any.
//! Nothing here is checked: whether a layout is legal is for the definitions to say.
ghost use Rattle.std.specs.Prelude.{◌≡◌, ℕ, List, Option};

use bx_grid::Ratio;
use std::marker::Model;

/// The tile of each node of a network, by the node's number. Contracts see it as this list.
#[derive(Drop)]
pub struct Places {
    tiles: Vec<u32>,
}

impl Model for Places {
    ghost use Rattle.std.specs.Prelude.{ℕ, List};

    ghost Value = { List ℕ };

    ghost view = { λ places. places.tiles.items };
}

impl Places {
    /// The places that this list says. Takes no memory.
    pub fn new(tiles: Vec<u32>) -> Places
        ensures { result ≡ tiles.items }
    {
        Places { tiles }
    }

    /// The tiles, one for each node.
    pub fn as_slice(&self) -> &[u32]
        ensures { result.now ≡ self.now }
    {
        self.tiles.as_slice()
    }

    /// The list itself. Takes no memory.
    pub fn into_vec(self) -> Vec<u32>
        ensures { result.items ≡ self }
    {
        let Places { tiles } = self;
        tiles
    }
}

/// The edge on each border of a grid, or none, by the border's number. Contracts see it as this
/// list.
#[derive(Drop)]
pub struct Borders {
    edges: Vec<Option<u32>>,
}

impl Model for Borders {
    ghost use Rattle.std.specs.Prelude.{ℕ, List, Option};

    ghost Value = { List (Option ℕ) };

    ghost view = { λ borders. borders.edges.items };
}

impl Borders {
    /// The borders that this list says. Takes no memory.
    pub fn new(edges: Vec<Option<u32>>) -> Borders
        ensures { result ≡ edges.items }
    {
        Borders { edges }
    }

    /// The edges, one entry for each border.
    pub fn as_slice(&self) -> &[Option<u32>]
        ensures { result.now ≡ self.now }
    {
        self.edges.as_slice()
    }

    /// The list itself. Takes no memory.
    pub fn into_vec(self) -> Vec<Option<u32>>
        ensures { result.items ≡ self }
    {
        let Borders { edges } = self;
        edges
    }
}

/// Where the nodes of a network stand on a grid, and which edge each border carries.
#[derive(Drop)]
pub struct Layout {
    /// The sides of the grid.
    pub ratio: Ratio,
    /// The tile of each node.
    pub places: Places,
    /// The edge on each of the two borders below each tile, or none.
    pub borders: Borders,
}
