//! The borders of a tile, found once for all edges.
ghost use Rattle.std.specs.Prelude.{◌≡◌, ◌<◌, ◌∷◌, [], IfOk};
ghost use Rattle.bx_forms.specs.declared.side.Side.TheVariants.{Left, Right};
ghost use Rattle.bx_grid.specs.Tiles.{IsTile, border};
ghost use Rattle.bx_encode.specs.Sizes.{IsAround};

use crate::frame::Frame;
use bx_forms::Side;
use bx_grid::entering;
use bx_logic::NoMemory;
use std::alloc::Global;

// A tile, and the borders by which something can enter it, from left to right.
#[derive(Drop)]
pub struct Around {
    pub tile: u32,
    pub entries: Vec<u32>,
}

impl Around {
    // Of no tile yet.
    pub fn new(alloc: Global) -> Around {
        Around {
            tile: 0,
            entries: Vec::new(alloc),
        }
    }

    // Turns to this tile.
    pub fn look(&mut self, frame: &Frame, t: u32) -> Result<(), NoMemory>
        requires tile { IsTile frame.now.ratio t }
        ensures tile { IfOk result (λ _. self.new.tile ≡ t) }
        ensures around { IfOk result (λ _. IsAround frame.now.net.now frame.now.ratio self.new) }
    {
        self.tile = t;
        self.entries.clear();
        if let Some(b) = entering(frame.ratio, t, Side::Left) {
            self.entries.push(b)?;
        }
        if let Some(b) = entering(frame.ratio, t, Side::Right) {
            self.entries.push(b)?;
        }
        Ok(())
    }
}

// The borders by which something can leave a tile, from left to right.
pub fn exits(tile: u32) -> [u32; 2]
    requires { tile < 4194304 }
    ensures { result ≡ border tile Left ∷ border tile Right ∷ [] }
{
    [
        bx_grid::border(tile, Side::Left),
        bx_grid::border(tile, Side::Right),
    ]
}
