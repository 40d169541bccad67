//! A design as a value, which keeps what each design keeps.
ghost use Rattle.std.specs.Prelude.{◌≡◌};
ghost use Rattle.bx_siqad.specs.Designs.{IsDrawing};

use bx_grid::Ratio;
use bx_library::Dot;
use std::marker::Model;

/// The sides of a grid, and the dots on it in their order. Contracts see the record of these two.
#[derive(Drop)]
pub struct Design {
    ratio: Ratio,
    dots: Vec<Dot>,
}

impl Model for Design {
    ghost use Rattle.bx_siqad.specs.Designs.{Drawing, IsDrawing};

    ghost Value = { Drawing };

    ghost view = { λ d. record { ratio = d.ratio; dots = d.dots.items } };

    ghost invariant = { λ d. IsDrawing (record { ratio = d.ratio; dots = d.dots.items }) };
}

impl Design {
    /// The design of these sides and dots. Takes no memory.
    pub fn new(ratio: Ratio, dots: Vec<Dot>) -> Self
        requires { IsDrawing (record { ratio = ratio; dots = dots.items }) }
        ensures { result ≡ record { ratio = ratio; dots = dots.items } }
    {
        Design { ratio, dots }
    }

    /// The sides of the grid.
    pub fn ratio(&self) -> Ratio
        ensures ratio { result ≡ self.now.ratio }
        ensures kept { IsDrawing self.now }
    {
        self.ratio
    }

    /// The dots, in their order.
    pub fn dots(&self) -> &[Dot]
        ensures dots { result.now ≡ self.now.dots }
        ensures kept { IsDrawing self.now }
    {
        &self.dots
    }

    /// The dots, taken out. Takes no memory.
    pub fn into_dots(self) -> Vec<Dot>
        ensures dots { result.items ≡ self.dots }
        ensures kept { IsDrawing self }
    {
        self.dots
    }
}
