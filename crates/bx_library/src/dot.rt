//! A silicon dangling bond on the lattice, which every tile and every design is made of. It is a
//! place and nothing else: on which tile it lies is for others to say.
ghost use Rattle.std.specs.Prelude.{◌↔◌, IsTrue};
ghost use Rattle.bx_library.specs.Dots.{IsBefore};

/// A dot: in row `m` of dimers, the dimer `n` of that row, and of its two atoms the upper one, `l`
/// of 0, or the lower one, `l` of 1. Dots are ordered as their fields stand here: by `m`, then `l`,
/// then `n`.
#[derive(Clone, Copy, PartialEq, Eq, PartialOrd, Ord)]
pub struct Dot {
    pub m: u32,
    pub l: u8,
    pub n: u32,
}

impl Dot {
    /// Whether this dot stands before the other one in the order of dots.
    pub fn is_before(self, other: Dot) -> bool
        ensures { IsTrue result ↔ IsBefore self other }
    {
        self < other
    }
}
