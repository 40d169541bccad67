//! What the verifier says of a design and its certificate.

use bx_grid::Ratio;

/// What can be wrong, in the order in which it is tested.
#[derive(Clone, Copy)]
pub enum Part {
    /// The certificate doesn't end with a found ratio. The number is that of the sections.
    Last,
    /// The ratios of the sections, with the found one behind them, aren't the first ones of the order of the
    /// certificate's limits. The number is the first index, from 0, at which they aren't; an index past the end of
    /// the order counts too.
    Missing,
    /// A section's proof doesn't refute its ratio. The number is the first such index, from 0.
    Proof,
    /// The design's ratio isn't the found one. The number is the index of the found ratio.
    Size,
    /// The design's dots can't be cut into a form grid. The number is the index of the found ratio.
    Dots,
    /// The form grid isn't that of a layout whose nodes have the certificate's places. The number is the index of the
    /// found ratio.
    Network,
}

/// Whether a design and its certificate are right.
#[derive(Clone, Copy)]
pub enum Verdict {
    /// They are: this ratio, the found one, has the design, and no earlier one has a layout.
    Minimal(Ratio),
    /// They aren't: this part is the first that fails, with the number that it has.
    Wrong(Part, u64),
}
