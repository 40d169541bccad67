//! The lines of a certificate but for those of steps, each as a value. Which text a line has, and in which
//! order lines may stand, is for the definitions to say.

use crate::Spot;
use bx_grid::{CountProof, Limits, Ratio};

/// A line of a certificate that is no line of a step.
#[derive(Clone, Copy)]
pub enum Line {
    /// `bestagon cert 1`: the first line.
    Head,
    /// `limits ..`: the limits and the budget.
    Bounds(Limits, u64),
    /// `count ..`: a section by counting.
    Counted(Ratio, CountProof),
    /// `clauses ..`: the head of a section by clauses, with the number of steps that follow.
    Run(Ratio, u32),
    /// `found ..`: the last ratio has a layout; the places of its nodes follow.
    FoundAt(Ratio),
    /// `undecided ..`: the budget did not suffice for the last ratio, and so much was spent.
    GaveUp(Ratio, u64),
    /// `none`: no ratio has a layout.
    NoRatio,
    /// `place ..`: the place of a node.
    Place(Spot),
    /// `end`: the last line.
    End,
}
