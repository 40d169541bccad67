//! What a certificate is made of: sections, how the search ended, and where the nodes stand. Plain data; in
//! which ranges the numbers are is for `Cert` to say.
ghost use Rattle.std.specs.Prelude.{◌≡◌, List};

use bx_grid::Ratio;
use bx_proof::Refutation;
use std::marker::Model;

/// The greatest budget of a search.
pub const MOST_CERT_BUDGET: u64 = 67_108_864;

/// The place of a node: its column and its row, each from 0.
#[derive(Clone, Copy)]
pub struct Spot {
    /// The column.
    pub x: u32,
    /// The row.
    pub y: u32,
}

/// The places of nodes, by the node's number. Contracts see them as this list.
#[derive(Drop)]
pub struct Spots {
    spots: Vec<Spot>,
}

impl Model for Spots {
    ghost use Rattle.std.specs.Prelude.{List};
    ghost use Rattle.bx_cert.specs.declared.parts.Spot.{Spot};

    ghost Value = { List Spot };

    ghost view = { λ spots. spots.spots.items };
}

impl Spots {
    /// These places. Takes no memory.
    pub fn new(spots: Vec<Spot>) -> Self
        ensures { result ≡ spots.items }
    {
        Spots { spots }
    }

    /// The places, in order.
    pub fn as_slice(&self) -> &[Spot]
        ensures { result.now ≡ self.now }
    {
        &self.spots
    }

    /// The places, taken out. Takes no memory.
    pub fn into_vec(self) -> Vec<Spot>
        ensures { result.items ≡ self }
    {
        self.spots
    }
}

/// A ratio that was refuted, and why it has no layout.
#[derive(Drop)]
pub struct Section {
    /// The ratio.
    pub ratio: Ratio,
    /// Why it has no layout.
    pub proof: Refutation,
}

/// Sections, in the order in which the ratios were tried. Contracts see them as this list.
#[derive(Drop)]
pub struct Sections {
    sections: Vec<Section>,
}

impl Model for Sections {
    ghost use Rattle.std.specs.Prelude.{List};
    ghost use Rattle.bx_cert.specs.declared.parts.Section.{Section};

    ghost Value = { List Section };

    ghost view = { λ sections. sections.sections.items };
}

impl Sections {
    /// These sections. Takes no memory.
    pub fn new(sections: Vec<Section>) -> Self
        ensures { result ≡ sections.items }
    {
        Sections { sections }
    }

    /// The sections, in order.
    pub fn as_slice(&self) -> &[Section]
        ensures { result.now ≡ self.now }
    {
        &self.sections
    }

    /// The sections, taken out. Takes no memory.
    pub fn into_vec(self) -> Vec<Section>
        ensures { result.items ≡ self }
    {
        self.sections
    }
}

/// How a search ended.
#[derive(Drop)]
pub enum CertLast {
    /// This ratio has a layout, in which the nodes have these places.
    Found(Ratio, Spots),
    /// Of this ratio it isn't known, and so much of the budget was spent on it.
    Undecided(Ratio, u64),
    /// No ratio within the limits has a layout.
    NoneWithin,
}
