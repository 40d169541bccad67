//! The parts of a certificate: a section for each ratio that was refuted, and the places of the nodes of a layout.
ghost use Rattle.std.specs.Prelude.{◌≡◌, ◌≤◌, length, IfOk};
ghost use Rattle.bx_grid.specs.Tiles.{IsGrid};
ghost use Rattle.bx_design.specs.Certificates.{sections_of, spot_of, spots_of};

use bx_cert::{Section, Sections, Spot, Spots};
use bx_grid::{Ratio, Ratios};
use bx_layout::Layout;
use bx_logic::NoMemory;
use bx_proof::Refutation;
use std::alloc::Global;

/// These refutations as sections, each of the ratio at its index.
pub fn make_sections(
    alloc: Global,
    ratios: &Ratios,
    refutations: Vec<Refutation>,
) -> Result<Sections, NoMemory>
    requires { length refutations.items ≤ length ratios.now }
    ensures { IfOk result (λ s. s ≡ sections_of ratios.now refutations.items) }
{
    let mut sections = Vec::with_capacity(alloc, refutations.len())?;
    for proof in refutations {
        let ratio = ratios.at(sections.len() as u64);
        sections.push(Section { ratio, proof })?;
    }
    Ok(Sections::new(sections))
}

/// The places of the nodes.
pub fn make_spots(alloc: Global, layout: &Layout) -> Result<Spots, NoMemory>
    requires { IsGrid layout.now.ratio }
    ensures { IfOk result (λ spots. spots ≡ spots_of layout.now) }
{
    let ratio = layout.ratio;
    let places = layout.places.as_slice();
    let mut spots = Vec::with_capacity(alloc, places.len())?;
    for t in places {
        spots.push(spot(ratio, *t))?;
    }
    Ok(Spots::new(spots))
}

// The column and the row of a tile.
fn spot(ratio: Ratio, t: u32) -> Spot
    requires { IsGrid ratio }
    ensures { result ≡ spot_of ratio t }
{
    Spot {
        x: t % ratio.w,
        y: t / ratio.w,
    }
}
