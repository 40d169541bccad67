//! From the file of a design to the design, and from this to the form grid that a library cuts it into. What a text is
//! and what dots are cut into is for bx_siqad and bx_dots to say.
ghost use Rattle.std.specs.Prelude.{◌≡◌, IfOk, IfErr, OnOk};
ghost use Rattle.bx_dots.specs.Cuts.{IsCut};
ghost use Rattle.bx_engine.specs.Designs.{IsShortDesign, IsRefusedDesign, IsTakenDesign, IsRefusedCut};
ghost use Rattle.bx_engine.specs.Runs.{ReadsDesign, ReadingEnds, FileEnds};

use crate::limits::DESIGN_BYTES;
use crate::load::NoInput;
use crate::status::{InputFault, Which};
use bx_desk::{Desk, LoadFault};
use bx_dots::{CutFault, cut};
use bx_layout::FormGrid;
use bx_library::Library;
use bx_siqad::{Design, DesignFault, read_design};
use std::alloc::Global;

/// Loads the file and reads its design.
pub fn load_design<D: Desk>(alloc: Global, name: &str, desk: &mut D) -> Result<Design, NoInput>
    ensures design { IfOk result (ReadsDesign (D.state desk.old).files name.now) }
    ensures ok_stays { OnOk result (D.state desk.new ≡ D.state desk.old) }
    ensures err { IfErr result (FileEnds IsRefusedDesign (D.state desk.old) (D.state desk.new) name.now) }
{
    let mut text = Vec::new(alloc);
    match desk.load(name, DESIGN_BYTES, &mut text) {
        Ok(()) => design_of_text(alloc, &text),
        Err(LoadFault::TooLong) => Err(NoInput::Fault(InputFault::TooLong(Which::DesignFile))),
        Err(LoadFault::Failed) => Err(NoInput::Unread),
        Err(LoadFault::NoMemory) => Err(NoInput::NoMemory),
    }
}

// Reads the design of a text.
fn design_of_text(alloc: Global, text: &[u8]) -> Result<Design, NoInput>
    requires { IsShortDesign text.now }
    ensures design { IfOk result (IsTakenDesign text.now) }
    ensures err { IfErr result (ReadingEnds (IsRefusedDesign text.now)) }
{
    match read_design(alloc, text) {
        Ok(design) => Ok(design),
        Err(DesignFault::BadDesign(line)) => Err(NoInput::Fault(InputFault::Design(
            DesignFault::BadDesign(line),
        ))),
        Err(DesignFault::NoMemory) => Err(NoInput::NoMemory),
    }
}

/// Cuts a design into its form grid by the forms of a library.
pub fn cut_design(alloc: Global, library: &Library, design: &Design) -> Result<FormGrid, NoInput>
    ensures grid { IfOk result (IsCut library.now design.now.ratio design.now.dots) }
    ensures err { IfErr result (ReadingEnds (IsRefusedCut library.now design.now)) }
{
    let ratio = design.ratio();
    match cut(alloc, library, ratio, design.dots()) {
        Ok(grid) => Ok(grid),
        Err(CutFault::NoMemory) => Err(NoInput::NoMemory),
        Err(fault) => Err(NoInput::Fault(InputFault::Cut(fault, ratio))),
    }
}
