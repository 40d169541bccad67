//! The command `extract`: the form grid that the dots of a design are cut into by a library, whoever made them. Where
//! library and design are taken and the cut is, it says the sides of the grid, its rows, and whether it is sound. It
//! writes no file.
ghost use Rattle.std.specs.Prelude.{◌≡◌};
ghost use Rattle.bx_desk.specs.Desk.{CanPut};
ghost use Rattle.bx_desk.specs.Pieces.{target_of, PutsOut};
ghost use Rattle.bx_lines.specs.Lines.{ended};
ghost use Rattle.bx_verilog.specs.Formulas.{Text};
ghost use Rattle.bx_engine.specs.Grids.{TellsGrid, answer_word, grid_text, ratio_line, sound_line};
ghost use Rattle.bx_engine.specs.Runs.{EndsSaying, ReadsLibrary, ReadsDesign};
ghost use Rattle.bx_engine.specs.Steps.{EndsJob, extraction_of};

use crate::load::{NoInput, cut_design, load_design, load_library};
use crate::say::{end_saying, refuse};
use crate::status::{Status, Which};
use bx_desk::{Desk, Failed, Piece};
use bx_grid::Ratio;
use bx_layout::{FormGrid, is_sound};
use bx_library::Library;
use bx_says::{Word, put_line, say_rows};
use bx_siqad::Design;
use bx_words::ExtractCommand;
use std::alloc::Global;

/// Serves `extract`: loads the library, and goes on where it is taken.
pub(crate) fn serve_extract<D: Desk>(
    alloc: Global,
    command: &ExtractCommand,
    desk: &mut D,
) -> Status
    ensures { EndsJob (extraction_of command.now) (D.state desk.old) (D.state desk.new) result }
{
    match load_library(alloc, command.lib, desk) {
        Ok(library) => extract_by(alloc, command, &library, desk),
        Err(NoInput::Fault(fault)) => refuse(desk, fault),
        Err(NoInput::Unread) => Status::ReadFault(Which::LibFile),
        Err(NoInput::NoMemory) => Status::NoMemory,
    }
}

// Loads the design, and goes on where it is taken.
fn extract_by<D: Desk>(
    alloc: Global,
    command: &ExtractCommand,
    library: &Library,
    desk: &mut D,
) -> Status
    requires { ReadsLibrary (D.state desk.old).files command.now.lib.now library.now }
    ensures { EndsJob (extraction_of command.now) (D.state desk.old) (D.state desk.new) result }
{
    match load_design(alloc, command.design, desk) {
        Ok(design) => extract_from(alloc, command, library, &design, desk),
        Err(NoInput::Fault(fault)) => refuse(desk, fault),
        Err(NoInput::Unread) => Status::ReadFault(Which::DesignFile),
        Err(NoInput::NoMemory) => Status::NoMemory,
    }
}

// Cuts the design, and says its grid where that is done.
fn extract_from<D: Desk>(
    alloc: Global,
    command: &ExtractCommand,
    library: &Library,
    design: &Design,
    desk: &mut D,
) -> Status
    requires library { ReadsLibrary (D.state desk.old).files command.now.lib.now library.now }
    requires design { ReadsDesign (D.state desk.old).files command.now.design.now design.now }
    ensures { EndsJob (extraction_of command.now) (D.state desk.old) (D.state desk.new) result }
{
    match cut_design(alloc, library, design) {
        Ok(grid) => say_grid(&grid, desk),
        Err(NoInput::Fault(fault)) => refuse(desk, fault),
        // (a cut reads no file)
        Err(NoInput::Unread | NoInput::NoMemory) => Status::NoMemory,
    }
}

// Says a grid, and whether it is sound.
fn say_grid<D: Desk>(grid: &FormGrid, desk: &mut D) -> Status
    ensures { (said : Text) × TellsGrid grid.now said
        × EndsSaying (D.state desk.old) (D.state desk.new) Status.Done said result }
{
    let sound = is_sound(grid);
    say_grid_as(grid, sound, desk)
}

// Says a grid, and that it is sound or that it isn't.
fn say_grid_as<D: Desk>(grid: &FormGrid, sound: bool, desk: &mut D) -> Status
    ensures { EndsSaying (D.state desk.old) (D.state desk.new) Status.Done (grid_text grid.now sound) result }
{
    let mut piece = Piece::to_say();
    match put_grid(grid, sound, &mut piece, desk) {
        Ok(()) => end_saying(piece, desk, Status::Done),
        Err(Failed) => Status::WriteFault(Which::Output),
    }
}

// Puts out a grid, and that it is sound or that it isn't.
fn put_grid<D: Desk>(
    grid: &FormGrid,
    sound: bool,
    piece: &mut Piece,
    desk: &mut D,
) -> Result<(), Failed>
    requires { CanPut (target_of piece.old) (D.state desk.old) }
    ensures { PutsOut (D.state desk.old) (D.state desk.new) result piece.old piece.new
        (grid_text grid.now sound) }
{
    put_ratio(grid.ratio(), piece, desk)?;
    say_rows(grid, piece, desk)?;
    put_sound(sound, piece, desk)
}

// Puts out the line of the sides of a grid.
fn put_ratio<D: Desk>(ratio: Ratio, piece: &mut Piece, desk: &mut D) -> Result<(), Failed>
    requires { CanPut (target_of piece.old) (D.state desk.old) }
    ensures { PutsOut (D.state desk.old) (D.state desk.new) result piece.old piece.new
        (ended (ratio_line ratio)) }
{
    let w = Word::Number(u64::from(ratio.w));
    let h = Word::Number(u64::from(ratio.h));
    put_line(b"ratio", &[w, h], piece, desk)
}

// Puts out the line that says whether a grid is sound.
fn put_sound<D: Desk>(sound: bool, piece: &mut Piece, desk: &mut D) -> Result<(), Failed>
    requires { CanPut (target_of piece.old) (D.state desk.old) }
    ensures { PutsOut (D.state desk.old) (D.state desk.new) result piece.old piece.new
        (ended (sound_line sound)) }
{
    put_line(b"sound", &[Word::Text(answer_word(sound))], piece, desk)
}

// Yes or no, as a word.
fn answer_word(yes: bool) -> &'static [u8]
    ensures { result.now ≡ answer_word yes }
{
    if yes { b"yes" } else { b"no" }
}
