//! The lines of the rows: the names of the forms on the tiles of each, from left to right.
ghost use Rattle.std.specs.Prelude.{◌≡◌, ◌∷◌, flat_map};
ghost use Rattle.bx_desk.specs.Desk.{CanPut};
ghost use Rattle.bx_desk.specs.Pieces.{target_of, PutsOut};
ghost use Rattle.bx_desk.specs.Printing.{Prints};
ghost use Rattle.bx_lines.specs.Lines.{text_of};
ghost use Rattle.bx_says.specs.Parts.{tiles_text};
ghost use Rattle.bx_says.specs.Reports.{tile_name, row_lines};

use bx_desk::{Desk, Failed, Piece, Printer, Word};
use bx_forms::Form;
use bx_layout::FormGrid;

/// Puts out a line for each row of a grid, from the first to the last. Takes no memory.
///
/// # Errors
///
/// `Failed` only where the desk failed, and its count of such failures rose.
pub fn say_rows<D: Desk>(grid: &FormGrid, piece: &mut Piece, desk: &mut D) -> Result<(), Failed>
    requires { CanPut (target_of piece.old) (D.state desk.old) }
    ensures { PutsOut (D.state desk.old) (D.state desk.new) result piece.old piece.new
        (text_of (row_lines grid.now)) }
{
    let mut printer = Printer::new(piece, desk);
    print_rows(grid, &mut printer);
    printer.outcome()
}

// Likewise, through a printer.
fn print_rows<D: Desk>(grid: &FormGrid, printer: &mut Printer<D>)
    ensures { Prints printer.old printer.new (text_of (row_lines grid.now)) }
{
    for y in 0..grid.ratio().h {
        print_row(grid.row(y), y, printer);
    }
}

// The line of a row.
fn print_row<D: Desk>(tiles: &[Option<Form>], y: u32, printer: &mut Printer<D>)
    ensures { Prints printer.old printer.new (tiles_text y tiles.now) }
{
    printer.bytes(b"row");
    printer.further(Word::Number(y as u64));
    print_tiles(tiles, printer);
    printer.end_line();
}

// The names of the forms on tiles, each behind a space.
fn print_tiles<D: Desk>(tiles: &[Option<Form>], printer: &mut Printer<D>)
    ensures { Prints printer.old printer.new (flat_map (λ tile. 32 ∷ tile_name tile) tiles.now) }
{
    for tile in tiles {
        printer.further(Word::Text(name_of(*tile)));
    }
}

// What is printed for a tile.
fn name_of(tile: Option<Form>) -> &'static [u8]
    ensures { result.now ≡ tile_name tile }
{
    match tile {
        Some(form) => form.name().as_bytes(),
        None => b"empty",
    }
}
