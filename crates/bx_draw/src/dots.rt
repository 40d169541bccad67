//! Drawing a grid with its dots at their true places, over the tiles that they make. The lattice is that of hydrogen on
//! silicon: dimers are 3.84 angstroms apart along a row, rows of dimers 7.68, and the two atoms of a dimer 2.25. A dot's
//! circle has a radius of one angstrom.
ghost use Rattle.std.specs.Prelude.{◌≡◌, flat_map};
ghost use Rattle.bx_desk.specs.Desk.{CanPut};
ghost use Rattle.bx_desk.specs.Pieces.{target_of, PutsOut};
ghost use Rattle.bx_desk.specs.Printing.{Prints};
ghost use Rattle.bx_draw.specs.Pictures.{labels_of};
ghost use Rattle.bx_draw.specs.Dotted.{dot_text, dots_text, dotted_text};

use crate::frame::print_stretched;
use crate::picture::print_body;
use crate::port::PortName;
use bx_desk::{Desk, Failed, Piece, Printer, Word};
use bx_layout::FormGrid;
use bx_library::{Dot, Library};

/// Puts out the picture of a grid as `draw_grid` does, stretched to the size that its tiles have by a library, and over
/// it these dots at their true places. Takes no memory.
///
/// # Errors
///
/// `Failed` only where the desk could not take all of a full buffer, and its count of such failures rose.
pub fn draw_dots<D: Desk>(
    grid: &FormGrid,
    ports: &[PortName],
    places: &[u32],
    library: &Library,
    dots: &[Dot],
    piece: &mut Piece,
    desk: &mut D,
) -> Result<(), Failed>
    requires { CanPut (target_of piece.old) (D.state desk.old) }
    ensures { PutsOut (D.state desk.old) (D.state desk.new) result piece.old piece.new
        (dotted_text library.now dots.now grid.now (labels_of ports.now) places.now) }
{
    let mut printer = Printer::new(piece, desk);
    print_dotted(grid, ports, places, library, dots, &mut printer);
    printer.outcome()
}

// Likewise, through a printer.
fn print_dotted<D: Desk>(
    grid: &FormGrid,
    ports: &[PortName],
    places: &[u32],
    library: &Library,
    dots: &[Dot],
    printer: &mut Printer<D>,
)
    ensures { Prints printer.old printer.new
        (dotted_text library.now dots.now grid.now (labels_of ports.now) places.now) }
{
    print_stretched(grid.ratio(), library, printer);
    print_body(grid, ports, places, printer);
    print_dots(dots, printer);
}

// The end of what is stretched, and the dots over it.
fn print_dots<D: Desk>(dots: &[Dot], printer: &mut Printer<D>)
    ensures { Prints printer.old printer.new (dots_text dots.now) }
{
    printer.bytes(b"</svg>\n<g class=\"d\">\n");
    print_each(dots, printer);
    printer.bytes(b"</g>\n</svg>\n");
}

// Each dot.
fn print_each<D: Desk>(dots: &[Dot], printer: &mut Printer<D>)
    ensures { Prints printer.old printer.new (flat_map dot_text dots.now) }
{
    for dot in dots {
        print_dot(*dot, printer);
    }
}

// A dot, in hundredths of an angstrom.
fn print_dot<D: Desk>(dot: Dot, printer: &mut Printer<D>)
    ensures { Prints printer.old printer.new (dot_text dot) }
{
    printer.words(&[
        Word::Text(b"<circle cx=\""),
        Word::Number(384 * u64::from(dot.n)),
        Word::Text(b"\" cy=\""),
        Word::Number(768 * u64::from(dot.m) + 225 * u64::from(dot.l)),
        Word::Text(b"\" r=\"100\"/>\n"),
    ]);
}
