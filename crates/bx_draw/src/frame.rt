//! What stands around a picture: the box that it fills, and its title. A plain picture has the frame's own units, of
//! which a tile is 104 wide and rows are 90 apart. Where dots are drawn too, the units are hundredths of an angstrom, and
//! the frame is stretched so that each tile lies under its dots: these have their true places, and the tiles give way.
ghost use Rattle.std.specs.Prelude.{◌≡◌, ◌<◌, ◌^◌};
ghost use Rattle.bx_desk.specs.Printing.{Prints};
ghost use Rattle.bx_draw.specs.Frames.{across, box_text, down, frame_text, head_text, inner_text, left, start_text, stretched_text, title_text, top};

use bx_desk::{Desk, Printer, Word};
use bx_grid::Ratio;
use bx_library::Library;

/// Prints what stands before a plain picture of these sides.
pub(crate) fn print_head<D: Desk>(ratio: Ratio, printer: &mut Printer<D>)
    ensures { Prints printer.old printer.new (head_text ratio) }
{
    print_start(printer);
    print_frame(ratio, printer);
    print_title(ratio, b" tiles</title>\n", printer);
}

/// Prints what stands before a picture of these sides that is stretched over the dots of the tiles of a library.
pub(crate) fn print_stretched<D: Desk>(ratio: Ratio, library: &Library, printer: &mut Printer<D>)
    ensures { Prints printer.old printer.new (stretched_text library.now ratio) }
{
    print_start(printer);
    print_box(ratio, library, printer);
    print_title(
        ratio,
        b" tiles, in hundredths of an angstrom</title>\n",
        printer,
    );
    print_inner(ratio, library, printer);
    print_frame(ratio, printer);
    printer.bytes(b"\">\n");
}

// The first lines, up to the numbers of the box.
fn print_start<D: Desk>(printer: &mut Printer<D>)
    ensures { Prints printer.old printer.new start_text }
{
    printer.bytes(
        b"<?xml version=\"1.0\" encoding=\"UTF-8\"?>\n<svg xmlns=\"http://www.w3.org/2000/svg\" xmlns:xlink=\"http://www.w3.org/1999/xlink\" version=\"1.1\" viewBox=\"",
    );
}

// The box of a plain picture, in the frame's own units.
fn print_frame<D: Desk>(ratio: Ratio, printer: &mut Printer<D>)
    ensures { Prints printer.old printer.new (frame_text ratio) }
{
    printer.words(&[
        Word::Text(b"-52 -75 "),
        Word::Number(52 * (2 * u64::from(ratio.w) + 3)),
        Word::Text(b" "),
        Word::Number(90 * (u64::from(ratio.h) + 3)),
    ]);
}

// The end of the box, and the title up to what stands behind the sides.
fn print_title<D: Desk>(ratio: Ratio, end: &[u8], printer: &mut Printer<D>)
    ensures { Prints printer.old printer.new (title_text ratio end.now) }
{
    printer.words(&[
        Word::Text(b"\">\n<title>A layout of "),
        Word::Number(u64::from(ratio.w)),
        Word::Text(b" by "),
        Word::Number(u64::from(ratio.h)),
        Word::Text(end),
    ]);
}

// The box of a stretched picture, on the lattice.
fn print_box<D: Desk>(ratio: Ratio, library: &Library, printer: &mut Printer<D>)
    ensures { Prints printer.old printer.new (box_text library.now ratio) }
{
    printer.words(&[
        Word::Text(b"-"),
        Word::Number(left(library)),
        Word::Text(b" -"),
        Word::Number(top(library)),
        Word::Text(b" "),
        Word::Number(across(library, u64::from(ratio.w))),
        Word::Text(b" "),
        Word::Number(down(library, u64::from(ratio.h))),
    ]);
}

// The same box, in which the frame is stretched, up to the numbers of the frame.
fn print_inner<D: Desk>(ratio: Ratio, library: &Library, printer: &mut Printer<D>)
    ensures { Prints printer.old printer.new (inner_text library.now ratio) }
{
    printer.words(&[
        Word::Text(b"<svg x=\"-"),
        Word::Number(left(library)),
        Word::Text(b"\" y=\"-"),
        Word::Number(top(library)),
        Word::Text(b"\" width=\""),
        Word::Number(across(library, u64::from(ratio.w))),
        Word::Text(b"\" height=\""),
        Word::Number(down(library, u64::from(ratio.h))),
        Word::Text(b"\" preserveAspectRatio=\"none\" viewBox=\""),
    ]);
}

// How far left of the first dimer of the first tile the box begins: half a tile, and half the way to a next dimer.
fn left(library: &Library) -> u64
    ensures { result ≡ left library.now }
{
    192 * (u64::from(library.width()) + 1)
}

// How far above the first dimer it begins: a tile, and half of what lies between two rows of dimers.
fn top(library: &Library) -> u64
    ensures { result ≡ top library.now }
{
    768 * u64::from(library.height()) + 272
}

// How wide it is, over so many tiles: they, half a tile in odd rows, half a tile at the left and half a one at the right.
fn across(library: &Library, tiles: u64) -> u64
    requires { tiles < 2 ^ 32 }
    ensures { result ≡ across library.now tiles }
{
    192 * (u64::from(library.width()) * (2 * tiles + 3))
}

// How high it is, over so many rows of tiles: they, one above and two below.
fn down(library: &Library, rows: u64) -> u64
    requires { rows < 2 ^ 32 }
    ensures { result ≡ down library.now rows }
{
    768 * (u64::from(library.height()) * (rows + 3))
}
