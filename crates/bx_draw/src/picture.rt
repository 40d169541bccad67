//! Drawing a grid, part by part, through a printer. What stands around it is the frame's, and the dots are drawn over it
//! by the module of dots.
ghost use Rattle.std.specs.Prelude.{◌≡◌, ◌<◌, ◌^◌, ◌==◌, flat_map};
ghost use Rattle.std.specs.List.{position};
ghost use Rattle.bx_desk.specs.Desk.{CanPut};
ghost use Rattle.bx_desk.specs.Pieces.{target_of, PutsOut};
ghost use Rattle.bx_desk.specs.Printing.{Prints};
ghost use Rattle.bx_desk.specs.Words.{word_text};
ghost use Rattle.bx_lines.specs.Lines.{ended};
ghost use Rattle.bx_draw.specs.Pictures.{body_text, labels_of, labels_text, label_text, label_of, legend_text, middle_x, name_y, node_text, picture_text, row_of, symbol, tile_text, tiles_text};

use crate::escape::print_escaped;
use crate::frame::print_head;
use crate::port::{Place, PortName};
use crate::symbols::{LEGEND, SYMBOLS};
use bx_desk::{Desk, Failed, Piece, Printer, Word};
use bx_forms::Form;
use bx_grid::{Ratio, column_and_row};
use bx_layout::FormGrid;

/// Puts out the picture of a grid, with these names of ports, and with the number of each node that stands on one of
/// these tiles, by number. Takes no memory.
///
/// # Errors
///
/// `Failed` only where the desk could not take all of a full buffer, and its count of such failures rose.
pub fn draw_grid<D: Desk>(
    grid: &FormGrid,
    ports: &[PortName],
    places: &[u32],
    piece: &mut Piece,
    desk: &mut D,
) -> Result<(), Failed>
    requires { CanPut (target_of piece.old) (D.state desk.old) }
    ensures { PutsOut (D.state desk.old) (D.state desk.new) result piece.old piece.new
        (picture_text grid.now (labels_of ports.now) places.now) }
{
    let mut printer = Printer::new(piece, desk);
    print_picture(grid, ports, places, &mut printer);
    printer.outcome()
}

// Likewise, through a printer.
fn print_picture<D: Desk>(
    grid: &FormGrid,
    ports: &[PortName],
    places: &[u32],
    printer: &mut Printer<D>,
)
    ensures { Prints printer.old printer.new
        (picture_text grid.now (labels_of ports.now) places.now) }
{
    print_head(grid.ratio(), printer);
    print_body(grid, ports, places, printer);
    printer.bytes(b"</svg>\n");
}

/// Prints the symbols, the tiles, the names and the legend.
pub(crate) fn print_body<D: Desk>(
    grid: &FormGrid,
    ports: &[PortName],
    places: &[u32],
    printer: &mut Printer<D>,
)
    ensures { Prints printer.old printer.new (body_text grid.now (labels_of ports.now) places.now) }
{
    let ratio = grid.ratio();
    print_lines(&SYMBOLS, printer);
    print_tiles(grid, places, printer);
    print_ports(u64::from(ratio.h), ports, printer);
    print_legend(ratio, printer);
}

// These lines.
fn print_lines<D: Desk>(lines: &[&str], printer: &mut Printer<D>)
    ensures { Prints printer.old printer.new (flat_map (λ line. ended line.now) lines.now) }
{
    for line in lines {
        print_line(line, printer);
    }
}

// A line.
fn print_line<D: Desk>(line: &str, printer: &mut Printer<D>)
    ensures { Prints printer.old printer.new (ended line.now) }
{
    printer.bytes(line.as_bytes());
    printer.end_line();
}

// Each tile of the grid, once.
fn print_tiles<D: Desk>(grid: &FormGrid, places: &[u32], printer: &mut Printer<D>)
    ensures { Prints printer.old printer.new (tiles_text grid.now places.now) }
{
    let ratio = grid.ratio();
    for t in 0..ratio.w * ratio.h {
        let (x, y) = column_and_row(ratio, t);
        let node = node_on(places, t);
        print_tile(u64::from(x), u64::from(y), grid.tile(t), node, printer);
    }
}

// The node that stands on a tile.
fn node_on(places: &[u32], tile: u32) -> Option<usize>
    ensures { result ≡ position (λ place. place == tile) places.now }
{
    places.iter().position(|place| *place == tile)
}

// A tile at a column and a row.
fn print_tile<D: Desk>(
    x: u64,
    y: u64,
    tile: Option<Form>,
    node: Option<usize>,
    printer: &mut Printer<D>,
)
    requires column { x < 2 ^ 32 }
    requires row { y < 2 ^ 32 }
    ensures { Prints printer.old printer.new (tile_text x y tile node) }
{
    let name = Word::Text(symbol_of(tile));
    printer.words(&[
        Word::Text(b"<g class=\"z"),
        Word::Number(y % 4),
        Word::Text(b"\" transform=\"translate("),
        Word::Number(middle(x, y)),
        Word::Text(b" "),
        Word::Number(90 * y + 60),
        Word::Text(b")\"><title>"),
        name,
        Word::Text(b" at column "),
        Word::Number(x),
        Word::Text(b", row "),
        Word::Number(y),
        Word::Text(b", clock zone "),
        Word::Number(y % 4),
    ]);
    print_node(node, printer);
    printer.words(&[
        Word::Text(b"</title><use xlink:href=\"#tile\"/><use xlink:href=\"#"),
        name,
        Word::Text(b"\"/></g>\n"),
    ]);
}

// What is told of the node on a tile, if one is known.
fn print_node<D: Desk>(node: Option<usize>, printer: &mut Printer<D>)
    ensures { Prints printer.old printer.new (node_text node) }
{
    if let Some(node) = node {
        printer.bytes(b", node ");
        printer.number(node as u64);
    }
}

// How far right the middle of a tile stands, by its column and row.
fn middle(x: u64, y: u64) -> u64
    requires { x < 2 ^ 32 }
    ensures { result ≡ middle_x x y }
{
    52 * (2 * x + 1 + y % 2)
}

// The name of the symbol on a tile.
fn symbol_of(tile: Option<Form>) -> &'static [u8]
    ensures { result.now ≡ symbol tile }
{
    match tile {
        Some(form) => form.name().as_bytes(),
        None => b"empty",
    }
}

// The names of ports, at a grid of so many rows.
fn print_ports<D: Desk>(rows: u64, ports: &[PortName], printer: &mut Printer<D>)
    requires { rows < 2 ^ 32 }
    ensures { Prints printer.old printer.new (labels_text rows (labels_of ports.now)) }
{
    for port in ports {
        print_port(rows, port, printer);
    }
}

// The name of a port.
fn print_port<D: Desk>(rows: u64, port: &PortName, printer: &mut Printer<D>)
    requires { rows < 2 ^ 32 }
    ensures { Prints printer.old printer.new (label_text rows (label_of port.now)) }
{
    let row = row_beside(port.place, rows);
    printer.words(&[
        Word::Text(b"<text class=\"p\" x=\""),
        Word::Number(middle(u64::from(port.column), row)),
        Word::Text(b"\" y=\""),
        height_of(port.place, rows),
        Word::Text(b"\">"),
    ]);
    print_escaped(port.name, printer);
    printer.bytes(b"</text>\n");
}

// A row that stands as far right as the one beside names that stand there.
fn row_beside(place: Place, rows: u64) -> u64
    requires { rows < 2 ^ 32 }
    ensures { result ≡ row_of place rows }
{
    match place {
        Place::Above => 0,
        Place::Below => rows + 1,
    }
}

// Where names stand, above or below a grid of so many rows.
fn height_of(place: Place, rows: u64) -> Word<'static>
    requires { rows < 2 ^ 32 }
    ensures { word_text result ≡ name_y place rows }
{
    match place {
        Place::Above => Word::Text(b"-8"),
        Place::Below => Word::Number(90 * rows + 54),
    }
}

// The legend, below a grid of these sides.
fn print_legend<D: Desk>(ratio: Ratio, printer: &mut Printer<D>)
    ensures { Prints printer.old printer.new (legend_text ratio) }
{
    printer.words(&[
        Word::Text(b"<g transform=\"translate(24 "),
        Word::Number(90 * u64::from(ratio.h) + 94),
        Word::Text(b")\">\n"),
    ]);
    print_lines(&LEGEND, printer);
    printer.words(&[
        Word::Text(b"<text class=\"k\" x=\"54\" y=\"52\">"),
        Word::Number(u64::from(ratio.w)),
        Word::Text(b" by "),
        Word::Number(u64::from(ratio.h)),
        Word::Text(b" tiles</text>\n</g>\n"),
    ]);
}
