//! The lines of the ports: the name of each, and the column and the row of the tile on which its node stands.
ghost use Rattle.std.specs.Prelude.{◌≡◌, ◌<◌, ◌≤◌, ◌==◌, ◌&&◌, [], length, slice_index_or};
ghost use Rattle.bx_desk.specs.Desk.{CanPut};
ghost use Rattle.bx_desk.specs.Pieces.{target_of, PutsOut};
ghost use Rattle.bx_desk.specs.Printing.{Prints};
ghost use Rattle.bx_grid.specs.Tiles.{IsGrid};
ghost use Rattle.bx_layout.specs.Pins.{pins_at};
ghost use Rattle.bx_lines.specs.Lines.{text_of};
ghost use Rattle.bx_says.specs.Parts.{kind_test, names_of, direction_word, direction_text, port_on, port_text};
ghost use Rattle.bx_says.specs.Ports.{tile_of as tile_of_pins, ports_of};
ghost use Rattle.bx_says.specs.Reports.{port_lines};

use bx_desk::{Desk, Failed, Piece, Printer, Word};
use bx_forms::Kind;
use bx_grid::Ratio;
use bx_logic::Net;
use bx_network::{MappedNet, Node};

// Inputs, or outputs.
#[derive(Clone, Copy)]
enum Direction {
    In,
    Out,
}

/// Puts out a line for each used input, and then one for each output, in port order, where the nodes of the
/// network stand on these tiles of a grid. Takes no memory.
///
/// # Errors
///
/// `Failed` only where the desk failed, and its count of such failures rose.
pub fn say_pins<D: Desk>(
    net: &Net,
    mapped: &MappedNet,
    ratio: Ratio,
    places: &[u32],
    piece: &mut Piece,
    desk: &mut D,
) -> Result<(), Failed>
    requires can { CanPut (target_of piece.old) (D.state desk.old) }
    requires grid { IsGrid ratio }
    requires places { length places.now ≡ length mapped.now.nodes }
    ensures { PutsOut (D.state desk.old) (D.state desk.new) result piece.old piece.new
        (text_of (port_lines ratio (ports_of net.now mapped.now places.now))) }
{
    let mut printer = Printer::new(piece, desk);
    print_pins(net, mapped, ratio, places, &mut printer);
    printer.outcome()
}

// Likewise, through a printer.
fn print_pins<D: Desk>(
    net: &Net,
    mapped: &MappedNet,
    ratio: Ratio,
    places: &[u32],
    printer: &mut Printer<D>,
)
    requires wide { 1 ≤ ratio.w }
    requires places { length places.now ≡ length mapped.now.nodes }
    ensures { Prints printer.old printer.new
        (text_of (port_lines ratio (ports_of net.now mapped.now places.now))) }
{
    print_ports(Direction::In, net, mapped, ratio, places, printer);
    print_ports(Direction::Out, net, mapped, ratio, places, printer);
}

// The lines of the inputs, or of the outputs.
fn print_ports<D: Desk>(
    direction: Direction,
    net: &Net,
    mapped: &MappedNet,
    ratio: Ratio,
    places: &[u32],
    printer: &mut Printer<D>,
)
    requires wide { 1 ≤ ratio.w }
    requires places { length places.now ≡ length mapped.now.nodes }
    ensures { Prints printer.old printer.new
        (direction_text direction ratio net.now mapped.now places.now) }
{
    for port in 0..port_count(net, direction) {
        let tile = tile_of(direction, port, mapped, places);
        print_port(
            direction,
            port_name(net, direction, port),
            ratio,
            tile,
            printer,
        );
    }
}

// The line of a port, if a node stands for it.
fn print_port<D: Desk>(
    direction: Direction,
    name: &[u8],
    ratio: Ratio,
    tile: Option<u32>,
    printer: &mut Printer<D>,
)
    requires { 1 ≤ ratio.w }
    ensures { Prints printer.old printer.new
        (port_text (direction_word direction) ratio (port_on name.now tile)) }
{
    if let Some(tile) = tile {
        let x = Word::Number((tile % ratio.w) as u64);
        let y = Word::Number((tile / ratio.w) as u64);
        printer.line(word_of(direction), &[Word::Text(name), x, y]);
    }
}

// How many ports there are.
fn port_count(net: &Net, direction: Direction) -> u32
    ensures { result ≡ length (names_of direction net.now) }
{
    match direction {
        Direction::In => net.input_count(),
        Direction::Out => net.output_count(),
    }
}

// The name of this one.
fn port_name(net: &Net, direction: Direction, port: u32) -> &[u8]
    requires { port < length (names_of direction net.now) }
    ensures { result.now ≡ slice_index_or (names_of direction net.now) port [] }
{
    match direction {
        Direction::In => net.input_name(port).as_slice(),
        Direction::Out => net.output_name(port).as_slice(),
    }
}

// The word with which a port's line begins.
fn word_of(direction: Direction) -> &'static [u8]
    ensures { result.now ≡ direction_word direction }
{
    match direction {
        Direction::In => b"input",
        Direction::Out => b"output",
    }
}

// The tile of the node that stands for this port, or none where no node does.
fn tile_of(direction: Direction, port: u32, mapped: &MappedNet, places: &[u32]) -> Option<u32>
    requires { length places.now ≡ length mapped.now.nodes }
    ensures { result
        ≡ tile_of_pins (pins_at (kind_test direction) mapped.now.nodes places.now) port }
{
    for v in 0..mapped.node_count() {
        if stands_for(mapped.node(v), direction, port) {
            return Some(places[v as usize]);
        }
    }
    None
}

// Whether the node stands for this port.
fn stands_for(node: Node, direction: Direction, port: u32) -> bool
    ensures { result ≡ (kind_test direction node.kind && (node.port == port)) }
{
    is_of(node.kind, direction) && node.port == port
}

// Whether nodes of this kind stand for such ports.
fn is_of(kind: Kind, direction: Direction) -> bool
    ensures { result ≡ kind_test direction kind }
{
    match direction {
        Direction::In => matches!(kind, Kind::Input),
        Direction::Out => matches!(kind, Kind::Output),
    }
}
