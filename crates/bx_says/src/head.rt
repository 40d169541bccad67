//! The head of a report: the module, the size of its network, and the inputs for which no node stands.
ghost use Rattle.std.specs.Prelude.{◌<◌, length};
ghost use Rattle.bx_desk.specs.Desk.{CanPut};
ghost use Rattle.bx_desk.specs.Pieces.{target_of, PutsOut};
ghost use Rattle.bx_desk.specs.Printing.{Prints};
ghost use Rattle.bx_lines.specs.Lines.{text_of};
ghost use Rattle.bx_says.specs.Parts.{unused_text, unused_text_at};
ghost use Rattle.bx_says.specs.Reports.{head_of, head_lines};

use bx_desk::{Desk, Failed, Piece, Printer, Word};
use bx_logic::Net;
use bx_network::{MappedNet, is_unused};

/// Puts out the module, the number of nodes and edges of its network, and a line for each unused input in
/// port order. Takes no memory.
///
/// # Errors
///
/// `Failed` only where the desk failed, and its count of such failures rose.
pub fn say_head<D: Desk>(
    net: &Net,
    mapped: &MappedNet,
    piece: &mut Piece,
    desk: &mut D,
) -> Result<(), Failed>
    requires { CanPut (target_of piece.old) (D.state desk.old) }
    ensures { PutsOut (D.state desk.old) (D.state desk.new) result piece.old piece.new
        (text_of (head_lines (head_of net.now mapped.now))) }
{
    let mut printer = Printer::new(piece, desk);
    print_head(net, mapped, &mut printer);
    printer.outcome()
}

// Likewise, through a printer.
fn print_head<D: Desk>(net: &Net, mapped: &MappedNet, printer: &mut Printer<D>)
    ensures { Prints printer.old printer.new (text_of (head_lines (head_of net.now mapped.now))) }
{
    let nodes = Word::Number(mapped.node_count() as u64);
    let edges = Word::Number(mapped.edge_count() as u64);
    let name = Word::Text(net.name().as_slice());
    printer.line(b"module", &[name]);
    printer.line(b"nodes", &[nodes, Word::Text(b"edges"), edges]);
    print_unused(net, mapped, printer);
}

// The lines of the unused inputs.
fn print_unused<D: Desk>(net: &Net, mapped: &MappedNet, printer: &mut Printer<D>)
    ensures { Prints printer.old printer.new (unused_text net.now mapped.now) }
{
    for port in 0..net.input_count() {
        print_if_unused(net, mapped, port, printer);
    }
}

// The line of an input where it is unused.
fn print_if_unused<D: Desk>(net: &Net, mapped: &MappedNet, port: u32, printer: &mut Printer<D>)
    requires { port < length net.now.inputs }
    ensures { Prints printer.old printer.new (unused_text_at net.now mapped.now port) }
{
    if is_unused(mapped, port) {
        let name = Word::Text(net.input_name(port).as_slice());
        printer.line(b"unused", &[name]);
    }
}
