//! The one call that the program makes: from its words to a picture, a refusal or a verdict on standard output, and a
//! status.
ghost use Rattle.bx_draw.specs.Pictures.{picture_text, labels_of as labelled};
ghost use Rattle.bx_draw.specs.Dotted.{dotted_text};
ghost use Rattle.bx_engine.specs.Runs.{EndsSaying};

use crate::labels::{Labels, labels_of, no_labels};
use crate::words::{DrawCommand, command_of};
use bx_cert::{Cert, CertLast};
use bx_desk::{Desk, Failed, Piece};
use bx_draw::{PortName, draw_dots, draw_grid};
use bx_engine::{
    Module, NoInput, Status, Which, WordFault, cut_design, end_saying, load_cert, load_design,
    load_library, load_module, refuse, refuse_words, say_verdict,
};
use bx_layout::FormGrid;
use bx_library::{Dot, Library};
use bx_siqad::Design;
use bx_verify::{Verdict, VerifyFault, verify};
use std::alloc::Global;
use std::thread::Threads;

// How many workers check the certificate.
const WORKERS: u32 = 4;

/// Draws the design of the words. It ends as `extract` does where library or design is refused, and as `verify` does where
/// module or certificate is, or where they aren't right for the design.
pub fn run_draw<T: Threads + Sync, D: Desk>(
    threads: &T,
    alloc: Global,
    words: &[String],
    desk: &mut D,
) -> Status {
    match command_of(words) {
        Some(command) => draw(threads, alloc, &command, desk),
        None => refuse_words(desk, WordFault::Usage),
    }
}

// How a run ends where nothing was made of a file.
fn end_without<D: Desk>(why: NoInput, which: Which, desk: &mut D) -> Status {
    match why {
        NoInput::Fault(fault) => refuse(desk, fault),
        NoInput::Unread => Status::ReadFault(which),
        NoInput::NoMemory => Status::NoMemory,
    }
}

// Loads the library, and goes on where it is taken.
fn draw<T: Threads + Sync, D: Desk>(
    threads: &T,
    alloc: Global,
    command: &DrawCommand,
    desk: &mut D,
) -> Status {
    match load_library(alloc, command.lib, desk) {
        Ok(library) => draw_by(threads, alloc, command, &library, desk),
        Err(why) => end_without(why, Which::LibFile, desk),
    }
}

// Loads the design, and goes on where it is taken.
fn draw_by<T: Threads + Sync, D: Desk>(
    threads: &T,
    alloc: Global,
    command: &DrawCommand,
    library: &Library,
    desk: &mut D,
) -> Status {
    match load_design(alloc, command.design, desk) {
        Ok(design) => draw_design(threads, alloc, command, library, &design, desk),
        Err(why) => end_without(why, Which::DesignFile, desk),
    }
}

// Cuts the design, and draws its grid, with what a module and a certificate say of it where they are named.
fn draw_design<T: Threads + Sync, D: Desk>(
    threads: &T,
    alloc: Global,
    command: &DrawCommand,
    library: &Library,
    design: &Design,
    desk: &mut D,
) -> Status {
    let grid = match cut_design(alloc, library, design) {
        Ok(grid) => grid,
        Err(why) => return end_without(why, Which::DesignFile, desk),
    };
    match (command.net, command.cert) {
        (Some(net), Some(cert)) => {
            let view = View {
                library,
                design,
                grid: &grid,
                dots: command.dots,
            };
            draw_module(threads, alloc, net, cert, &view, desk)
        }
        _ => show(
            &grid,
            &no_labels(alloc),
            command.dots,
            library,
            design,
            desk,
        ),
    }
}

// What is drawn.
#[derive(Drop)]
struct View<'a> {
    library: &'a Library,
    design: &'a Design,
    grid: &'a FormGrid,
    dots: bool,
}

// Loads the module, and goes on where it is taken.
fn draw_module<T: Threads + Sync, D: Desk>(
    threads: &T,
    alloc: Global,
    net: &str,
    cert: &str,
    view: &View,
    desk: &mut D,
) -> Status {
    match load_module(alloc, net, desk) {
        Ok(source) => draw_judged(threads, alloc, &source, cert, view, desk),
        Err(why) => end_without(why, Which::NetFile, desk),
    }
}

// Loads the certificate, and goes on where it is taken.
fn draw_judged<T: Threads + Sync, D: Desk>(
    threads: &T,
    alloc: Global,
    source: &Module,
    name: &str,
    view: &View,
    desk: &mut D,
) -> Status {
    match load_cert(alloc, name, desk) {
        Ok(cert) => judge(threads, alloc, source, &cert, view, desk),
        Err(why) => end_without(why, Which::CertFile, desk),
    }
}

// Verifies all four, and draws where nothing is wrong with them.
fn judge<T: Threads + Sync, D: Desk>(
    threads: &T,
    alloc: Global,
    source: &Module,
    cert: &Cert,
    view: &View,
    desk: &mut D,
) -> Status {
    match verify(
        threads,
        alloc,
        &source.net,
        view.library,
        view.design,
        cert,
        WORKERS,
    ) {
        Ok(Verdict::Minimal(_)) => draw_named(alloc, source, cert, view, desk),
        Ok(verdict) => say_verdict(cert, verdict, desk),
        Err(VerifyFault::Map(_) | VerifyFault::NoMemory) => Status::NoMemory,
    }
}

// Draws the grid with its names.
fn draw_named<D: Desk>(
    alloc: Global,
    source: &Module,
    cert: &Cert,
    view: &View,
    desk: &mut D,
) -> Status {
    let made = match cert.last() {
        CertLast::Found(ratio, spots) => labels_of(alloc, source, *ratio, spots.as_slice()),
        _ => Ok(no_labels(alloc)),
    };
    match made {
        Ok(labels) => show(
            view.grid,
            &labels,
            view.dots,
            view.library,
            view.design,
            desk,
        ),
        Err(_) => Status::NoMemory,
    }
}

// Says the picture.
fn show<D: Desk>(
    grid: &FormGrid,
    labels: &Labels,
    dots: bool,
    library: &Library,
    design: &Design,
    desk: &mut D,
) -> Status {
    if dots {
        show_dots(
            grid,
            &labels.ports,
            &labels.places,
            library,
            design.dots(),
            desk,
        )
    } else {
        show_grid(grid, &labels.ports, &labels.places, desk)
    }
}

// Says the picture without dots.
fn show_grid<D: Desk>(grid: &FormGrid, ports: &[PortName], places: &[u32], desk: &mut D) -> Status
    ensures { EndsSaying (D.state desk.old) (D.state desk.new) Status.Done
        (picture_text grid.now (labelled ports.now) places.now) result }
{
    let mut piece = Piece::to_say();
    match draw_grid(grid, ports, places, &mut piece, desk) {
        Ok(()) => end_saying(piece, desk, Status::Done),
        Err(Failed) => Status::WriteFault(Which::Output),
    }
}

// Says the picture with dots.
fn show_dots<D: Desk>(
    grid: &FormGrid,
    ports: &[PortName],
    places: &[u32],
    library: &Library,
    dots: &[Dot],
    desk: &mut D,
) -> Status
    ensures { EndsSaying (D.state desk.old) (D.state desk.new) Status.Done
        (dotted_text library.now dots.now grid.now (labelled ports.now) places.now) result }
{
    let mut piece = Piece::to_say();
    match draw_dots(grid, ports, places, library, dots, &mut piece, desk) {
        Ok(()) => end_saying(piece, desk, Status::Done),
        Err(Failed) => Status::WriteFault(Which::Output),
    }
}
