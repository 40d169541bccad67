//! The report of a search: the module and its network, how the search ended, and the layout if one was found.
//! It prints what it is given; that a layout is sound and computes the module is for others to prove.
ghost use Rattle.std.specs.Prelude.{◌≡◌, length};
ghost use Rattle.bx_desk.specs.Desk.{CanPut};
ghost use Rattle.bx_desk.specs.Pieces.{target_of, PutsOut};
ghost use Rattle.bx_lines.specs.Lines.{ended, text_of};
ghost use Rattle.bx_says.specs.Reports.{found_line};
ghost use Rattle.bx_engine.specs.Said.{undecided_line, last_line, layout_lines, found_lines, search_text};
ghost use Rattle.bx_engine.specs.Steps.{HasPlaces};

use crate::load::Module;
use bx_cert::CertLast;
use bx_design::{LaidOut, Solution};
use bx_desk::{Desk, Failed, Piece};
use bx_grid::Ratio;
use bx_says::{Word, put_line, say_head, say_pins, say_rows};

/// Puts out the report of a search.
pub(crate) fn put_report<D: Desk>(
    source: &Module,
    solution: &Solution,
    piece: &mut Piece,
    desk: &mut D,
) -> Result<(), Failed>
    requires can { CanPut (target_of piece.old) (D.state desk.old) }
    requires places { HasPlaces source.now.mapped solution.now.found }
    ensures { PutsOut (D.state desk.old) (D.state desk.new) result piece.old piece.new
        (search_text source.now.net source.now.mapped solution.now.cert.last solution.now.found) }
{
    say_head(&source.net, &source.mapped, piece, desk)?;
    put_last(solution.cert.last(), piece, desk)?;
    put_found(source, &solution.found, piece, desk)
}

/// Puts out the line of how the search ended.
pub(crate) fn put_last<D: Desk>(
    last: &CertLast,
    piece: &mut Piece,
    desk: &mut D,
) -> Result<(), Failed>
    requires { CanPut (target_of piece.old) (D.state desk.old) }
    ensures { PutsOut (D.state desk.old) (D.state desk.new) result piece.old piece.new
        (ended (last_line last.now)) }
{
    match last {
        CertLast::Found(ratio, _) => put_ratio(*ratio, piece, desk),
        CertLast::Undecided(ratio, spent) => put_undecided(*ratio, *spent, piece, desk),
        CertLast::NoneWithin => put_line(b"none", &[], piece, desk),
    }
}

// Puts out the line of a ratio that was found.
fn put_ratio<D: Desk>(ratio: Ratio, piece: &mut Piece, desk: &mut D) -> Result<(), Failed>
    requires { CanPut (target_of piece.old) (D.state desk.old) }
    ensures { PutsOut (D.state desk.old) (D.state desk.new) result piece.old piece.new
        (ended (found_line ratio)) }
{
    let w = Word::Number(u64::from(ratio.w));
    let h = Word::Number(u64::from(ratio.h));
    put_line(b"found", &[w, h], piece, desk)
}

// Puts out the line of one that was left undecided, and how much was spent on it.
fn put_undecided<D: Desk>(
    ratio: Ratio,
    spent: u64,
    piece: &mut Piece,
    desk: &mut D,
) -> Result<(), Failed>
    requires { CanPut (target_of piece.old) (D.state desk.old) }
    ensures { PutsOut (D.state desk.old) (D.state desk.new) result piece.old piece.new
        (ended (undecided_line ratio spent)) }
{
    let w = Word::Number(u64::from(ratio.w));
    let h = Word::Number(u64::from(ratio.h));
    put_line(b"undecided", &[w, h, Word::Number(spent)], piece, desk)
}

// Puts out the layout, if one was found.
fn put_found<D: Desk>(
    source: &Module,
    found: &Option<LaidOut>,
    piece: &mut Piece,
    desk: &mut D,
) -> Result<(), Failed>
    requires can { CanPut (target_of piece.old) (D.state desk.old) }
    requires places { HasPlaces source.now.mapped found.now }
    ensures { PutsOut (D.state desk.old) (D.state desk.new) result piece.old piece.new
        (text_of (found_lines source.now.net source.now.mapped found.now)) }
{
    match found {
        Some(laid) => put_layout(source, laid, piece, desk),
        None => Ok(()),
    }
}

// Puts out the ports and the rows of a layout.
fn put_layout<D: Desk>(
    source: &Module,
    laid: &LaidOut,
    piece: &mut Piece,
    desk: &mut D,
) -> Result<(), Failed>
    requires can { CanPut (target_of piece.old) (D.state desk.old) }
    requires places { length laid.now.layout.places ≡ length source.now.mapped.nodes }
    ensures { PutsOut (D.state desk.old) (D.state desk.new) result piece.old piece.new
        (text_of (layout_lines source.now.net source.now.mapped laid.now)) }
{
    let ratio = laid.grid.ratio();
    let tiles = laid.layout.places.as_slice();
    say_pins(&source.net, &source.mapped, ratio, tiles, piece, desk)?;
    say_rows(&laid.grid, piece, desk)
}
