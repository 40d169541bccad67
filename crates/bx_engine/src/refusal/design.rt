//! The lines of the refusals of a design and of a certificate: the first bad line of a text, or the dot or the tile that
//! is in the way of cutting a design. It promises the text that the definitions name for a fault.
ghost use Rattle.std.specs.Prelude.{◌≡◌, [], ◌∷◌, codes, decimal};
ghost use Rattle.bx_desk.specs.Desk.{CanPut};
ghost use Rattle.bx_desk.specs.Pieces.{target_of, PutsOut};
ghost use Rattle.bx_grid.specs.Tiles.{x_of, y_of};
ghost use Rattle.bx_says.specs.Texts.{spaced};
ghost use Rattle.bx_engine.specs.Said.{refusal_text, design_fault_text, cert_fault_text, cut_fault_text};

use crate::refusal::{put_memory, put_refusal};
use bx_cert::CertFault;
use bx_desk::{Desk, Failed, Piece};
use bx_dots::CutFault;
use bx_grid::{Ratio, column_and_row};
use bx_library::Dot;
use bx_says::Word;
use bx_siqad::DesignFault;

/// Puts out the line of the refusal of a text that is no design.
pub(crate) fn put_design_fault<D: Desk>(
    fault: DesignFault,
    piece: &mut Piece,
    desk: &mut D,
) -> Result<(), Failed>
    requires { CanPut (target_of piece.old) (D.state desk.old) }
    ensures { PutsOut (D.state desk.old) (D.state desk.new) result piece.old piece.new
        (refusal_text (design_fault_text fault)) }
{
    match fault {
        DesignFault::BadDesign(line) => {
            put_refusal(b"bad design", &[Word::Number(line)], piece, desk)
        }
        DesignFault::NoMemory => put_memory(piece, desk),
    }
}

/// Puts out the line of the refusal of a text that is no certificate.
pub(crate) fn put_cert_fault<D: Desk>(
    fault: CertFault,
    piece: &mut Piece,
    desk: &mut D,
) -> Result<(), Failed>
    requires { CanPut (target_of piece.old) (D.state desk.old) }
    ensures { PutsOut (D.state desk.old) (D.state desk.new) result piece.old piece.new
        (refusal_text (cert_fault_text fault)) }
{
    match fault {
        CertFault::BadCert(line) => put_refusal(b"bad cert", &[Word::Number(line)], piece, desk),
        CertFault::NoMemory => put_memory(piece, desk),
    }
}

/// Puts out the line of the refusal of a design of this ratio, whose dots can't be cut.
pub(crate) fn put_cut_fault<D: Desk>(
    fault: CutFault,
    ratio: Ratio,
    piece: &mut Piece,
    desk: &mut D,
) -> Result<(), Failed>
    requires { CanPut (target_of piece.old) (D.state desk.old) }
    ensures { PutsOut (D.state desk.old) (D.state desk.new) result piece.old piece.new
        (refusal_text (cut_fault_text ratio fault)) }
{
    match fault {
        CutFault::StrayDot(dot) => put_stray(dot, piece, desk),
        CutFault::StrangeTile(tile) => put_strange(ratio, tile, piece, desk),
        CutFault::NoMemory => put_memory(piece, desk),
    }
}

// Puts out the line of a refusal that names a dot by where it stands.
fn put_stray<D: Desk>(dot: Dot, piece: &mut Piece, desk: &mut D) -> Result<(), Failed>
    requires { CanPut (target_of piece.old) (D.state desk.old) }
    ensures { PutsOut (D.state desk.old) (D.state desk.new) result piece.old piece.new
        (refusal_text (spaced (codes "stray") (decimal dot.n ∷ decimal dot.m ∷ decimal dot.l ∷ []))) }
{
    let words = [
        Word::Number(u64::from(dot.n)),
        Word::Number(u64::from(dot.m)),
        Word::Number(u64::from(dot.l)),
    ];
    put_refusal(b"stray", &words, piece, desk)
}

// Puts out the line of a refusal that names a tile by its column and its row.
fn put_strange<D: Desk>(
    ratio: Ratio,
    tile: u32,
    piece: &mut Piece,
    desk: &mut D,
) -> Result<(), Failed>
    requires { CanPut (target_of piece.old) (D.state desk.old) }
    ensures { PutsOut (D.state desk.old) (D.state desk.new) result piece.old piece.new
        (refusal_text (spaced (codes "strange") (decimal (x_of ratio tile) ∷ decimal (y_of ratio tile) ∷ []))) }
{
    let (column, row) = place_of(ratio, tile);
    let words = [
        Word::Number(u64::from(column)),
        Word::Number(u64::from(row)),
    ];
    put_refusal(b"strange", &words, piece, desk)
}

// The column and the row of a tile. A grid without columns, which no design has, has each tile in its first row.
fn place_of(ratio: Ratio, tile: u32) -> (u32, u32)
    ensures column { result.0 ≡ x_of ratio tile }
    ensures row { result.1 ≡ y_of ratio tile }
{
    if ratio.w == 0 {
        (tile, 0)
    } else {
        column_and_row(ratio, tile)
    }
}
