//! Words and lines through a piece, for those who put out a line or two and have no printer of their own.
//! Which lines there are is left to the callers.
ghost use Rattle.std.specs.Prelude.{◌++◌, [], ◌∷◌, map};
ghost use Rattle.bx_desk.specs.Desk.{CanPut};
ghost use Rattle.bx_desk.specs.Pieces.{target_of, PutsOut};
ghost use Rattle.bx_desk.specs.Printing.{Prints};
ghost use Rattle.bx_desk.specs.Words.{word_text, further_text};
ghost use Rattle.bx_says.specs.Texts.{spaced};

use bx_desk::{Desk, Failed, Piece, Printer, Word};

/// Puts out a word.
///
/// # Errors
///
/// `Failed` only where the desk failed, and its count of such failures rose.
pub fn put_word<D: Desk>(word: Word, piece: &mut Piece, desk: &mut D) -> Result<(), Failed>
    requires { CanPut (target_of piece.old) (D.state desk.old) }
    ensures { PutsOut (D.state desk.old) (D.state desk.new) result piece.old piece.new
        (word_text word.entry) }
{
    let mut printer = Printer::new(piece, desk);
    printer.word(word);
    printer.outcome()
}

/// Puts out a space and a word.
///
/// # Errors
///
/// Those of `put_word`.
pub fn put_spaced<D: Desk>(word: Word, piece: &mut Piece, desk: &mut D) -> Result<(), Failed>
    requires { CanPut (target_of piece.old) (D.state desk.old) }
    ensures { PutsOut (D.state desk.old) (D.state desk.new) result piece.old piece.new
        (32 ∷ word_text word.entry) }
{
    let mut printer = Printer::new(piece, desk);
    printer.further(word);
    printer.outcome()
}

/// Puts out words, each behind a space.
///
/// # Errors
///
/// Those of `put_word`.
pub fn put_words<D: Desk>(words: &[Word], piece: &mut Piece, desk: &mut D) -> Result<(), Failed>
    requires { CanPut (target_of piece.old) (D.state desk.old) }
    ensures { PutsOut (D.state desk.old) (D.state desk.new) result piece.old piece.new
        (further_text words.now) }
{
    let mut printer = Printer::new(piece, desk);
    printer.further_words(words);
    printer.outcome()
}

/// Puts out a line: a word, and further words, each behind a space.
///
/// # Errors
///
/// Those of `put_word`.
pub fn put_line<D: Desk>(
    first: &[u8],
    further: &[Word],
    piece: &mut Piece,
    desk: &mut D,
) -> Result<(), Failed>
    requires { CanPut (target_of piece.old) (D.state desk.old) }
    ensures { PutsOut (D.state desk.old) (D.state desk.new) result piece.old piece.new
        (spaced first.now (map word_text further.now) ++ 10 ∷ []) }
{
    let mut printer = Printer::new(piece, desk);
    print_line(first, further, &mut printer);
    printer.outcome()
}

// Likewise, through a printer.
fn print_line<D: Desk>(first: &[u8], further: &[Word], printer: &mut Printer<D>)
    ensures { Prints printer.old printer.new
        (spaced first.now (map word_text further.now) ++ 10 ∷ []) }
{
    printer.line(first, further);
}
