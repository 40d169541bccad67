//! Printing a text through a piece: bytes, numbers, words and lines, one behind the other. A printer
//! keeps a failure: nothing more is put out then, and `outcome` tells it in the end. So what prints a
//! text reads as the text does. Turned down: an answer of each call, as of a piece, which each caller
//! would hand on after each word. Which texts there are is left to the callers, and so is the end of
//! the piece.
ghost use Rattle.std.specs.Prelude.{◌≡◌, ◌∷◌, [], decimal, false};
ghost use Rattle.bx_desk.specs.Desk.{CanPut};
ghost use Rattle.bx_desk.specs.Pieces.{target_of};
ghost use Rattle.bx_desk.specs.Words.{word_text, joined_text, further_text, line_text};

use crate::{Desk, Failed, Piece};

/// A word of a line.
#[derive(Clone, Copy)]
pub enum Word<'a> {
    /// These bytes, whatever they are.
    Text(&'a [u8]),
    /// A number, in decimal without leading zeros.
    Number(u64),
}

/// A piece, and the desk that it is handed on to. Takes no memory.
#[derive(Drop)]
pub struct Printer<'a, D: Desk> {
    piece: &'a mut Piece,
    desk: &'a mut D,
    has_failed: bool,
    ghost can: { CanPut (target_of piece.now) (D.state desk.now) },
}

impl<'a, D: Desk> Printer<'a, D> {
    ghost use Rattle.bx_desk.specs.Printing.{Prints, outcome_of};

    /// A printer that puts out behind what the piece holds.
    pub fn new(piece: &'a mut Piece, desk: &'a mut D) -> Self
        requires { CanPut (target_of piece.old) (D.state desk.old) }
        ensures piece { result.piece.now ≡ piece.old }
        ensures same_piece { result.piece.ghost_name ≡ piece.entry.ghost_name }
        ensures desk { result.desk.now ≡ desk.old }
        ensures same_desk { result.desk.ghost_name ≡ desk.entry.ghost_name }
        ensures fresh { result.has_failed ≡ false }
    {
        Printer {
            piece,
            desk,
            has_failed: false,
        }
    }

    /// Puts these bytes out.
    pub fn bytes(&mut self, bytes: &[u8])
        ensures { Prints self.old self.new bytes.now }
    {
        if self.has_failed {
            return;
        }
        self.has_failed = self.piece.put(bytes, self.desk).is_err();
    }

    /// Puts out the digits of a number, without leading zeros.
    pub fn number(&mut self, n: u64)
        ensures { Prints self.old self.new (decimal n) }
    {
        let mut digits = itoa::Buffer::new();
        self.bytes(digits.format(n).as_bytes());
    }

    /// Puts a word out.
    pub fn word(&mut self, word: Word)
        ensures { Prints self.old self.new (word_text word.entry) }
    {
        match word {
            Word::Text(bytes) => self.bytes(bytes),
            Word::Number(n) => self.number(n),
        }
    }

    /// Puts words out, one right behind the other.
    pub fn words(&mut self, words: &[Word])
        ensures { Prints self.old self.new (joined_text words.now) }
    {
        for word in words {
            self.word(*word);
        }
    }

    /// Puts out a space and a word.
    pub fn further(&mut self, word: Word)
        ensures { Prints self.old self.new (32 ∷ word_text word.entry) }
    {
        self.bytes(b" ");
        self.word(word);
    }

    /// Puts words out, each behind a space.
    pub fn further_words(&mut self, words: &[Word])
        ensures { Prints self.old self.new (further_text words.now) }
    {
        for word in words {
            self.further(*word);
        }
    }

    /// Ends a line.
    pub fn end_line(&mut self)
        ensures { Prints self.old self.new (10 ∷ []) }
    {
        self.bytes(b"\n");
    }

    /// Puts out a line: a word, and further words, each behind a space.
    pub fn line(&mut self, first: &[u8], further: &[Word])
        ensures { Prints self.old self.new (line_text first.now further.now) }
    {
        self.bytes(first);
        self.further_words(further);
        self.end_line();
    }

    /// Whether all was put out.
    ///
    /// # Errors
    ///
    /// `Failed` where the desk could not take all of a full buffer.
    pub fn outcome(&self) -> Result<(), Failed>
        ensures { result ≡ outcome_of self.now.has_failed }
    {
        if self.has_failed { Err(Failed) } else { Ok(()) }
    }
}
