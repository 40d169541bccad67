//! The terminals of the grammar: what a token of a text is to it. A keyword is the word alone, a name
//! its bytes, and the two spellings of the operator xnor are one symbol. That a word is reserved, and
//! which, is for the table of reserved words to say.

use bx_logic::{Name, Op};

/// A word or a symbol that the grammar has in this spelling alone.
#[derive(Clone, Copy, PartialEq, Eq)]
pub enum Mark {
    Module,
    EndModule,
    Input,
    Output,
    Wire,
    Assign,
    Open,
    Close,
    Comma,
    Semicolon,
    Equals,
    Tilde,
    Ampersand,
    Caret,
    /// `~^` or `^~`.
    TildeCaret,
    Bar,
}

/// A token as the grammar sees it.
#[derive(Drop)]
pub enum Terminal {
    Fixed(Mark),
    /// The keyword of a gate.
    GateWord(Op),
    /// A word that isn't reserved, or an escaped word.
    Name(Name),
    /// `1'`, the letter of a base, and `0` or `1`.
    Bit(bool),
    /// Any other number, which stands in no text of the grammar.
    Number,
    /// A word that is reserved and refused, which stands in none either.
    Reserved,
    /// A symbol that stands in none, by its first byte.
    Symbol(u8),
}
