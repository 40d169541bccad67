//! What a token is, and what can be wrong with a text's tokens. Places are counted in bytes from 0.

use thiserror::Error;

/// The kind of a token.
#[derive(Clone, Copy)]
pub enum TokenKind {
    /// A letter or `_`, and letters, digits, `_` and `$`.
    Word,
    /// A `\` and the bytes behind it that show. The name it stands for is without the `\`.
    Escaped,
    /// Digits, and a base with its digits where these stand there.
    Number,
    /// One byte of punctuation, or `~^` or `^~`.
    Symbol,
}

/// A token: the bytes of the text from `start` up to `end`, and their kind.
#[derive(Clone, Copy)]
pub struct Token {
    /// The place of its first byte.
    pub start: u64,
    /// The place behind its last byte.
    pub end: u64,
    /// What it is.
    pub kind: TokenKind,
}

/// Why a text has no tokens: its first fault, with the place.
#[derive(Clone, Copy, Debug, Error)]
pub enum LexFault {
    /// No token begins with the byte at this place.
    #[error("no token begins at byte {0}")]
    BadByte(u64),
    /// The comment that begins at this place doesn't end.
    #[error("the comment at byte {0} doesn't end")]
    OpenComment(u64),
    /// The attribute that begins at this place doesn't end.
    #[error("the attribute at byte {0} doesn't end")]
    OpenAttribute(u64),
    /// Memory was refused.
    #[error("out of memory")]
    NoMemory,
}
