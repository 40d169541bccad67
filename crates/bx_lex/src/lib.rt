//! The tokens of a text with their places, or the first fault of the text.
//!
//! The rules are a profile of the lexical conventions of IEEE 1364-2005. A place is counted in bytes
//! from 0. At each place the first rule that fits applies:
//!
//! 1. A space, tab, line feed, carriage return or form feed is skipped.
//! 2. `//` skips up to the next line feed or the end of the text.
//! 3. `/*` skips up to the end of the first `*/` behind it. Where there is none, the comment is open.
//! 4. `(*)` is three symbols.
//! 5. `(*` skips up to the end of the first `*)` behind it. Where there is none, the attribute is open.
//! 6. A letter or `_` begins a word, which is the longest run of letters, digits, `_` and `$`.
//! 7. `\` begins an escaped word, which is the longest run of bytes 33 to 126 behind it. Where that run
//!    is empty, the `\` is a bad byte.
//! 8. A digit begins a number: the longest run of digits and, where these stand there, a `'`, one of
//!    `bBoOdDhH`, and the longest run of letters, digits and `_`.
//! 9. `~^` and `^~` are one symbol each.
//! 10. Any of ``(),;=~&^|[]{}#@?:.+-*/%<>!'"$` `` is a symbol.
//! 11. Any other byte is bad.
//!
//! What closes a comment or an attribute stands behind the two bytes that open it: `/*/` is open.
//!
//! The profile differs from the standard in this. Numbers are cut and not read, a base may have no
//! digits, and `_` ends the digits before a base. A `"` is a symbol, so strings aren't read. The grave
//! accent of a directive is a symbol, and so is each byte of an operator but for `~^` and `^~`. Comments
//! don't nest, as in the standard, and attributes are skipped like comments.
//!
//! `read_tokens` promises what the text reads as by these rules: all its tokens, or its first fault with
//! the exact place, unless memory runs out. Keywords and the grammar are left to the crates above.
#![tactic(auto)]

mod bytes;
pub mod laws;
mod read;
mod rules;
mod token;
mod tokens;

pub use read::read_tokens;
pub use token::{LexFault, Token, TokenKind};
pub use tokens::Tokens;
