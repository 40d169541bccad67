//! The rules, one a function: what the first rule that fits takes of a text. Each function sees the
//! rest of the text alone, as a list of bytes. Where the text stands is only passed on to its faults.
ghost use Rattle.std.specs.Prelude.{◌≡◌, ◌<◌, ◌≤◌, length, IfSome};
ghost use Rattle.std.specs.List.{prefix_len};
ghost use Rattle.bx_lex.specs.Bytes.{is_of};
ghost use Rattle.bx_lex.specs.Rules.{gap, token_of, through, gap_to, base_len, number_len, escape_at, front};

use crate::bytes::{self, Class};
use crate::token::{LexFault, TokenKind};

// A front of a text: how many bytes it has, and which kind of token it is, or none where it stands
// between tokens.
#[derive(Clone, Copy)]
pub(crate) struct Lexeme {
    pub(crate) len: usize,
    pub(crate) kind: Option<TokenKind>,
}

// What the first rule that fits takes of the text that stands at this place.
//
// # Errors
//
// The fault at the place, where no rule fits or a comment or an attribute doesn't end.
#[tactic(auto, unfolding(crate::specs::Rules::front))]
pub(crate) fn front_of(place: u64, text: &[u8]) -> Result<Lexeme, LexFault>
    requires { 0 < length text.now }
    ensures { result ≡ front place text.now }
{
    let first = text[0];
    if first.is_ascii_whitespace() {
        Ok(gap(1))
    } else if text.starts_with(b"//") {
        Ok(gap(run_len(Class::Line, text)))
    } else if text.starts_with(b"/*") {
        gap_to(b"*/", LexFault::OpenComment(place), text)
    } else if text.starts_with(b"(*)") {
        Ok(token_of(TokenKind::Symbol, 1))
    } else if text.starts_with(b"(*") {
        gap_to(b"*)", LexFault::OpenAttribute(place), text)
    } else if bytes::is_word_start(first) {
        Ok(token_of(TokenKind::Word, run_len(Class::Word, text)))
    } else if first == b'\\' {
        escape_at(place, text)
    } else if first.is_ascii_digit() {
        Ok(token_of(TokenKind::Number, number_len(text)))
    } else if text.starts_with(b"~^") || text.starts_with(b"^~") {
        Ok(token_of(TokenKind::Symbol, 2))
    } else if bytes::is_symbol(first) {
        Ok(token_of(TokenKind::Symbol, 1))
    } else {
        Err(LexFault::BadByte(place))
    }
}

// A comment or an attribute: the two bytes that open it, and all up to the end of the first `close`
// behind them.
fn gap_to(close: &[u8; 2], fault: LexFault, text: &[u8]) -> Result<Lexeme, LexFault>
    requires { 2 ≤ length text.now }
    ensures { result ≡ gap_to close.now fault text.now }
{
    match through(close, &text[2..]) {
        Some(len) => Ok(gap(2 + len)),
        None => Err(fault),
    }
}

// How many bytes there are up to the end of the first `close`.
fn through(close: &[u8; 2], text: &[u8]) -> Option<usize>
    ensures value { result ≡ through close.now text.now }
    ensures within { IfSome result (λ n. n ≤ length text.now) }
{
    for at in 0..text.len() {
        if text[at..].starts_with(close) {
            return Some(at + close.len());
        }
    }
    None
}

// A `\`, and the longest run of bytes that show.
fn escape_at(place: u64, text: &[u8]) -> Result<Lexeme, LexFault>
    requires { 0 < length text.now }
    ensures { result ≡ escape_at place text.now }
{
    let run = run_len(Class::Shown, &text[1..]);
    if run == 0 {
        return Err(LexFault::BadByte(place));
    }
    Ok(token_of(TokenKind::Escaped, 1 + run))
}

fn number_len(text: &[u8]) -> usize
    ensures { result ≡ number_len text.now }
{
    let digits = run_len(Class::Digit, text);
    digits + base_len(&text[digits..])
}

// The length of a base and its digits, where they stand there.
fn base_len(text: &[u8]) -> usize
    ensures value { result ≡ base_len text.now }
    ensures within { result ≤ length text.now }
{
    if text.len() < 2 || text[0] != b'\'' || !bytes::is_base(text[1]) {
        return 0;
    }
    2 + run_len(Class::Based, &text[2..])
}

// How long the run of a class is with which a text begins.
fn run_len(class: Class, text: &[u8]) -> usize
    ensures value { result ≡ prefix_len (is_of class) text.now }
    ensures within { result ≤ length text.now }
{
    text.iter().take_while(|byte| class.has(**byte)).count()
}

fn gap(len: usize) -> Lexeme
    ensures { result ≡ gap len }
{
    Lexeme { len, kind: None }
}

fn token_of(kind: TokenKind, len: usize) -> Lexeme
    ensures { result ≡ token_of kind len }
{
    Lexeme {
        len,
        kind: Some(kind),
    }
}
