//! The terminals of a text: each of its tokens as the grammar sees it. Which words are reserved, and
//! what those are that the grammar uses, is the table's to say.
ghost use Rattle.std.specs.Prelude.{◌≡◌, ◌<◌, ◌≤◌, length, map, position, slice_get, slice_range, IfOk, IfErr};
ghost use Rattle.std.specs.Str.{bytes_eq};
ghost use Rattle.bx_syntax.specs.Words.{word_terminal};
ghost use Rattle.bx_syntax.specs.Tables.{word_of};
ghost use Rattle.bx_syntax.specs.Terminals.{one_symbol, symbol_terminal, number_terminal, terminal_of};

use crate::reserved::{RESERVED, USED, Word};
use crate::stop::Stop;
use crate::terminal::{Mark, Terminal};
use bx_lex::{Token, TokenKind, Tokens};
use bx_logic::Name;
use std::alloc::Global;
use std::collections::VecDeque;

// The letters of a base.
const BASES: &[u8] = b"bBoOdDhH";

pub(crate) fn terminals(
    alloc: Global,
    text: &[u8],
    tokens: &Tokens,
) -> Result<VecDeque<Terminal>, Stop>
    requires { tokens.now.end ≡ length text.now }
    ensures found { IfOk result (λ v. v.items ≡ map (terminal_of text.now) tokens.now.tokens) }
    ensures failed { IfErr result (λ e. e ≡ Stop.NoMemory) }
{
    let mut terminals = VecDeque::new(alloc);
    for k in 0..tokens.len() {
        let terminal = terminal(alloc, text, tokens.token(k))?;
        terminals.push_back(terminal)?;
    }
    Ok(terminals)
}

#[tactic(auto, unfolding(crate::specs::Terminals::terminal_of))]
fn terminal(alloc: Global, text: &[u8], token: Token) -> Result<Terminal, Stop>
    requires order { token.start < token.end }
    requires inside { token.end ≤ length text.now }
    ensures found { IfOk result (λ t. t ≡ terminal_of text.now token) }
    ensures failed { IfErr result (λ e. e ≡ Stop.NoMemory) }
{
    let bytes = &text[token.start as usize..token.end as usize];
    match token.kind {
        TokenKind::Word => word_terminal(alloc, bytes),
        TokenKind::Escaped => name_terminal(alloc, &bytes[1..]),
        TokenKind::Number => Ok(number_terminal(bytes)),
        TokenKind::Symbol => Ok(symbol_terminal(bytes)),
    }
}

fn word_terminal(alloc: Global, bytes: &[u8]) -> Result<Terminal, Stop>
    ensures found { IfOk result (λ t. t ≡ word_terminal bytes.now) }
    ensures failed { IfErr result (λ e. e ≡ Stop.NoMemory) }
{
    match place_of(bytes, &RESERVED) {
        Some(place) => Ok(word_of(place)),
        None => name_terminal(alloc, bytes),
    }
}

// The place of a word in the table of reserved words.
pub(crate) fn place_of(word: &[u8], words: &[&str]) -> Option<usize>
    ensures { result ≡ position (λ w. bytes_eq word.now w.now) words.now }
{
    words.iter().position(|w| word == w.as_bytes())
}

// The terminal of the reserved word at a place of the table.
pub(crate) fn word_of(place: usize) -> Terminal
    ensures { result ≡ word_of (slice_get USED place) }
{
    match USED.get(place) {
        Some(Word::Mark(mark)) => Terminal::Fixed(*mark),
        Some(Word::Gate(op)) => Terminal::GateWord(*op),
        None => Terminal::Reserved,
    }
}

fn name_terminal(alloc: Global, bytes: &[u8]) -> Result<Terminal, Stop>
    ensures found { IfOk result (λ t. t ≡ Terminal.Name bytes.now) }
    ensures failed { IfErr result (λ e. e ≡ Stop.NoMemory) }
{
    let bytes = bytes.to_vec(alloc)?;
    Ok(Terminal::Name(Name::new(bytes)))
}

pub(crate) fn number_terminal(bytes: &[u8]) -> Terminal
    ensures { result ≡ number_terminal bytes.now }
{
    match bytes {
        [b'1', b'\'', base, b'0'] if BASES.contains(base) => Terminal::Bit(false),
        [b'1', b'\'', base, b'1'] if BASES.contains(base) => Terminal::Bit(true),
        _ => Terminal::Number,
    }
}

pub(crate) fn symbol_terminal(bytes: &[u8]) -> Terminal
    ensures { result ≡ symbol_terminal bytes.now }
{
    match bytes {
        [byte] => match one_symbol(*byte) {
            Some(mark) => Terminal::Fixed(mark),
            None => Terminal::Symbol(*byte),
        },
        [b'~', b'^'] | [b'^', b'~'] => Terminal::Fixed(Mark::TildeCaret),
        [first, ..] => Terminal::Symbol(*first),
        [] => Terminal::Symbol(0),
    }
}

fn one_symbol(byte: u8) -> Option<Mark>
    ensures { result ≡ one_symbol byte }
{
    match byte {
        b'(' => Some(Mark::Open),
        b')' => Some(Mark::Close),
        b',' => Some(Mark::Comma),
        b';' => Some(Mark::Semicolon),
        b'=' => Some(Mark::Equals),
        b'~' => Some(Mark::Tilde),
        b'&' => Some(Mark::Ampersand),
        b'^' => Some(Mark::Caret),
        b'|' => Some(Mark::Bar),
        _ => None,
    }
}
