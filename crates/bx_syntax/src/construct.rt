//! The constructs that the profile doesn't take, told by the token at which a reader stops. A name is
//! one whatever its bytes are, so nothing is copied.
ghost use Rattle.std.specs.Prelude.{◌≡◌, ◌<◌, ◌≤◌, ℕ, List, length};
ghost use Rattle.bx_syntax.specs.Words.{word_terminal};
ghost use Rattle.bx_syntax.specs.Terminals.{terminal_of};
ghost use Rattle.bx_syntax.specs.Faults.{symbol_construct};
ghost use Rattle.bx_syntax.specs.Constructs.{construct_of};

use crate::fault::Construct;
use crate::reserved::RESERVED;
use crate::stop::Wanted;
use crate::terminal::{Mark, Terminal};
use crate::terminals::{number_terminal, place_of, symbol_terminal, word_of};
use bx_lex::{Token, TokenKind};

// The construct that a token stands for, where something else was wanted.
#[tactic(auto, unfolding(crate::specs::Terminals::terminal_of))]
pub(crate) fn construct(text: &[u8], token: Token, wanted: Wanted) -> Option<Construct>
    requires order { token.start < token.end }
    requires inside { token.end ≤ length text.now }
    ensures { result ≡ construct_of wanted (terminal_of text.now token) }
{
    let bytes = &text[token.start as usize..token.end as usize];
    match token.kind {
        TokenKind::Word => word_construct(bytes, wanted),
        TokenKind::Escaped => name_construct(wanted),
        TokenKind::Number => terminal_construct(&number_terminal(bytes), wanted),
        TokenKind::Symbol => terminal_construct(&symbol_terminal(bytes), wanted),
    }
}

fn word_construct(bytes: &[u8], wanted: Wanted) -> Option<Construct>
    ensures { result ≡ construct_of wanted (word_terminal bytes.now) }
{
    match place_of(bytes, &RESERVED) {
        Some(place) => terminal_construct(&word_of(place), wanted),
        None => name_construct(wanted),
    }
}

// A refused word and a symbol are a construct anywhere, a name where an item may begin, a number where a
// primary may, and `module` where the text should end.
fn terminal_construct(terminal: &Terminal, wanted: Wanted) -> Option<Construct>
    ensures { result ≡ construct_of wanted terminal.now }
{
    match terminal {
        Terminal::Symbol(byte) => symbol_construct(*byte),
        Terminal::Reserved => Some(Construct::Reserved),
        Terminal::Name(_) => name_construct(wanted),
        Terminal::Number => (wanted == Wanted::Primary).then_some(Construct::Number),
        Terminal::Fixed(Mark::Module) => (wanted == Wanted::End).then_some(Construct::Second),
        Terminal::Fixed(_) | Terminal::GateWord(_) | Terminal::Bit(_) => None,
    }
}

fn name_construct(wanted: Wanted) -> Option<Construct>
    ensures { (name : List ℕ) → result ≡ construct_of wanted (Terminal.Name name) }
{
    match wanted {
        Wanted::Item => Some(Construct::Instance),
        Wanted::Primary | Wanted::End | Wanted::Other => None,
    }
}

fn symbol_construct(byte: u8) -> Option<Construct>
    ensures { result ≡ symbol_construct byte }
{
    match byte {
        b'[' => Some(Construct::Vector),
        b'?' => Some(Construct::Ternary),
        b'#' => Some(Construct::Delay),
        b'{' => Some(Construct::Concat),
        b'+' | b'-' | b'*' | b'/' | b'%' | b'<' | b'>' | b'!' => Some(Construct::Operator),
        b'`' => Some(Construct::Directive),
        _ => None,
    }
}
