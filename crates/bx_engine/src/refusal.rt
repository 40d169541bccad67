//! The line of a refusal: what is wrong, in words, places and names. It promises the text that the
//! definitions name for a fault; which fault an input has is left to its readers.
ghost use Rattle.std.specs.Prelude.{◌≡◌, map, [], ◌∷◌, codes, decimal};
ghost use Rattle.bx_desk.specs.Desk.{CanPut};
ghost use Rattle.bx_desk.specs.Pieces.{target_of, PutsOut};
ghost use Rattle.bx_says.specs.Texts.{spaced};
ghost use Rattle.bx_desk.specs.Words.{word_text};
ghost use Rattle.bx_words.specs.Options.{option_name};
ghost use Rattle.bx_engine.specs.Said.{refusal_text, input_fault_text, word_fault_text, memory_text, which_text};
ghost use Rattle.bx_engine.specs.Said.{lex_fault_text, read_fault_text, net_fault_text, construct_text};

mod design;
mod library;

use crate::status::{InputFault, Which};
use bx_desk::{Desk, Failed, Piece};
use bx_lex::LexFault;
use bx_logic::Name;
use bx_says::{Word, put_spaced, put_word, put_words};
use bx_verilog::{Construct, NetFault, ReadFault};
use bx_words::{Opt, WordFault};
use design::{put_cert_fault, put_cut_fault, put_design_fault};
use library::put_library_fault;

/// Puts out the line of a refusal, which names these words.
pub(crate) fn put_refusal<D: Desk>(
    first: &[u8],
    further: &[Word],
    piece: &mut Piece,
    desk: &mut D,
) -> Result<(), Failed>
    requires { CanPut (target_of piece.old) (D.state desk.old) }
    ensures { PutsOut (D.state desk.old) (D.state desk.new) result piece.old piece.new
        (refusal_text (spaced first.now (map word_text further.now))) }
{
    put_word(Word::Text(b"refused"), piece, desk)?;
    put_spaced(Word::Text(first), piece, desk)?;
    put_words(further, piece, desk)?;
    put_word(Word::Text(b"\n"), piece, desk)
}

/// Puts out the line of the refusal of words.
pub(crate) fn put_word_fault<D: Desk>(
    fault: WordFault,
    piece: &mut Piece,
    desk: &mut D,
) -> Result<(), Failed>
    requires { CanPut (target_of piece.old) (D.state desk.old) }
    ensures { PutsOut (D.state desk.old) (D.state desk.new) result piece.old piece.new
        (refusal_text (word_fault_text fault)) }
{
    match fault {
        WordFault::Command => put_refusal(b"words command", &[], piece, desk),
        WordFault::Usage => put_refusal(b"words usage", &[], piece, desk),
        WordFault::Same => put_refusal(b"words same", &[], piece, desk),
        WordFault::Number(option) => put_option(b"words number", option, piece, desk),
        WordFault::Range(option) => put_option(b"words range", option, piece, desk),
        WordFault::Work(work) => { put_refusal(b"words work", &[Word::Number(work)], piece, desk) }
    }
}

// Puts out the line of a refusal that names an option.
fn put_option<D: Desk>(
    fault: &[u8],
    option: Opt,
    piece: &mut Piece,
    desk: &mut D,
) -> Result<(), Failed>
    requires { CanPut (target_of piece.old) (D.state desk.old) }
    ensures { PutsOut (D.state desk.old) (D.state desk.new) result piece.old piece.new
        (refusal_text (spaced fault.now (option_name option ∷ []))) }
{
    put_refusal(fault, &[Word::Text(option.name().as_bytes())], piece, desk)
}

/// Puts out the line of the refusal of an input.
pub(crate) fn put_fault<D: Desk>(
    fault: &InputFault,
    piece: &mut Piece,
    desk: &mut D,
) -> Result<(), Failed>
    requires { CanPut (target_of piece.old) (D.state desk.old) }
    ensures { PutsOut (D.state desk.old) (D.state desk.new) result piece.old piece.new
        (refusal_text (input_fault_text fault.now)) }
{
    match fault {
        InputFault::TooLong(which) => {
            put_refusal(b"long", &[Word::Text(which_word(*which))], piece, desk)
        }
        InputFault::Lex(fault) => put_lex_fault(*fault, piece, desk),
        InputFault::Read(fault) => put_read_fault(*fault, piece, desk),
        InputFault::Net(fault) => put_net_fault(fault, piece, desk),
        InputFault::Constant(name) => put_named(b"constant", name, piece, desk),
        InputFault::Nodes(count) => put_refusal(b"nodes", &[Word::Number(*count)], piece, desk),
        InputFault::Library(fault) => put_library_fault(fault, piece, desk),
        InputFault::Design(fault) => put_design_fault(*fault, piece, desk),
        InputFault::Cut(fault, ratio) => put_cut_fault(*fault, *ratio, piece, desk),
        InputFault::Cert(fault) => put_cert_fault(*fault, piece, desk),
    }
}

// The file or output, as a word.
fn which_word(which: Which) -> &'static [u8]
    ensures { result.now ≡ which_text which }
{
    match which {
        Which::NetFile => b"net",
        Which::LibFile => b"lib",
        Which::DesignFile => b"design",
        Which::CertFile => b"cert",
        // This never comes: what is said isn't read.
        Which::Output => b"output",
    }
}

// Puts out the line of the refusal of a text that has no tokens.
fn put_lex_fault<D: Desk>(fault: LexFault, piece: &mut Piece, desk: &mut D) -> Result<(), Failed>
    requires { CanPut (target_of piece.old) (D.state desk.old) }
    ensures { PutsOut (D.state desk.old) (D.state desk.new) result piece.old piece.new
        (refusal_text (lex_fault_text fault)) }
{
    match fault {
        LexFault::BadByte(place) => put_lex_place(b"byte", place, piece, desk),
        LexFault::OpenComment(place) => put_lex_place(b"comment", place, piece, desk),
        LexFault::OpenAttribute(place) => put_lex_place(b"attribute", place, piece, desk),
        LexFault::NoMemory => put_memory(piece, desk),
    }
}

// Puts out the line of the refusal of a text for what stands at a place.
fn put_lex_place<D: Desk>(
    what: &[u8],
    place: u64,
    piece: &mut Piece,
    desk: &mut D,
) -> Result<(), Failed>
    requires { CanPut (target_of piece.old) (D.state desk.old) }
    ensures { PutsOut (D.state desk.old) (D.state desk.new) result piece.old piece.new
        (refusal_text (spaced (codes "lex") (what.now ∷ decimal place ∷ []))) }
{
    put_refusal(
        b"lex",
        &[Word::Text(what), Word::Number(place)],
        piece,
        desk,
    )
}

// Puts out the line of the refusal of tokens that are no module.
fn put_read_fault<D: Desk>(fault: ReadFault, piece: &mut Piece, desk: &mut D) -> Result<(), Failed>
    requires { CanPut (target_of piece.old) (D.state desk.old) }
    ensures { PutsOut (D.state desk.old) (D.state desk.new) result piece.old piece.new
        (refusal_text (read_fault_text fault)) }
{
    match fault {
        ReadFault::Syntax(place) => put_refusal(b"syntax", &[Word::Number(place)], piece, desk),
        ReadFault::NotTaken(place, construct) => {
            let word = Word::Text(construct_word(construct));
            put_refusal(b"not taken", &[Word::Number(place), word], piece, desk)
        }
        ReadFault::TooDeep(place) => put_refusal(b"deep", &[Word::Number(place)], piece, desk),
        ReadFault::NoMemory => put_memory(piece, desk),
    }
}

// A construct that isn't taken, as a word.
fn construct_word(construct: Construct) -> &'static [u8]
    ensures { result.now ≡ construct_text construct }
{
    match construct {
        Construct::Vector => b"vector",
        Construct::Ternary => b"ternary",
        Construct::Delay => b"delay",
        Construct::Concat => b"concat",
        Construct::Operator => b"operator",
        Construct::Directive => b"directive",
        Construct::Instance => b"instance",
        Construct::Second => b"second",
        Construct::Number => b"number",
        Construct::Reserved => b"reserved",
    }
}

// Puts out the line of the refusal of a module that has no net.
fn put_net_fault<D: Desk>(fault: &NetFault, piece: &mut Piece, desk: &mut D) -> Result<(), Failed>
    requires { CanPut (target_of piece.old) (D.state desk.old) }
    ensures { PutsOut (D.state desk.old) (D.state desk.new) result piece.old piece.new
        (refusal_text (net_fault_text fault.now)) }
{
    match fault {
        NetFault::BadPort(name) => put_named(b"port", name, piece, desk),
        NetFault::NoOutput => put_refusal(b"no output", &[], piece, desk),
        NetFault::TwoDrivers(name) => put_named(b"drivers", name, piece, desk),
        NetFault::NoDriver(name) => put_named(b"no driver", name, piece, desk),
        NetFault::Cycle(name) => put_named(b"cycle", name, piece, desk),
        NetFault::NoMemory => put_memory(piece, desk),
    }
}

/// Puts out the line of a refusal that names a name.
pub(crate) fn put_named<D: Desk>(
    fault: &[u8],
    name: &Name,
    piece: &mut Piece,
    desk: &mut D,
) -> Result<(), Failed>
    requires { CanPut (target_of piece.old) (D.state desk.old) }
    ensures { PutsOut (D.state desk.old) (D.state desk.new) result piece.old piece.new
        (refusal_text (spaced fault.now (name.now ∷ []))) }
{
    put_refusal(fault, &[Word::Text(name.as_slice())], piece, desk)
}

/// Puts out a line for want of memory. It never comes: want of memory is kept apart from the faults of an
/// input, and says nothing. There is a text only since the readers below name it among their faults.
pub(crate) fn put_memory<D: Desk>(piece: &mut Piece, desk: &mut D) -> Result<(), Failed>
    requires { CanPut (target_of piece.old) (D.state desk.old) }
    ensures { PutsOut (D.state desk.old) (D.state desk.new) result piece.old piece.new
        (refusal_text memory_text) }
{
    put_refusal(b"memory", &[], piece, desk)
}
