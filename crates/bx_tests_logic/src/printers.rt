//! Tests of printers: what is said of words is their line, and a failure is kept to the end.
ghost use Rattle.bx_desk.specs.Desk.{CanPut};
ghost use Rattle.bx_desk.specs.Pieces.{target_of, PutsOut};
ghost use Rattle.bx_desk.specs.Memory.{state_of, desk_of};
ghost use Rattle.bx_desk.specs.Words.{word_text, line_text};

use crate::asserts::{is_bytes, is_so};
use bx_desk::{Desk, Failed, MemDesk, Piece, Printer, Word};
use std::test::Fail;

#[test]
fn a_line_is_its_words_with_a_space_between(rt: HostRuntime) -> Result<(), Fail> {
    let mut desk = MemDesk::new(rt.alloc());
    desk.say_room(100)?;
    let mut piece = Piece::to_say();
    let further = [Word::Number(8), Word::Text(b"edges"), Word::Number(0)];
    say_line(b"nodes", &further, &mut piece, &mut desk)?;
    say_word(Word::Number(u64::MAX), &mut piece, &mut desk)?;
    piece.end(&mut desk)?;
    is_bytes(&rt, desk.said(), b"nodes 8 edges 0\n18446744073709551615");
    Ok(())
}

// A line.
fn say_line<D: Desk>(
    first: &[u8],
    further: &[Word],
    piece: &mut Piece,
    desk: &mut D,
) -> Result<(), Failed>
    requires { CanPut (target_of piece.old) (D.state desk.old) }
    ensures { PutsOut (D.state desk.old) (D.state desk.new) result piece.old piece.new
        (line_text first.now further.now) }
{
    let mut printer = Printer::new(piece, desk);
    printer.line(first, further);
    printer.outcome()
}

// A word.
fn say_word<D: Desk>(word: Word, piece: &mut Piece, desk: &mut D) -> Result<(), Failed>
    requires { CanPut (target_of piece.old) (D.state desk.old) }
    ensures { PutsOut (D.state desk.old) (D.state desk.new) result piece.old piece.new
        (word_text word.entry) }
{
    let mut printer = Printer::new(piece, desk);
    printer.word(word);
    printer.outcome()
}

#[test]
fn nothing_is_said_after_a_failure(rt: HostRuntime) -> Result<(), Fail> {
    let mut desk = MemDesk::new(rt.alloc());
    desk.say_room(20_000)?;
    desk.fail_at(1, 5)?;
    let mut piece = Piece::to_say();
    let answer = print_buffers(&mut piece, &mut desk);
    is_so(&rt, answer, false);
    is_bytes(&rt, desk.said(), b"aaaaa");
    Ok(())
}

// Two full buffers, of which the desk takes five bytes. Whether all was put out.
fn print_buffers(piece: &mut Piece, desk: &mut MemDesk) -> bool
    requires { CanPut (target_of piece.old) (desk_of (state_of desk.old)) }
{
    let mut printer = Printer::new(piece, desk);
    printer.bytes(&[b'a'; 4096]);
    printer.bytes(&[b'b'; 4096]);
    printer.outcome().is_ok()
}
