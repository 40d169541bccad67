//! Tests of pieces: that what is put into one goes to the desk as it is, however it is cut, and that a front of it
//! is there where the desk fails.
ghost use Rattle.std.specs.Prelude.{◌<◌, IfOk, IsSome};
ghost use Rattle.bx_desk.specs.Desk.{CanPut};
ghost use Rattle.bx_desk.specs.Pieces.{target_of};
ghost use Rattle.bx_desk.specs.Memory.{state_of, desk_of};

use crate::asserts::{is_bytes, is_bytes_in, is_so, is_so_in};
use bx_desk::{Desk, Failed, MemDesk, Piece};
use std::alloc::{AllocError, Global};
use std::process::Abort;
use std::test::Fail;

// The parts in which the text is put, of so many bytes.
const PARTS: &[(&str, usize)] = &[
    ("bytes", 1),
    ("sevens", 7),
    ("a buffer but one", 4095),
    ("a buffer", 4096),
    ("a buffer and one", 4097),
    ("all at once", 10_000),
];

#[test]
fn what_is_put_is_said(rt: HostRuntime) -> Result<(), Fail> {
    let wanted = text_and_numbers(rt.alloc())?;
    for &(case, size) in PARTS {
        let mut desk = roomy(rt.alloc())?;
        let answer = put_text(&rt, rt.alloc(), Piece::to_say(), size, &mut desk)?;
        is_so_in(&rt, case, answer, true);
        has(&rt, case, &desk, &wanted, b"");
    }
    Ok(())
}

#[test]
fn what_is_put_is_written(rt: HostRuntime) -> Result<(), Fail> {
    let wanted = text_and_numbers(rt.alloc())?;
    for &(case, size) in PARTS {
        let mut desk = roomy(rt.alloc())?;
        let answer = put_text(&rt, rt.alloc(), Piece::to_file(), size, &mut desk)?;
        is_so_in(&rt, case, answer, true);
        has(&rt, case, &desk, b"", &wanted);
    }
    Ok(())
}

#[test]
fn a_failure_leaves_a_front_of_what_is_said(rt: HostRuntime) -> Result<(), Fail> {
    let mut desk = failing(rt.alloc())?;
    let answer = put_text(&rt, rt.alloc(), Piece::to_say(), 7, &mut desk)?;
    is_so(&rt, answer, false);
    is_front(&rt, rt.alloc(), desk.said())
}

#[test]
fn a_failure_leaves_a_front_of_what_is_written(rt: HostRuntime) -> Result<(), Fail> {
    let mut desk = failing(rt.alloc())?;
    let answer = put_text(&rt, rt.alloc(), Piece::to_file(), 7, &mut desk)?;
    is_so(&rt, answer, false);
    is_front(&rt, rt.alloc(), desk.file("f").unwrap_or(b"no file"))
}

// What was said, and what the file has.
fn has(rt: &impl Abort, case: &str, desk: &MemDesk, said: &[u8], written: &[u8]) {
    is_bytes_in(rt, case, desk.said(), said);
    is_bytes_in(rt, case, desk.file("f").unwrap_or(b"no file"), written);
}

// These are the front of the text that is handed on before the failure: a buffer and five bytes.
fn is_front(rt: &impl Abort, alloc: Global, found: &[u8]) -> Result<(), Fail> {
    let front = text(alloc, 4096 + 5)?;
    is_bytes(rt, found, &front);
    Ok(())
}

// Puts the text in parts of this size, and then two numbers. Whether the desk took all.
fn put_text(
    rt: &impl Abort,
    alloc: Global,
    piece: Piece,
    size: usize,
    desk: &mut MemDesk,
) -> Result<bool, AllocError>
    requires { CanPut (target_of piece) (desk_of (state_of desk.old)) }
{
    assert!(rt; size > 0);
    let text = text(alloc, 10_000)?;
    assert!(rt; text.len() == 10_000);
    Ok(put_all(piece, &text, size, desk).is_ok())
}

fn put_all(mut piece: Piece, text: &[u8], size: usize, desk: &mut MemDesk) -> Result<(), Failed>
    requires sized { 0 < size }
    requires can { CanPut (target_of piece) (desk_of (state_of desk.old)) }
{
    for part in text.chunks(size) {
        piece.put(part, desk)?;
    }
    piece.put_number(0, desk)?;
    piece.put_number(u64::MAX, desk)?;
    piece.end(desk)
}

// So many bytes of the text, in which no two neighbours are the same. It has more than two buffers' worth.
fn text(alloc: Global, count: u32) -> Result<Vec<u8>, AllocError> {
    let mut text = Vec::new(alloc);
    for n in 0..count {
        text.push((n % 251) as u8)?;
    }
    Ok(text)
}

// The text with the numbers behind it.
fn text_and_numbers(alloc: Global) -> Result<Vec<u8>, AllocError> {
    let mut all = text(alloc, 10_000)?;
    all.extend_from_slice(b"018446744073709551615")?;
    Ok(all)
}

// A desk that has started the file "f", with room for the whole text in it and beside it.
fn roomy(alloc: Global) -> Result<MemDesk, Fail>
    ensures { IfOk result (λ desk. IsSome (desk_of (state_of desk)).started) }
{
    let mut desk = MemDesk::new(alloc);
    desk.say_room(20_000)?;
    desk.make_room("f", 20_000)?;
    desk.start("f")?;
    Ok(desk)
}

// The same, which fails at the second full buffer: the start is call 1, so that is call 3.
fn failing(alloc: Global) -> Result<MemDesk, Fail>
    ensures { IfOk result (λ desk. IsSome (desk_of (state_of desk)).started) }
{
    let mut desk = roomy(alloc)?;
    desk.fail_at(3, 5)?;
    Ok(desk)
}
