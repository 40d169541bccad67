//! What is said of a small net, byte for byte, where its nodes stand on a grid of two columns.

use crate::asserts::{are_bytes, holds, is_number};
use bx_desk::{Failed, MemDesk, Piece};
use bx_forms::Form;
use bx_grid::Ratio;
use bx_layout::FormGrid;
use bx_logic::{Driver, Name, Net, NoMemory};
use bx_samples::branching;
use bx_says::{Word, put_line, put_spaced, put_word, put_words, say_head, say_pins, say_rows};
use std::alloc::Global;
use std::test::Fail;

// A net with three inputs, the first of which its output reads.
fn three_inputs(alloc: Global) -> Result<Net, NoMemory> {
    let module = name(alloc, b"m")?;
    let (a, b, c) = (
        name(alloc, b"a[0]")?,
        name(alloc, b"b")?,
        name(alloc, b"c")?,
    );
    let y = name(alloc, b"y")?;
    let inputs = vec![in alloc; a, b, c]?;
    let outputs = vec![in alloc; (y, 0u32)]?;
    let drivers = vec![in alloc; Driver::Input(0), Driver::Input(1), Driver::Input(2)]?;
    Ok(Net::new(module, inputs, outputs, drivers))
}

fn name(alloc: Global, bytes: &[u8]) -> Result<Name, NoMemory> {
    Ok(Name::new(Vec::from_slice(alloc, bytes)?))
}

// A desk with room for what is said.
fn roomy(alloc: Global) -> Result<MemDesk, NoMemory> {
    let mut desk = MemDesk::new(alloc);
    desk.say_room(200)?;
    Ok(desk)
}

#[test]
fn the_head_names_unused_inputs_in_port_order(rt: HostRuntime) -> Result<(), Fail> {
    let mut desk = roomy(rt.alloc())?;
    say_head_of_net(rt.alloc(), &mut desk)?;
    let wanted = b"module m\nnodes 5 edges 5\nunused b\nunused c\n";
    are_bytes(&rt, desk.said(), wanted, "head");
    Ok(())
}

// Says the head of the net and of a network of five nodes.
fn say_head_of_net(alloc: Global, desk: &mut MemDesk) -> Result<(), Fail> {
    let (net, mapped) = (three_inputs(alloc)?, branching(alloc)?);
    let mut piece = Piece::to_say();
    say_head(&net, &mapped, &mut piece, desk)?;
    Ok(piece.end(desk)?)
}

#[test]
fn inputs_come_before_outputs_and_columns_before_rows(rt: HostRuntime) -> Result<(), Fail> {
    let mut desk = roomy(rt.alloc())?;
    say_pins_of_net(rt.alloc(), &mut desk)?;
    let wanted = b"input a[0] 1 0\noutput y 1 2\n";
    are_bytes(&rt, desk.said(), wanted, "ports");
    Ok(())
}

// The column and the row of the input's tile are 1 and 0, those of the output's 1 and 2.
const PLACES: &[u32] = &[1, 2, 3, 4, 5];

// Says the ports of the net, where the nodes of a network stand at these places.
fn say_pins_of_net(alloc: Global, desk: &mut MemDesk) -> Result<(), Fail> {
    let (net, mapped) = (three_inputs(alloc)?, branching(alloc)?);
    if mapped.node_count() != 5 {
        return Err("five nodes".into());
    }
    let mut piece = Piece::to_say();
    let ratio = Ratio { w: 2, h: 3 };
    say_pins(&net, &mapped, ratio, PLACES, &mut piece, desk)?;
    Ok(piece.end(desk)?)
}

// Two columns and two rows: an input, nothing, an output that looks to the right, and a cross.
fn four_tiles(alloc: Global) -> Result<FormGrid, NoMemory> {
    let forms = [
        Form::from_number(1),
        None,
        Form::from_number(3),
        Form::from_number(27),
    ];
    let tiles = Vec::from_slice(alloc, &forms)?;
    Ok(FormGrid::new(Ratio { w: 2, h: 2 }, tiles))
}

#[test]
fn rows_name_forms_and_empty_tiles(rt: HostRuntime) -> Result<(), Fail> {
    let mut desk = roomy(rt.alloc())?;
    let is_handed_on = say_four_tiles(rt.alloc(), &mut desk)?;
    holds(&rt, is_handed_on, "all of it");
    let wanted = b"row 0 input_r empty\nrow 1 output_r cross\n";
    are_bytes(&rt, desk.said(), wanted, "rows");
    Ok(())
}

#[test]
fn a_line_that_finds_no_room_fails(rt: HostRuntime) -> Result<(), Fail> {
    let mut desk = MemDesk::new(rt.alloc());
    let is_handed_on = say_four_tiles(rt.alloc(), &mut desk)?;
    holds(&rt, !is_handed_on, "no room");
    is_number(&rt, desk.said().len() as u64, 0, "nothing is said");
    Ok(())
}

// Says the rows of four tiles, and answers whether the end of them could be handed on.
fn say_four_tiles(alloc: Global, desk: &mut MemDesk) -> Result<bool, Fail> {
    let grid = four_tiles(alloc)?;
    let mut piece = Piece::to_say();
    say_rows(&grid, &mut piece, desk)?;
    Ok(piece.end(desk).is_ok())
}

#[test]
fn a_line_is_words_behind_one_another(rt: HostRuntime) -> Result<(), Fail> {
    let mut desk = roomy(rt.alloc())?;
    say_words(&mut desk)?;
    are_bytes(&rt, desk.said(), b"found 12 x\nnone 0 p q", "words");
    Ok(())
}

// Says a line, and words of one that isn't ended.
fn say_words(desk: &mut MemDesk) -> Result<(), Failed> {
    let mut piece = Piece::to_say();
    let further = [Word::Number(12), Word::Text(b"x")];
    put_line(b"found", &further, &mut piece, desk)?;
    put_word(Word::Text(b"none"), &mut piece, desk)?;
    put_spaced(Word::Number(0), &mut piece, desk)?;
    put_words(&[Word::Text(b"p"), Word::Text(b"q")], &mut piece, desk)?;
    piece.end(desk)
}
