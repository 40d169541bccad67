//! Pictures of form grids: each form has a symbol, each tile is drawn once, names are escaped, and dots lie where the
//! lattice has them.

use crate::asserts::{are_bytes, holds, is_number};
use bx_desk::{MemDesk, Piece};
use bx_draw::{Place, PortName, draw_dots, draw_grid};
use bx_forms::Form;
use bx_grid::Ratio;
use bx_layout::FormGrid;
use bx_library::{Dot, read_library};
use std::alloc::Global;
use std::process::Abort;
use std::test::Fail;

// The picture of a grid with these tiles in one row, and these names.
fn picture(alloc: Global, tiles: &[Option<Form>], ports: &[PortName]) -> Result<MemDesk, Fail> {
    let mut desk = MemDesk::new(alloc);
    desk.say_room(40_000)?;
    let grid = row(alloc, tiles)?;
    let mut piece = Piece::to_say();
    draw_grid(&grid, ports, &[], &mut piece, &mut desk)?;
    piece.end(&mut desk)?;
    Ok(desk)
}

// One row of these tiles, of which there are some.
fn row(alloc: Global, tiles: &[Option<Form>]) -> Result<FormGrid, Fail> {
    if tiles.is_empty() || tiles.len() > 144 {
        return Err("a row of tiles".into());
    }
    let ratio = Ratio {
        w: tiles.len() as u32,
        h: 1,
    };
    Ok(FormGrid::new(ratio, Vec::from_slice(alloc, tiles)?))
}

// How often a text stands in bytes.
fn count(bytes: &[u8], text: &[u8]) -> u64 {
    let mut found = 0u64;
    for k in 0..bytes.len() {
        if bytes[k..].starts_with(text) {
            found = found.saturating_add(1);
        }
    }
    found
}

#[test]
fn each_form_has_one_symbol(rt: HostRuntime) -> Result<(), Fail> {
    for form in Form::all() {
        let desk = picture(rt.alloc(), &[Some(form)], &[])?;
        has_symbol(&rt, rt.alloc(), desk.said(), form.name())?;
    }
    let desk = picture(rt.alloc(), &[None], &[])?;
    has_symbol(&rt, rt.alloc(), desk.said(), "empty")
}

// The picture has a symbol of this name, and one tile that shows it.
fn has_symbol(rt: &impl Abort, alloc: Global, said: &[u8], name: &str) -> Result<(), Fail> {
    let symbol = format!(in alloc; "<g id=\"{name}\"")?;
    is_number(rt, count(said, symbol.as_bytes()), 1, name);
    let shown = format!(in alloc; "<use xlink:href=\"#{name}\"/></g>\n")?;
    is_number(rt, count(said, shown.as_bytes()), 1, name);
    Ok(())
}

#[test]
fn a_tile_is_drawn_where_it_lies(rt: HostRuntime) -> Result<(), Fail> {
    let mut desk = MemDesk::new(rt.alloc());
    desk.say_room(40_000)?;
    draw_two_rows(rt.alloc(), &mut desk)?;
    for line in TILES {
        is_number(&rt, count(desk.said(), line.as_bytes()), 1, line);
    }
    is_number(
        &rt,
        count(desk.said(), b"#tile"),
        8,
        "four tiles, and four of the legend",
    );
    holds(&rt, desk.said().starts_with(FRONT), "the front");
    holds(&rt, desk.said().ends_with(b"</g>\n</svg>\n"), "the end");
    Ok(())
}

const FRONT: &[u8] =
    b"<?xml version=\"1.0\" encoding=\"UTF-8\"?>\n<svg xmlns=\"http://www.w3.org/2000/svg\" \
xmlns:xlink=\"http://www.w3.org/1999/xlink\" version=\"1.1\" viewBox=\"-52 -75 364 450\">\n\
<title>A layout of 2 by 2 tiles</title>\n<defs>\n";

const TILES: &[&str] = &[
    "<g class=\"z0\" transform=\"translate(52 60)\"><title>input_r at column 0, row 0, clock zone 0, node 1</title>",
    "<g class=\"z0\" transform=\"translate(156 60)\"><title>empty at column 1, row 0, clock zone 0</title>",
    "<g class=\"z1\" transform=\"translate(104 150)\"><title>output_r at column 0, row 1, clock zone 1, node 0</title>",
    "<g class=\"z1\" transform=\"translate(208 150)\"><title>cross at column 1, row 1, clock zone 1</title>",
    "<text class=\"k\" x=\"54\" y=\"52\">2 by 2 tiles</text>",
];

// Draws two columns and two rows.
fn draw_two_rows(alloc: Global, desk: &mut MemDesk) -> Result<(), Fail> {
    let forms = [
        Form::from_number(1),
        None,
        Form::from_number(3),
        Form::from_number(27),
    ];
    let grid = FormGrid::new(Ratio { w: 2, h: 2 }, Vec::from_slice(alloc, &forms)?);
    let mut piece = Piece::to_say();
    draw_grid(&grid, &[], &[2, 0], &mut piece, desk)?;
    Ok(piece.end(desk)?)
}

// Names, and how they stand in a picture.
const NAMES: &[(&[u8], &str)] = &[
    (b"a", "a"),
    (b"", ""),
    (b"a<b>&\"c'", "a&lt;b&gt;&amp;&quot;c'"),
    (
        b"\x00\x1f \x7e\x7f\x80\xff\n",
        "\\x00\\x1f ~\\x7f\\x80\\xff\\x0a",
    ),
];

#[test]
fn names_are_escaped(rt: HostRuntime) -> Result<(), Fail> {
    for &(name, text) in NAMES {
        let line = format!(in rt.alloc(); "<text class=\"p\" x=\"156\" y=\"-8\">{text}</text>\n")?;
        is_number(
            &rt,
            count(
                named(rt.alloc(), name, Place::Above)?.said(),
                line.as_bytes(),
            ),
            1,
            text,
        );
        let line = format!(in rt.alloc(); "<text class=\"p\" x=\"156\" y=\"144\">{text}</text>\n")?;
        is_number(
            &rt,
            count(
                named(rt.alloc(), name, Place::Below)?.said(),
                line.as_bytes(),
            ),
            1,
            text,
        );
    }
    Ok(())
}

// Two tiles in one row, with a name at the second.
fn named(alloc: Global, name: &[u8], place: Place) -> Result<MemDesk, Fail> {
    let port = PortName {
        name,
        column: 1,
        place,
    };
    picture(alloc, &[None, None], &[port])
}

#[test]
fn a_picture_that_finds_no_room_fails(rt: HostRuntime) -> Result<(), Fail> {
    let mut desk = MemDesk::new(rt.alloc());
    let grid = row(rt.alloc(), &[None])?;
    let mut piece = Piece::to_say();
    let drawn = draw_grid(&grid, &[], &[], &mut piece, &mut desk);
    holds(&rt, drawn.is_err(), "no room");
    are_bytes(&rt, desk.said(), b"", "nothing is said");
    Ok(())
}

// What a picture of one tile with three dots has, by a library whose tiles are 8 wide and 6 high.
const DOTTED: &[&str] = &[
    "viewBox=\"-1728 -4880 7680 18432\">\n<title>A layout of 1 by 1 tiles, in hundredths of an angstrom</title>\n",
    "<svg x=\"-1728\" y=\"-4880\" width=\"7680\" height=\"18432\" preserveAspectRatio=\"none\" viewBox=\"-52 -75 260 360\">\n<defs>\n",
    "</g>\n</svg>\n<g class=\"d\">\n<circle cx=\"384\" cy=\"768\" r=\"100\"/>\n",
    "<circle cx=\"0\" cy=\"2304\" r=\"100\"/>\n",
    "<circle cx=\"1536\" cy=\"2529\" r=\"100\"/>\n</g>\n</svg>\n",
];

#[test]
fn dots_lie_at_their_true_places(rt: HostRuntime) -> Result<(), Fail> {
    let mut desk = MemDesk::new(rt.alloc());
    desk.say_room(40_000)?;
    draw_three_dots(rt.alloc(), &mut desk)?;
    for text in DOTTED {
        is_number(&rt, count(desk.said(), text.as_bytes()), 1, text);
    }
    Ok(())
}

// Draws an empty tile, and three dots.
fn draw_three_dots(alloc: Global, desk: &mut MemDesk) -> Result<(), Fail> {
    let Ok(library) = read_library(alloc, LIBRARY) else {
        return Err("no library".into());
    };
    let dots = [
        Dot { m: 1, l: 0, n: 1 },
        Dot { m: 3, l: 0, n: 0 },
        Dot { m: 3, l: 1, n: 4 },
    ];
    let grid = row(alloc, &[None])?;
    let mut piece = Piece::to_say();
    draw_dots(&grid, &[], &[], &library, &dots, &mut piece, desk)?;
    Ok(piece.end(desk)?)
}

const LIBRARY: &[u8] =
    b"{\"name\":\"one\",\"width\":8,\"height\":6,\"forms\":{\"input_l\":[[1,1,0]]}}";
