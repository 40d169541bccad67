//! The dots of small grids, and grids of dots, with dots that were worked out by hand.
ghost use Rattle.std.specs.Prelude.{IsTrue};
ghost use Rattle.bx_library.specs.Dots.{IsAscending};
ghost use Rattle.bx_dots.specs.GridDots.{AreOffered};

use crate::asserts::{holds, is_number, is_text};
use crate::sample::{FORMS, dot, form, sample};
use bx_dots::{CutFault, cut, dots_of};
use bx_forms::Form;
use bx_grid::Ratio;
use bx_layout::FormGrid;
use bx_library::{Dot, Library};
use bx_logic::NoMemory;
use std::alloc::Global;
use std::process::Abort;
use std::test::Fail;

// A dot as n, m, l.
type Place = (u32, u32, u8);

// The dots of an input that goes on to the lower right, and of the output below it.
const STRAIGHT: &[Place] = &[
    (1, 1, 0),
    (2, 3, 0),
    (3, 3, 0),
    (4, 3, 0),
    (5, 3, 0),
    (1, 3, 1),
    (5, 7, 0),
    (5, 9, 0),
    (7, 9, 0),
    (8, 9, 0),
    (9, 9, 0),
    (6, 9, 1),
];

#[test]
fn an_input_and_an_output_have_these_dots(rt: HostRuntime) -> Result<(), Fail> {
    let library = sample(rt.alloc())?;
    let grid = straight(rt.alloc())?;
    let dots = drawn(rt.alloc(), &library, &grid)?;
    holds(&rt, are_at(&dots, STRAIGHT), "these dots");
    goes_back(&rt, rt.alloc(), &library, &grid, &dots)
}

// An input that goes on to the lower right, and an output below it.
fn straight(alloc: Global) -> Result<FormGrid, NoMemory> {
    let tiles = Vec::from_slice(alloc, &[Form::from_number(1), Form::from_number(2)])?;
    Ok(FormGrid::new(Ratio { w: 1, h: 2 }, tiles))
}

// Whether dots stand at these places, in this order.
fn are_at(dots: &[Dot], places: &[Place]) -> bool {
    let found = dots.iter().map(|dot| (dot.n, dot.m, dot.l));
    found.eq(places.iter().copied())
}

#[test]
fn every_form_goes_there_and_back(rt: HostRuntime) -> Result<(), Fail> {
    let library = sample(rt.alloc())?;
    let grid = each_form(rt.alloc())?;
    let dots = drawn(rt.alloc(), &library, &grid)?;
    is_number(&rt, dots.len() as u64, 28 * 6, "all dots");
    goes_back(&rt, rt.alloc(), &library, &grid, &dots)
}

// Each form once: inputs in the first row, outputs in the last one, and the others between them.
fn each_form(alloc: Global) -> Result<FormGrid, Fail> {
    let mut tiles = [None; 48];
    for number in 0..FORMS {
        let first = match number {
            0..2 => 0,
            2..4 => 36,
            _ => 12,
        };
        tiles[first + usize::from(number % 24)] = Some(form(number)?);
    }
    let tiles = Vec::from_slice(alloc, &tiles)?;
    Ok(FormGrid::new(Ratio { w: 12, h: 4 }, tiles))
}

// The dots of a grid.
fn drawn(alloc: Global, library: &Library, grid: &FormGrid) -> Result<Vec<Dot>, Fail> {
    if !are_offered(library, grid) {
        return Err(Fail::from("a form isn't offered"));
    }
    Ok(dots_of(alloc, library, grid)?)
}

// Whether every form of the grid is offered.
fn are_offered(library: &Library, grid: &FormGrid) -> bool
    ensures { IsTrue result → AreOffered library.now grid.now }
{
    let ratio = grid.ratio();
    for tile in 0..ratio.w * ratio.h {
        if let Some(form) = grid.tile(tile) {
            if !library.offers().has(form) {
                return false;
            }
        }
    }
    true
}

// Asserts that the dots of a grid are cut into this grid.
fn goes_back(
    rt: &impl Abort,
    alloc: Global,
    library: &Library,
    grid: &FormGrid,
    dots: &[Dot],
) -> Result<(), Fail> {
    let wanted = whole_text(alloc, grid)?;
    let found = back_text(alloc, library, grid.ratio(), dots)?;
    is_text(rt, found.as_str(), wanted.as_str(), "there and back");
    Ok(())
}

// The grid that dots are cut into, as a text.
fn back_text(alloc: Global, library: &Library, ratio: Ratio, dots: &[Dot]) -> Result<String, Fail> {
    let back = cut_into(alloc, library, ratio, dots)?.map_err(|_| "no grid")?;
    Ok(whole_text(alloc, &back)?)
}

// The sides of a grid and the numbers of its forms.
fn whole_text(alloc: Global, grid: &FormGrid) -> Result<String, NoMemory> {
    let Ratio { w, h } = grid.ratio();
    let forms = grid_text(alloc, grid)?;
    let forms = forms.as_str();
    Ok(format!(in alloc; "{w} {h} {forms}")?)
}

// How many rows of one tile these dots are cut into, how many of them there are, which are left out of them
// and which are put among them, and what is told: the form on each tile, or the fault.
const CUTS: &[(u32, usize, &[Place], &[Place], &str)] = &[
    (2, 12, &[], &[], "grid 1 2"),
    (2, 0, &[], &[], "grid - -"),
    (2, 6, &[], &[], "grid 1 -"),
    (1, 6, &[], &[], "grid 1"),
    (2, 12, &[(1, 1, 0)], &[], "strange 0"),
    (2, 12, &[(6, 9, 1)], &[], "strange 1"),
    (2, 12, &[(6, 9, 1), (1, 1, 0)], &[], "strange 0"),
    (2, 12, &[], &[(7, 5, 1)], "strange 0"),
    (2, 12, &[], &[(4, 6, 0)], "strange 1"),
    (2, 12, &[], &[(11, 11, 1)], "strange 1"),
    // A second row stands half a tile further right.
    (2, 12, &[], &[(0, 7, 0)], "stray 0 7 0"),
    (2, 12, &[], &[(3, 11, 1)], "stray 3 11 1"),
    (2, 12, &[], &[(8, 1, 0), (12, 7, 0)], "stray 8 1 0"),
    (2, 12, &[], &[(12, 7, 0), (4, 12, 0)], "stray 12 7 0"),
    (2, 12, &[(1, 1, 0)], &[(4, 12, 0)], "stray 4 12 0"),
    // The dots of an output between the first row and the last one, and in a row that is both.
    (3, 12, &[], &[], "strange 1"),
    (
        1,
        6,
        &[(2, 3, 0), (1, 3, 1)],
        &[(1, 3, 0), (2, 3, 1)],
        "strange 0",
    ),
    // The dots of a wire in the first row.
    (
        2,
        6,
        &[(3, 3, 0), (1, 3, 1)],
        &[(1, 3, 0), (3, 3, 1)],
        "strange 0",
    ),
];

#[test]
fn the_first_thing_in_the_way_of_a_grid_is_told(rt: HostRuntime) -> Result<(), Fail> {
    let library = sample(rt.alloc())?;
    for &(h, count, left_out, added, wanted) in CUTS {
        let dots = edited(rt.alloc(), count, left_out, added)?;
        let told = told(rt.alloc(), &library, Ratio { w: 1, h }, &dots)?;
        is_text(&rt, told.as_str(), wanted, wanted);
    }
    Ok(())
}

// The dots of an input and an output, some of them left out and others put among them.
fn edited(
    alloc: Global,
    count: usize,
    left_out: &[Place],
    added: &[Place],
) -> Result<Vec<Dot>, NoMemory> {
    let mut dots = Vec::new(alloc);
    for place in STRAIGHT.iter().take(count) {
        if !left_out.contains(place) {
            dots.push(dot(*place))?;
        }
    }
    for place in added {
        dots.push(dot(*place))?;
    }
    dots.sort_unstable();
    Ok(dots)
}

// What cutting gives, as a text.
fn told(alloc: Global, library: &Library, ratio: Ratio, dots: &[Dot]) -> Result<String, Fail> {
    match cut_into(alloc, library, ratio, dots)? {
        Ok(grid) => Ok(grid_text(alloc, &grid)?),
        Err(fault) => Ok(fault_text(alloc, fault)?),
    }
}

fn fault_text(alloc: Global, fault: CutFault) -> Result<String, NoMemory> {
    match fault {
        CutFault::StrayDot(Dot { n, m, l }) => Ok(format!(in alloc; "stray {n} {m} {l}")?),
        CutFault::StrangeTile(tile) => Ok(format!(in alloc; "strange {tile}")?),
        CutFault::NoMemory => Ok(String::from_str(alloc, "no memory")?),
    }
}

// What dots are cut into.
fn cut_into(
    alloc: Global,
    library: &Library,
    ratio: Ratio,
    dots: &[Dot],
) -> Result<Result<FormGrid, CutFault>, Fail> {
    if ratio.w < 1 || ratio.h < 1 || ratio.w > 144 || ratio.h > 144 || !are_ascending(dots) {
        return Err(Fail::from("these dots aren't for cutting"));
    }
    Ok(cut(alloc, library, ratio, dots))
}

// Whether each dot stands before those that follow it.
fn are_ascending(dots: &[Dot]) -> bool
    ensures { IsTrue result → IsAscending dots.now }
{
    for i in 1..dots.len() {
        if !dots[i - 1].is_before(dots[i]) {
            return false;
        }
    }
    true
}

// The numbers of the forms of a grid.
fn grid_text(alloc: Global, grid: &FormGrid) -> Result<String, NoMemory> {
    let mut text = String::from_str(alloc, "grid")?;
    let ratio = grid.ratio();
    for tile in 0..ratio.w * ratio.h {
        push_form(alloc, grid.tile(tile), &mut text)?;
    }
    Ok(text)
}

// Adds the number of the form on a tile.
fn push_form(alloc: Global, form: Option<Form>, text: &mut String) -> Result<(), NoMemory> {
    match form {
        Some(form) => {
            let number = form.number();
            text.push_str(format!(in alloc; " {number}")?.as_str())?;
        }
        None => text.push_str(" -")?,
    }
    Ok(())
}
