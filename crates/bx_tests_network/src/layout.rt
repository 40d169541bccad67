//! The calls on small grids and layouts, with values that were worked out by hand.

use crate::asserts::{are_bools, is_bool, is_bool_in_row, is_number, is_option_in_row};
use bx_forms::Form;
use bx_grid::Ratio;
use bx_layout::{
    Borders, FormGrid, Layout, Places, eval_grid, form_grid, is_legal, is_sound, out_value,
};
use bx_network::MappedNet;
use bx_samples::{branching, passing, without};
use std::alloc::Global;
use std::process::Abort;
use std::test::Fail;

// ---- A conjunction on two columns and three rows

// The numbers of the forms: two inputs, their conjunction, an output.
const CONJUNCTION: &[Option<u8>] = &[Some(1), Some(0), Some(14), None, Some(3), None];

// The same with an output that looks to the side on which nothing comes.
const AVERTED: &[Option<u8>] = &[Some(1), Some(0), Some(14), None, Some(2), None];

#[test]
fn an_output_has_to_look_where_something_comes(rt: HostRuntime) -> Result<(), Fail> {
    is_bool(&rt, is_sound(&three_rows(rt.alloc(), CONJUNCTION)?), true);
    is_bool(&rt, is_sound(&three_rows(rt.alloc(), AVERTED)?), false);
    Ok(())
}

// What is given to the two inputs, which borders are true then, and what the output reads.
const VALUES: &[(&[bool], &[usize], bool)] = &[
    (&[true, true], &[1, 2, 4], true),
    (&[true, false], &[1], false),
];

#[test]
fn a_conjunction_is_true_of_two_truths(rt: HostRuntime) -> Result<(), Fail> {
    let grid = three_rows(rt.alloc(), CONJUNCTION)?;
    for &(given, trues, read) in VALUES {
        let borders = evaluated(rt.alloc(), &grid, given, true)?;
        are_true(&rt, &borders, trues);
        is_bool(&rt, value_read(&grid, &borders, 4)?, read);
    }
    Ok(())
}

#[test]
fn a_grid_keeps_its_ratio(rt: HostRuntime) -> Result<(), Fail> {
    let grid = three_rows(rt.alloc(), CONJUNCTION)?;
    is_ratio(&rt, &grid, 2, 3);
    Ok(())
}

fn three_rows(alloc: Global, numbers: &[Option<u8>]) -> Result<FormGrid, Fail> {
    let mut tiles = Vec::new(alloc);
    for &number in numbers {
        tiles.push(form_of(number))?;
    }
    if tiles.len() == 6 {
        Ok(FormGrid::new(Ratio { w: 2, h: 3 }, tiles))
    } else {
        Err("there are six tiles".into())
    }
}

fn form_of(number: Option<u8>) -> Option<Form> {
    Form::from_number(number?)
}

fn is_ratio(rt: &impl Abort, grid: &FormGrid, w: u64, h: u64) {
    let ratio = grid.ratio();
    is_number(rt, ratio.w.into(), w);
    is_number(rt, ratio.h.into(), h);
}

// The borders with these numbers are true, and no others.
fn are_true(rt: &impl Abort, borders: &[bool], trues: &[usize]) {
    for (b, &value) in borders.iter().enumerate() {
        is_bool_in_row(rt, b, value, trues.contains(&b));
    }
}

// The values on the borders, which all had one before, for what is given to the tiles of the first row.
fn evaluated(
    alloc: Global,
    grid: &FormGrid,
    given: &[bool],
    before: bool,
) -> Result<Vec<bool>, Fail> {
    let ratio = grid.ratio();
    if given.len() != ratio.w as usize {
        return Err("not a value for each tile of the first row".into());
    }
    let mut borders = vec![in alloc; before; 2 * (ratio.w * ratio.h) as usize]?;
    eval_grid(grid, given, &mut borders);
    Ok(borders)
}

// What the output on this tile reads.
fn value_read(grid: &FormGrid, borders: &[bool], tile: u32) -> Result<bool, Fail> {
    let ratio = grid.ratio();
    let tiles = ratio.w * ratio.h;
    if tile < tiles && borders.len() == 2 * tiles as usize {
        Ok(out_value(grid, borders, tile))
    } else {
        Err("no such tile, or not all borders".into())
    }
}

// ---- A value that meets its own inversion in an `and`, on two columns and nine rows. On the way the two
// edges that are handed on cross, and go side by side.

const PLACES: &[u32] = &[0, 2, 13, 14, 16];

const BORDERS: &[(usize, u32)] = &[
    (1, 0),
    (4, 1),
    (9, 1),
    (13, 1),
    (18, 1),
    (21, 1),
    (5, 2),
    (10, 2),
    (12, 2),
    (17, 2),
    (20, 2),
    (25, 2),
    (26, 3),
    (28, 4),
];

// What changes in it: how many rows there are, where the nodes stand, and an edge more on a border or in
// another's stead. No border has the number 99.
type Change = (u32, &'static [u32], (usize, u32));

const UNCHANGED: Change = (9, PLACES, (99, 0));

// Changes, forms that aren't permitted, and whether the layout is legal.
const LAYOUTS: &[(Change, &[u8], bool)] = &[
    (UNCHANGED, &[], true),
    // 1. There is no edge 5, and two nodes don't share a tile.
    ((9, PLACES, (3, 5)), &[], false),
    ((9, &[0, 2, 13, 13, 16], (99, 0)), &[], false),
    // 2. The output doesn't stand in the last of ten rows.
    ((10, PLACES, (99, 0)), &[], false),
    // 4. Edge 0 goes another way beside its own.
    ((9, PLACES, (3, 0)), &[], false),
    // 5. The inversion stands where two edges go side by side: one ends in it, and the other goes through.
    ((9, &[0, 2, 10, 14, 16], (21, 3)), &[], false),
    // 6. The cross may not stand there.
    (UNCHANGED, &[27], false),
];

#[test]
fn each_condition_counts(rt: HostRuntime) -> Result<(), Fail> {
    let net = branching(rt.alloc())?;
    for (row, &(change, left_out, legal)) in LAYOUTS.iter().enumerate() {
        let found = may_be_laid(rt.alloc(), &net, change, left_out)?;
        is_bool_in_row(&rt, row, found, legal);
    }
    Ok(())
}

fn may_be_laid(
    alloc: Global,
    net: &MappedNet,
    change: Change,
    left_out: &[u8],
) -> Result<bool, Fail> {
    let layout = layout_of(alloc, change)?;
    Ok(is_legal(net, &without(left_out), &layout))
}

// The numbers of the forms on the left and the right, row by row.
const FORMS: &[(Option<u32>, Option<u32>)] = &[
    (Some(1), None),
    (Some(12), None),
    (Some(7), Some(4)),
    (Some(27), None),
    (Some(7), Some(4)),
    (Some(26), None),
    (Some(7), Some(8)),
    (Some(14), None),
    (Some(3), None),
];

#[test]
fn edges_cross_and_go_side_by_side(rt: HostRuntime) -> Result<(), Fail> {
    let grid = crossing_grid(rt.alloc())?;
    for (y, &(left, right)) in FORMS.iter().enumerate() {
        is_option_in_row(&rt, y, number_on(&grid, y, 0), left);
        is_option_in_row(&rt, y, number_on(&grid, y, 1), right);
    }
    Ok(())
}

#[test]
fn the_form_grid_has_the_ratio_of_its_layout(rt: HostRuntime) -> Result<(), Fail> {
    let grid = crossing_grid(rt.alloc())?;
    is_ratio(&rt, &grid, 2, FORMS.len() as u64);
    Ok(())
}

// The number of the form in this row and column, or none where the tile is empty. No form has the number 99,
// which stands for a tile that isn't there.
fn number_on(grid: &FormGrid, y: usize, x: usize) -> Option<u32> {
    if y >= grid.ratio().h as usize {
        return Some(99);
    }
    match grid.row(y as u32).get(x) {
        Some(Some(form)) => Some(form.number().into()),
        Some(None) => None,
        None => Some(99),
    }
}

fn crossing_grid(alloc: Global) -> Result<FormGrid, Fail> {
    let net = branching(alloc)?;
    let layout = layout_of(alloc, UNCHANGED)?;
    grid_of(alloc, &net, &layout)
}

// The layout on two columns, with this change.
fn layout_of(alloc: Global, change: Change) -> Result<Layout, Fail> {
    let (rows, places, more) = change;
    let mut edges = vec![in alloc; None; rows as usize * 4]?;
    for &(border, edge) in BORDERS {
        put(&mut edges, border, edge);
    }
    put(&mut edges, more.0, more.1);
    Ok(Layout {
        ratio: Ratio { w: 2, h: rows },
        places: Places::new(Vec::from_slice(alloc, places)?),
        borders: Borders::new(edges),
    })
}

// Puts an edge on a border, where there is such a border.
fn put(edges: &mut [Option<u32>], border: usize, edge: u32) {
    if let Some(place) = edges.get_mut(border) {
        *place = Some(edge);
    }
}

// The form grid of a layout, which has to be legal.
fn grid_of(alloc: Global, net: &MappedNet, layout: &Layout) -> Result<FormGrid, Fail> {
    if is_legal(net, &without(&[]), layout) {
        Ok(form_grid(alloc, net, layout)?)
    } else {
        Err("the layout isn't legal".into())
    }
}

// ---- An input straight above the output that reads it, on one column and two rows.

#[test]
fn an_input_stands_above_its_output(rt: HostRuntime) -> Result<(), Fail> {
    is_bool(&rt, column_is_legal(rt.alloc(), &[0, 1])?, true);
    is_bool(&rt, column_is_legal(rt.alloc(), &[1, 0])?, false);
    Ok(())
}

fn column_is_legal(alloc: Global, places: &[u32]) -> Result<bool, Fail> {
    let net = passing(alloc)?;
    let layout = column_of(alloc, places)?;
    Ok(is_legal(&net, &without(&[]), &layout))
}

#[test]
fn an_output_reads_the_value_of_its_input(rt: HostRuntime) -> Result<(), Fail> {
    let grid = column_grid(rt.alloc())?;
    let borders = evaluated(rt.alloc(), &grid, &[true], false)?;
    are_bools(&rt, &borders, &[false, true, false, false]);
    is_bool(&rt, value_read(&grid, &borders, 1)?, true);
    Ok(())
}

#[test]
fn a_column_has_two_rows(rt: HostRuntime) -> Result<(), Fail> {
    let grid = column_grid(rt.alloc())?;
    is_ratio(&rt, &grid, 1, 2);
    Ok(())
}

fn column_grid(alloc: Global) -> Result<FormGrid, Fail> {
    let net = passing(alloc)?;
    let layout = column_of(alloc, &[0, 1])?;
    grid_of(alloc, &net, &layout)
}

// The layout with these places. The edge goes by the border on the lower right of the upper tile.
fn column_of(alloc: Global, places: &[u32]) -> Result<Layout, Fail> {
    Ok(Layout {
        ratio: Ratio { w: 1, h: 2 },
        places: Places::new(Vec::from_slice(alloc, places)?),
        borders: Borders::new(vec![in alloc; None, Some(0), None, None]?),
    })
}
