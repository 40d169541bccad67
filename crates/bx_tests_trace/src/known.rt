//! Layouts that were worked out by hand: each form grid is traced, and with a tile or two places changed it is
//! so only where the table says it.

use crate::asserts::{is_bool, is_bool_in_row, is_bool_with};
use crate::change::{FILLINGS, is_same_form, with_exchange, with_form};
use crate::sample::{
    BRANCHING, HALF_ADDER, ON_TWO_TILES, Sample, TWICE, TWICE_CROSSED, grid_of_sample,
};
use bx_forms::Form;
use bx_layout::FormGrid;
use bx_network::MappedNet;
use bx_samples::{branching, half_adder, passing, twice};
use bx_trace::traces;
use std::alloc::Global;
use std::process::Abort;
use std::test::Fail;

// Places of the column, and whether its form grid is traced with them: there are two, they stand in the grid,
// apart, and the input above.
const PLACINGS: &[(&[u32], bool)] = &[
    (&[0, 1], true),
    (&[1, 0], false),
    (&[], false),
    (&[0], false),
    (&[0, 1, 1], false),
    (&[0, 0], false),
    (&[1, 1], false),
    (&[0, 2], false),
    (&[0, 4_294_967_295], false),
];

#[test]
fn an_input_is_traced_to_its_output(rt: HostRuntime) -> Result<(), Fail> {
    let net = passing(rt.alloc())?;
    let grid = grid_of_sample(rt.alloc(), &net, ON_TWO_TILES)?;
    for (row, &(places, wanted)) in PLACINGS.iter().enumerate() {
        is_bool_in_row(&rt, row, traces(rt.alloc(), &net, &grid, places)?, wanted);
    }
    Ok(())
}

// Tiles with the number of another form with which the grid is traced too.
type Stays = &'static [(u32, u8)];

#[test]
fn a_half_adder_is_traced(rt: HostRuntime) -> Result<(), Fail> {
    let net = half_adder(rt.alloc())?;
    only_these_are_traced(&rt, rt.alloc(), &net, HALF_ADDER, &[])
}

// Where the two edges of the fan cross once less, or once more, the other one goes out on the left.
#[test]
fn a_crossing_turns_a_fan(rt: HostRuntime) -> Result<(), Fail> {
    let net = branching(rt.alloc())?;
    only_these_are_traced(&rt, rt.alloc(), &net, BRANCHING, &[(6, 26), (10, 27)])
}

#[test]
fn twins_are_traced_either_way(rt: HostRuntime) -> Result<(), Fail> {
    let net = twice(rt.alloc())?;
    only_these_are_traced(&rt, rt.alloc(), &net, TWICE, &[])?;
    only_these_are_traced(&rt, rt.alloc(), &net, TWICE_CROSSED, &[])
}

// The network of a traced grid isn't any other's.
#[test]
fn another_network_is_not_traced(rt: HostRuntime) -> Result<(), Fail> {
    let net = branching(rt.alloc())?;
    let grid = grid_of_sample(rt.alloc(), &net, BRANCHING)?;
    let other = twice(rt.alloc())?;
    is_bool(
        &rt,
        traces(rt.alloc(), &other, &grid, BRANCHING.places)?,
        false,
    );
    is_bool(
        &rt,
        traces(rt.alloc(), &other, &grid, &[0, 2, 14, 16])?,
        false,
    );
    Ok(())
}

fn only_these_are_traced(
    rt: &impl Abort,
    alloc: Global,
    net: &MappedNet,
    sample: &Sample,
    stays: Stays,
) -> Result<(), Fail> {
    let grid = grid_of_sample(alloc, net, sample)?;
    let ratio = grid.ratio();
    for tile in 0..ratio.w * ratio.h {
        for number in 0..FILLINGS {
            let wanted = is_own(&grid, tile, number) || stays.contains(&(tile, number));
            let other = with_form(alloc, &grid, tile, number)?;
            let found = traces(alloc, net, &other, sample.places)?;
            is_bool_with(rt, tile, number, found, wanted);
        }
    }
    no_exchange_is_traced(rt, alloc, net, &grid, sample.places)
}

// Whether the form of this number stands on the tile, or none where there is no such form.
fn is_own(grid: &FormGrid, tile: u32, number: u8) -> bool {
    let ratio = grid.ratio();
    tile < ratio.w * ratio.h && is_same_form(grid.tile(tile), Form::from_number(number))
}

fn no_exchange_is_traced(
    rt: &impl Abort,
    alloc: Global,
    net: &MappedNet,
    grid: &FormGrid,
    places: &[u32],
) -> Result<(), Fail> {
    for one in 0..places.len() {
        for other in 0..one {
            let exchanged = with_exchange(alloc, places, one, other)?;
            is_bool_in_row(rt, one, traces(alloc, net, grid, &exchanged)?, false);
        }
    }
    Ok(())
}
