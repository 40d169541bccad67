//! Small grids, on which all layouts are tried: a form grid is traced exactly where one of them has it.

use crate::asserts::is_bool_with;
use crate::change::{FILLINGS, is_same_form, with_exchange, with_form};
use crate::sample::{
    ON_SIX_TILES, ON_TWO_TILES, Sample, WITH_A_GATE, WITH_A_WIRE, WITH_AN_INVERSION, grid_of,
    grid_of_sample,
};
use bx_forms::Side;
use bx_grid::{Ratio, below};
use bx_layout::{Borders, FormGrid, Layout, Places};
use bx_network::MappedNet;
use bx_samples::{conjunction, inversion, passing};
use bx_trace::traces;
use std::alloc::Global;
use std::process::Abort;
use std::test::Fail;

#[test]
fn a_wire_is_traced_as_all_layouts_say(rt: HostRuntime) -> Result<(), Fail> {
    let net = passing(rt.alloc())?;
    all_layouts_agree(&rt, rt.alloc(), &net, ON_TWO_TILES)?;
    all_layouts_agree(&rt, rt.alloc(), &net, WITH_A_WIRE)
}

#[test]
fn an_inversion_is_traced_as_all_layouts_say(rt: HostRuntime) -> Result<(), Fail> {
    let net = inversion(rt.alloc())?;
    all_layouts_agree(&rt, rt.alloc(), &net, WITH_AN_INVERSION)?;
    all_layouts_agree(&rt, rt.alloc(), &net, ON_SIX_TILES)
}

#[test]
fn a_conjunction_is_traced_as_all_layouts_say(rt: HostRuntime) -> Result<(), Fail> {
    let net = conjunction(rt.alloc())?;
    all_layouts_agree(&rt, rt.alloc(), &net, WITH_A_GATE)
}

// With the places of the sample, and with each two of them exchanged, for its form grid with each tile changed
// to each form, or emptied.
fn all_layouts_agree(
    rt: &impl Abort,
    alloc: Global,
    net: &MappedNet,
    sample: &Sample,
) -> Result<(), Fail> {
    all_layouts_agree_on(rt, alloc, net, sample, sample.places)?;
    for one in 0..sample.places.len() {
        for other in 0..one {
            let places = with_exchange(alloc, sample.places, one, other)?;
            all_layouts_agree_on(rt, alloc, net, sample, &places)?;
        }
    }
    Ok(())
}

fn all_layouts_agree_on(
    rt: &impl Abort,
    alloc: Global,
    net: &MappedNet,
    sample: &Sample,
    places: &[u32],
) -> Result<(), Fail> {
    let grid = grid_of_sample(alloc, net, sample)?;
    let found = grids_of_all(alloc, net, sample, places)?;
    each_change_agrees(rt, alloc, net, &grid, places, &found)
}

fn each_change_agrees(
    rt: &impl Abort,
    alloc: Global,
    net: &MappedNet,
    grid: &FormGrid,
    places: &[u32],
    grids: &[FormGrid],
) -> Result<(), Fail> {
    let ratio = grid.ratio();
    for tile in 0..ratio.w * ratio.h {
        for number in 0..FILLINGS {
            let other = with_form(alloc, grid, tile, number)?;
            let wanted = is_among(&other, grids);
            is_bool_with(
                rt,
                tile,
                number,
                traces(alloc, net, &other, places)?,
                wanted,
            );
        }
    }
    Ok(())
}

fn is_among(grid: &FormGrid, grids: &[FormGrid]) -> bool {
    for other in grids {
        if is_same_grid(grid, other) {
            return true;
        }
    }
    false
}

fn is_same_grid(one: &FormGrid, other: &FormGrid) -> bool {
    let ratio = one.ratio();
    let own = other.ratio();
    if ratio.w != own.w || ratio.h != own.h {
        return false;
    }
    for tile in 0..ratio.w * ratio.h {
        if !is_same_form(one.tile(tile), other.tile(tile)) {
            return false;
        }
    }
    true
}

// The form grids of all legal layouts with these places.
fn grids_of_all(
    alloc: Global,
    net: &MappedNet,
    sample: &Sample,
    places: &[u32],
) -> Result<Vec<FormGrid>, Fail> {
    let ratio = Ratio {
        w: sample.w,
        h: sample.h,
    };
    let onward = borders_on_grid(alloc, ratio)?;
    let choices = net.edge_count().saturating_add(1);
    let mut grids = Vec::new(alloc);
    for number in 0..layout_count(&onward, choices)? {
        let layout = Layout {
            ratio,
            places: Places::new(Vec::from_slice(alloc, places)?),
            borders: Borders::new(edges_by(alloc, &onward, choices, number)?),
        };
        if let Some(grid) = grid_of(alloc, net, &layout)? {
            grids.push(grid)?;
        }
    }
    Ok(grids)
}

// Of each border whether it leads to a tile. The others carry nothing in a legal layout.
fn borders_on_grid(alloc: Global, ratio: Ratio) -> Result<Vec<bool>, Fail> {
    if !(1..=10).contains(&ratio.w) || !(1..=10).contains(&ratio.h) {
        return Err("no grid, or too large a one".into());
    }
    let mut onward = Vec::new(alloc);
    for tile in 0..ratio.w * ratio.h {
        onward.push(below(ratio, tile, Side::Left).is_some())?;
        onward.push(below(ratio, tile, Side::Right).is_some())?;
    }
    Ok(onward)
}

// How many ways there are to carry one of these, or nothing, on each border that leads to a tile.
fn layout_count(onward: &[bool], choices: u32) -> Result<u32, Fail> {
    let mut count: u32 = 1;
    for &leads in onward {
        if leads {
            count = count.saturating_mul(choices);
        }
    }
    if count > 100_000 {
        return Err("too many layouts".into());
    }
    Ok(count)
}

// The edges of one of them, by the digits of its number.
fn edges_by(
    alloc: Global,
    onward: &[bool],
    choices: u32,
    number: u32,
) -> Result<Vec<Option<u32>>, Fail> {
    if choices == 0 {
        return Err("nothing to choose from".into());
    }
    let mut edges = Vec::new(alloc);
    let mut rest = number;
    for &leads in onward {
        if leads {
            edges.push((rest % choices).checked_sub(1))?;
            rest /= choices;
        } else {
            edges.push(None)?;
        }
    }
    Ok(edges)
}
