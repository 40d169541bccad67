//! The calls on small grids and limits, with values that were counted by hand.

use crate::asserts::{is_number, is_option_in_row};
use bx_forms::Side;
use bx_grid::{Limits, Ratio, Ratios, below, border, entering};
use std::process::Abort;

// ---- Ratios

const AREA_SIX: Limits = Limits {
    area: 6,
    width: 144,
    height: 144,
};

// The ratios of area six or less, by area and then by width.
const OF_AREA_SIX: &[(u32, u32)] = &[
    (1, 1),
    (1, 2),
    (2, 1),
    (1, 3),
    (3, 1),
    (1, 4),
    (2, 2),
    (4, 1),
    (1, 5),
    (5, 1),
    (1, 6),
    (2, 3),
    (3, 2),
    (6, 1),
];

#[test]
fn ratios_stand_by_area_and_then_by_width(rt: HostRuntime) {
    let ratios = Ratios::new(AREA_SIX);
    is_number(&rt, ratios.len(), 14);
    for (k, &wanted) in OF_AREA_SIX.iter().enumerate() {
        is_ratio(&rt, nth(&ratios, k as u64), wanted);
    }
}

const COLUMN: Limits = Limits {
    area: 144,
    width: 1,
    height: 3,
};

#[test]
fn narrow_limits_leave_few_ratios(rt: HostRuntime) {
    let ratios = Ratios::new(COLUMN);
    is_number(&rt, ratios.len(), 3);
    is_ratio(&rt, nth(&ratios, 2), (1, 3));
}

const ALL: Limits = Limits {
    area: 144,
    width: 144,
    height: 144,
};

#[test]
fn the_widest_limits_leave_all_ratios(rt: HostRuntime) {
    let ratios = Ratios::new(ALL);
    is_number(&rt, ratios.len(), 746);
    is_ratio(&rt, nth(&ratios, 745), (144, 1));
}

fn is_ratio(rt: &impl Abort, found: (u32, u32), wanted: (u32, u32)) {
    is_number(rt, found.0.into(), wanted.0.into());
    is_number(rt, found.1.into(), wanted.1.into());
}

// The sides of the ratio at index k, or 0 and 0 where there is none.
fn nth(ratios: &Ratios, k: u64) -> (u32, u32) {
    if k >= ratios.len() {
        return (0, 0);
    }
    let ratio = ratios.at(k);
    (ratio.w, ratio.h)
}

// ---- Tiles

// The grid of two columns and three rows.
const SIX_TILES: Ratio = Ratio { w: 2, h: 3 };

// For each of its tiles one on the left and one on the right.
type Pairs = &'static [(Option<u32>, Option<u32>)];

const BELOW: Pairs = &[
    (None, Some(2)),
    (Some(2), Some(3)),
    (Some(4), Some(5)),
    (Some(5), None),
    (None, None),
    (None, None),
];

// The borders by which something comes in on the upper left and right.
const ENTERING: Pairs = &[
    (None, None),
    (None, None),
    (Some(1), Some(2)),
    (Some(3), None),
    (None, Some(4)),
    (Some(5), Some(6)),
];

#[test]
fn odd_rows_are_shifted_to_the_right(rt: HostRuntime) {
    is_number(&rt, BELOW.len() as u64, 6);
    for (tile, &(left, right)) in BELOW.iter().enumerate() {
        is_option_in_row(&rt, tile, below_tile(tile, Side::Left), left);
        is_option_in_row(&rt, tile, below_tile(tile, Side::Right), right);
    }
}

#[test]
fn what_comes_in_left_a_tile_of_the_row_above(rt: HostRuntime) {
    is_number(&rt, ENTERING.len() as u64, 6);
    for (tile, &(left, right)) in ENTERING.iter().enumerate() {
        is_option_in_row(&rt, tile, entering_tile(tile, Side::Left), left);
        is_option_in_row(&rt, tile, entering_tile(tile, Side::Right), right);
    }
}

// A border that no tile has, for a tile that isn't there.
const NO_TILE: Option<u32> = Some(99);

fn below_tile(tile: usize, side: Side) -> Option<u32> {
    if tile < 6 {
        below(SIX_TILES, tile as u32, side)
    } else {
        NO_TILE
    }
}

fn entering_tile(tile: usize, side: Side) -> Option<u32> {
    if tile < 6 {
        entering(SIX_TILES, tile as u32, side)
    } else {
        NO_TILE
    }
}

#[test]
fn a_tile_has_two_borders(rt: HostRuntime) {
    is_number(&rt, border(4, Side::Left).into(), 8);
    is_number(&rt, border(4, Side::Right).into(), 9);
}
