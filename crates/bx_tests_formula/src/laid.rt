//! Layouts of small networks and their bits, on which both ways are tried: from a layout to its bits, and back.
ghost use Rattle.std.specs.Prelude.{◌≤◌, IsTrue, length};
ghost use Rattle.bx_grid.specs.Tiles.{tile_count, IsGrid};

use crate::asserts::is_bool_in_row;
use bx_cnf::{Clauses, all_true};
use bx_encode::{MOST_AREA, MOST_NODES, bits_of, encode};
use bx_grid::Ratio;
use bx_layout::{Borders, Layout, Places, is_legal};
use bx_network::MappedNet;
use bx_samples::without;
use std::alloc::Global;
use std::process::Abort;
use std::test::Fail;

/// A layout: of so many borders these carry these edges.
pub struct Sample {
    pub ratio: Ratio,
    pub places: &'static [u32],
    pub borders: usize,
    pub carried: &'static [(usize, u32)],
    /// The variables that are true of it.
    pub trues: &'static [usize],
    /// Those whose bits say nothing: that an empty tile is taken.
    pub free: &'static [usize],
}

// ---- Of an input that leads to an output

pub const ON_TWO_TILES: &Sample = &Sample {
    ratio: Ratio { w: 1, h: 2 },
    places: &[0, 1],
    borders: 4,
    carried: &[(1, 0)],
    trues: &[1, 4, 5, 6, 8, 12],
    free: &[],
};

pub const ON_FOUR_TILES: &Sample = &Sample {
    ratio: Ratio { w: 2, h: 2 },
    places: &[0, 2],
    borders: 8,
    carried: &[(1, 0)],
    trues: &[1, 7, 9, 11, 14, 22],
    free: &[10, 12],
};

pub const WITH_A_WIRE: &Sample = &Sample {
    ratio: Ratio { w: 1, h: 3 },
    places: &[0, 2],
    borders: 6,
    carried: &[(1, 0), (2, 0)],
    trues: &[1, 6, 7, 9, 11, 12, 17, 18],
    free: &[],
};

// ---- Of other networks

pub const WITH_AN_INVERSION: &Sample = &Sample {
    ratio: Ratio { w: 1, h: 3 },
    places: &[0, 1, 2],
    borders: 6,
    carried: &[(1, 0), (2, 1)],
    trues: &[1, 5, 9, 10, 11, 12, 14, 15, 20, 27],
    free: &[],
};

pub const WITH_A_GATE: &Sample = &Sample {
    ratio: Ratio { w: 2, h: 3 },
    places: &[0, 1, 2, 4],
    borders: 12,
    carried: &[(1, 0), (2, 1), (4, 2)],
    trues: &[1, 8, 15, 23, 25, 26, 27, 29, 32, 33, 35, 44, 57, 71],
    free: &[28, 30],
};

// Each fan sends one edge straight down and one to the other gate: between two wires they cross.
pub const WITH_A_CROSSING: &Sample = &Sample {
    ratio: Ratio { w: 3, h: 5 },
    places: &[0, 3, 1, 4, 9, 10, 12, 14],
    borders: 30,
    carried: &[
        (1, 0),
        (3, 3),
        (6, 1),
        (7, 2),
        (8, 4),
        (9, 5),
        (13, 1),
        (14, 4),
        (15, 2),
        (16, 5),
        (18, 6),
        (21, 7),
    ],
    trues: &[
        1, 19, 32, 50, 70, 86, 103, 120, 121, 122, 124, 125, 130, 131, 133, 135, 137, 139, 142,
        143, 144, 145, 149, 150, 151, 152, 154, 157, 167, 202, 209, 233, 241, 259, 294, 300, 325,
        332, 364, 397,
    ],
    free: &[123, 126, 132, 134],
};

/// The formula under the permit of all forms but these.
pub fn formula_of(
    alloc: Global,
    net: &MappedNet,
    ratio: Ratio,
    left_out: &[u8],
) -> Result<Clauses, Fail> {
    if is_small(net, ratio) {
        Ok(encode(alloc, net, &without(left_out), ratio)?)
    } else {
        Err("no formula".into())
    }
}

/// Whether formulas are made of this network on such a grid.
pub fn is_small(net: &MappedNet, ratio: Ratio) -> bool
    ensures grid { IsTrue result → IsGrid ratio }
    ensures nodes { IsTrue result → length net.now.nodes ≤ MOST_NODES }
    ensures area { IsTrue result → tile_count ratio ≤ MOST_AREA }
{
    let tiles = u64::from(ratio.w) * u64::from(ratio.h);
    let few = tiles <= u64::from(MOST_AREA) && net.node_count() <= MOST_NODES;
    ratio.w >= 1 && ratio.h >= 1 && few
}

/// Whether the bits make all clauses true. Where they aren't one for each variable, they don't.
pub fn satisfies(clauses: &Clauses, bits: &[bool]) -> bool {
    bits.len() == clauses.vars() as usize && all_true(clauses, bits)
}

/// Each bit of a sample is the one that is wanted.
pub fn each_bit_is_wanted(
    rt: &impl Abort,
    alloc: Global,
    net: &MappedNet,
    sample: &Sample,
) -> Result<(), Fail> {
    let bits = bits_of_sample(alloc, net, sample)?;
    for (k, &bit) in bits.iter().enumerate() {
        is_bool_in_row(rt, k, bit, sample.trues.contains(&(k + 1)));
    }
    Ok(())
}

/// The bits of a sample, whose layout has to be legal.
pub fn bits_of_sample(alloc: Global, net: &MappedNet, sample: &Sample) -> Result<Vec<bool>, Fail> {
    let layout = Layout {
        ratio: sample.ratio,
        places: Places::new(Vec::from_slice(alloc, sample.places)?),
        borders: Borders::new(borders_of(alloc, sample)?),
    };
    bits_of_legal(alloc, net, &layout)
}

fn bits_of_legal(alloc: Global, net: &MappedNet, layout: &Layout) -> Result<Vec<bool>, Fail> {
    if !is_small(net, layout.ratio) {
        return Err("no formula".into());
    }
    if is_legal(net, &without(&[]), layout) {
        Ok(bits_of(alloc, net, layout)?)
    } else {
        Err("the layout isn't legal".into())
    }
}

/// What each border of a sample carries.
pub fn borders_of(alloc: Global, sample: &Sample) -> Result<Vec<Option<u32>>, Fail> {
    let mut borders = vec![in alloc; None; sample.borders]?;
    for &(b, edge) in sample.carried {
        if let Some(border) = borders.get_mut(b) {
            *border = Some(edge);
        }
    }
    Ok(borders)
}
