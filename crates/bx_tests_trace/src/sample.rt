//! Layouts of small networks, by what their borders carry, and their form grids.

use bx_grid::Ratio;
use bx_layout::{Borders, FormGrid, Layout, Places, form_grid, is_legal};
use bx_network::MappedNet;
use bx_samples::without;
use std::alloc::Global;
use std::test::Fail;

/// A layout: on a grid with so many tiles in a row and so many rows, the nodes stand on these tiles, and these
/// borders carry these edges.
pub struct Sample {
    pub w: u32,
    pub h: u32,
    pub places: &'static [u32],
    pub carried: &'static [(usize, u32)],
}

/// An input straight above the output that reads it.
pub const ON_TWO_TILES: &Sample = &Sample {
    w: 1,
    h: 2,
    places: &[0, 1],
    carried: &[(1, 0)],
};

/// The same with a wire between them.
pub const WITH_A_WIRE: &Sample = &Sample {
    w: 1,
    h: 3,
    places: &[0, 2],
    carried: &[(1, 0), (2, 0)],
};

/// An input, its inversion and an output below each other.
pub const WITH_AN_INVERSION: &Sample = &Sample {
    w: 1,
    h: 3,
    places: &[0, 1, 2],
    carried: &[(1, 0), (2, 1)],
};

/// The same on two columns.
pub const ON_SIX_TILES: &Sample = &Sample {
    w: 2,
    h: 3,
    places: &[0, 2, 4],
    carried: &[(1, 0), (4, 1)],
};

/// Two inputs above their conjunction.
pub const WITH_A_GATE: &Sample = &Sample {
    w: 2,
    h: 3,
    places: &[0, 1, 2, 4],
    carried: &[(1, 0), (2, 1), (4, 2)],
};

/// A half adder. Each fan sends one edge straight down and one to the other gate: between two wires they cross.
pub const HALF_ADDER: &Sample = &Sample {
    w: 3,
    h: 5,
    places: &[0, 3, 1, 4, 9, 10, 12, 14],
    carried: &[
        (1, 0),
        (3, 3),
        (6, 1),
        (7, 2),
        (8, 4),
        (9, 5),
        (13, 1),
        (14, 4),
        (15, 2),
        (16, 5),
        (18, 6),
        (21, 7),
    ],
};

/// A value that meets its own inversion in an `and`. On the way the two edges that are handed on cross, and go
/// side by side.
pub const BRANCHING: &Sample = &Sample {
    w: 2,
    h: 9,
    places: &[0, 2, 13, 14, 16],
    carried: &[
        (1, 0),
        (4, 1),
        (9, 1),
        (13, 1),
        (18, 1),
        (21, 1),
        (5, 2),
        (10, 2),
        (12, 2),
        (17, 2),
        (20, 2),
        (25, 2),
        (26, 3),
        (28, 4),
    ],
};

/// Both edges of a fan lead to one `and`, that of slot 0 on the left.
pub const TWICE: &Sample = &Sample {
    w: 2,
    h: 5,
    places: &[0, 2, 6, 8],
    carried: &[(1, 0), (4, 1), (9, 1), (5, 2), (10, 2), (12, 3)],
};

/// The same with that of slot 1 on the left.
pub const TWICE_CROSSED: &Sample = &Sample {
    w: 2,
    h: 5,
    places: &[0, 2, 6, 8],
    carried: &[(1, 0), (4, 2), (9, 2), (5, 1), (10, 1), (12, 3)],
};

/// The form grid of a sample, which has to be legal.
pub fn grid_of_sample(alloc: Global, net: &MappedNet, sample: &Sample) -> Result<FormGrid, Fail> {
    let tiles = u64::from(sample.w) * u64::from(sample.h);
    if tiles > 100 {
        return Err("too many tiles".into());
    }
    let mut edges = vec![in alloc; None; 2 * tiles as usize]?;
    for &(border, edge) in sample.carried {
        if let Some(place) = edges.get_mut(border) {
            *place = Some(edge);
        }
    }
    let layout = Layout {
        ratio: Ratio {
            w: sample.w,
            h: sample.h,
        },
        places: Places::new(Vec::from_slice(alloc, sample.places)?),
        borders: Borders::new(edges),
    };
    match grid_of(alloc, net, &layout)? {
        Some(grid) => Ok(grid),
        None => Err("the layout isn't legal".into()),
    }
}

/// The form grid of a layout, or none where it isn't legal.
pub fn grid_of(alloc: Global, net: &MappedNet, layout: &Layout) -> Result<Option<FormGrid>, Fail> {
    if is_legal(net, &without(&[]), layout) {
        Ok(Some(form_grid(alloc, net, layout)?))
    } else {
        Ok(None)
    }
}
