//! The layout as a whole, or the first reason why there is none.
ghost use Rattle.std.specs.Prelude.{◌≡◌, ◌≤◌, ◌*◌, ◌+◌, None, IfOk, IfErr, OnOk, length};
ghost use Rattle.bx_layout.specs.Pins.{pin_tiles};
ghost use Rattle.bx_quick.specs.LaneStates.{end_of as last_state, width_of as largest_count};
ghost use Rattle.bx_quick.specs.Grids.{grid_of, height_of, rows_of};
ghost use Rattle.bx_quick.specs.Pins.{quick_pins};
ghost use Rattle.bx_quick.specs.Faults.{IsPermitted, IsQuickFault};

use crate::missing::first_missing;
use crate::pins::{input_tiles, output_tiles};
use crate::rows::tiles_of;
use crate::state::State;
use crate::walk::end_of;
use crate::width::width_of;
use bx_forms::{Form, FormSet};
use bx_grid::{MOST_TILES, Ratio};
use bx_layout::FormGrid;
use bx_logic::NoMemory;
use bx_network::MappedNet;
use std::alloc::Global;
use std::marker::Model;

/// Tiles of a grid, by their numbers. Contracts see it as this list.
#[derive(Drop)]
pub struct Tiles {
    tiles: Vec<u32>,
}

impl Model for Tiles {
    ghost use Rattle.std.specs.Prelude.{ℕ, List};

    ghost Value = { List ℕ };

    ghost view = { λ tiles. tiles.tiles.items };
}

impl Tiles {
    /// The tiles of this list. Takes no memory.
    pub fn new(tiles: Vec<u32>) -> Tiles
        ensures { result ≡ tiles.items }
    {
        Tiles { tiles }
    }

    /// The list itself.
    pub fn as_slice(&self) -> &[u32]
        ensures { result.now ≡ self.now }
    {
        self.tiles.as_slice()
    }
}

/// A layout in lanes, and the tiles of the used inputs and of the outputs, each by port order.
#[derive(Drop)]
pub struct Quick {
    pub grid: FormGrid,
    pub inputs: Tiles,
    pub outputs: Tiles,
}

/// Why a network isn't laid out, in the order in which the faults come.
#[derive(Clone, Copy)]
pub enum QuickFault {
    /// How many columns there would be, where these are too many.
    TooWide(u32),
    /// How many rows there would be, where there are too many tiles.
    TooTall(u64),
    /// The least form of the grid that may not stand there.
    NoForm(Form),
    /// Memory was refused. It may come at any time.
    NoMemory,
}

impl From<NoMemory> for QuickFault {
    ghost use Rattle.bx_quick.specs.declared.quick.QuickFault.TheVariants.{NoMemory as OutOfMemory};

    ghost from_gives = { λ _ fault. fault ≡ OutOfMemory };

    fn from(_: NoMemory) -> Self {
        QuickFault::NoMemory
    }
}

/// The layout of a network in lanes, or why there is none. The widest row is known from the kinds of the
/// nodes alone, and the height from the operations, before there is a tile.
pub fn lay_quick(
    alloc: Global,
    net: &MappedNet,
    forms: FormSet,
    width: u32,
) -> Result<Quick, QuickFault>
    requires some_nodes { 1 ≤ length net.now.nodes }
    requires few_nodes { length net.now.nodes ≤ 4096 }
    requires some_width { 1 ≤ width }
    requires few_columns { width ≤ 64 }
    ensures grid { IfOk result (λ quick. quick.grid ≡ grid_of net.now) }
    ensures inputs { IfOk result (λ quick. quick.inputs ≡ pin_tiles (quick_pins net.now).inputs) }
    ensures outputs { IfOk result (λ quick. quick.outputs ≡ pin_tiles (quick_pins net.now).outputs) }
    ensures permitted { OnOk result (IsPermitted net.now forms width) }
    ensures fault { IfErr result (IsQuickFault net.now forms width) }
{
    let columns = width_of(net);
    if columns > width {
        return Err(QuickFault::TooWide(columns));
    }
    let state = end_of(alloc, net)?;
    let rows = 2 * state.operations.len() as u64 + 2;
    if rows > u64::from(MOST_TILES / columns) {
        return Err(QuickFault::TooTall(rows));
    }
    let left = state.lanes.len() as u32;
    let tiles = tiles_of(alloc, columns, &state.operations, left)?;
    if let Some(form) = first_missing(&tiles, forms) {
        return Err(QuickFault::NoForm(form));
    }
    let ratio = Ratio {
        w: columns,
        h: rows as u32,
    };
    Ok(laid(alloc, net, &state, ratio, tiles)?)
}

// The layout with these tiles, and its pins.
fn laid(
    alloc: Global,
    net: &MappedNet,
    state: &State,
    ratio: Ratio,
    tiles: Vec<Option<Form>>,
) -> Result<Quick, NoMemory>
    requires nodes { length net.now.nodes ≤ 4096 }
    requires state { state.now ≡ last_state net.now }
    requires lanes { length state.now.lanes ≤ 12288 }
    requires width { ratio.w ≡ largest_count net.now }
    requires height { ratio.h ≡ height_of net.now }
    requires some { 1 ≤ ratio.w }
    requires few { ratio.w * ratio.h ≤ 4194304 }
    requires tiles { tiles.items
        ≡ rows_of ratio.w (length state.now.lanes) None state.now.operations }
    ensures grid { IfOk result (λ quick. quick.grid ≡ grid_of net.now) }
    ensures inputs { IfOk result (λ quick. quick.inputs ≡ pin_tiles (quick_pins net.now).inputs) }
    ensures outputs { IfOk result (λ quick. quick.outputs ≡ pin_tiles (quick_pins net.now).outputs) }
{
    let inputs = input_tiles(alloc, net)?;
    let outputs = output_tiles(alloc, net, state, (ratio.h - 1) * ratio.w)?;
    Ok(Quick {
        grid: FormGrid::new(ratio, tiles),
        inputs: Tiles { tiles: inputs },
        outputs: Tiles { tiles: outputs },
    })
}
