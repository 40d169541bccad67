//! The cells of a net: what the fold makes of it and the drop leaves, or the first output that folds to
//! a constant. What consumes a cell, and how cells are numbered as nodes, is for the fan-outs to say.
ghost use Rattle.std.specs.Prelude.{◌≡◌, MatchResult, OnOk};
ghost use Rattle.bx_logic.specs.Nets.{IsNet};
ghost use Rattle.bx_map.specs.declared.cells.NoCells.TheVariants.{NoMemory};
ghost use Rattle.bx_map.specs.Cells.{cell_net};
ghost use Rattle.bx_map.specs.Maps.{HasCells};
ghost use Rattle.bx_map.specs.Refusals.{IsNoCells};

use crate::cell::Cell;
use crate::fold::fold_net;
use crate::keep::keep;
use crate::outputs::output_cells;
use bx_logic::{Net, NoMemory};
use std::alloc::{AllocFailed, Global};
use std::marker::Model;

/// Cells, and the cell whose value each output has. Contracts see it as a net in cells.
#[derive(Drop)]
pub struct Cells {
    cells: Vec<Cell>,
    outputs: Vec<usize>,
}

impl Model for Cells {
    ghost use Rattle.bx_map.specs.Cells.{CellNet, cell_net};

    ghost Value = { CellNet };

    ghost view = { λ net. cell_net net.cells.items net.outputs.items };
}

impl Cells {
    /// These cells, with the cell of each output. Takes no memory.
    pub fn new(cells: Vec<Cell>, outputs: Vec<usize>) -> Self
        ensures { result ≡ cell_net cells.items outputs.items }
    {
        Cells { cells, outputs }
    }

    /// The cells, in their order.
    pub fn cells(&self) -> &[Cell]
        ensures { result.now ≡ self.now.cells }
    {
        &self.cells
    }

    /// The cell whose value each output has, in port order.
    pub fn outputs(&self) -> &[usize]
        ensures { result.now ≡ self.now.outputs }
    {
        &self.outputs
    }
}

/// Why there are no cells of a net.
#[derive(Clone, Copy)]
pub enum NoCells {
    /// This output is the first that folds to a constant.
    Constant(u32),
    /// Memory was refused.
    NoMemory,
}

impl From<NoMemory> for NoCells {
    ghost from_gives = { λ _ refusal. refusal ≡ NoMemory };

    fn from(_: NoMemory) -> Self {
        NoCells::NoMemory
    }
}

impl<T: Drop> From<AllocFailed<T>> for NoCells {
    ghost from_gives = { λ _ refusal. refusal ≡ NoMemory };

    fn from(_: AllocFailed<T>) -> Self {
        NoCells::NoMemory
    }
}

/// The cells from which an output of a net can be reached, in time and memory linear in nets and
/// arguments.
pub(crate) fn cells_of(alloc: Global, net: &Net) -> Result<Cells, NoCells>
    ensures net { OnOk result (IsNet net.now) }
    ensures cells { MatchResult result (HasCells net.now) (IsNoCells net.now) }
{
    let folds = fold_net(alloc, net)?;
    let outputs = output_cells(alloc, net, &folds.values)?;
    Ok(keep(alloc, &folds.cells, &outputs)?)
}
