//! The fan-outs of a net in cells: the number of each cell's node, what consumes its value, and where the
//! edges to its consumers end.
ghost use Rattle.std.specs.Prelude.{◌≡◌, ◌<◌, ◌≤◌, IfOk, length, slice_range};
ghost use Rattle.std.specs.List.{AllByRecursion};
ghost use Rattle.bx_map.specs.FanOuts.{IsCellNet, IsConsumerOf, consumers, tree_of};
ghost use Rattle.bx_map.specs.Numbers.{number, numbering_of, place, entry};

use crate::cell::{Cell, Target};
use crate::cells::Cells;
use crate::consumer::Consumer;
use crate::sort::{sorted_consumers, starts_of};
use crate::uses::uses_of;
use bx_logic::NoMemory;
use std::alloc::Global;
use std::marker::Model;

// A net in cells of which each is read, with few enough nodes for numbers of 32 bits. Contracts see the net.
#[derive(Drop)]
pub struct FanOuts {
    net: Cells,
    // For each cell where its consumers begin, which is the number of its node too: a cell and its fans
    // are as many nodes as it has consumers.
    starts: Vec<usize>,
    sorted: Vec<Consumer>,
}

impl Model for FanOuts {
    ghost use Rattle.bx_map.specs.Cells.{CellNet};

    ghost Value = { CellNet };

    ghost use Rattle.bx_map.specs.Sorts.{AreFanOuts};

    ghost view = { λ f. f.net };

    ghost invariant = { λ f. AreFanOuts f.net f.starts.items f.sorted.items };
}

impl FanOuts {
    // Those of a net, in time and memory linear in its cells and uses.
    pub fn of(alloc: Global, net: Cells) -> Result<Self, NoMemory>
        requires net { IsCellNet net }
        requires few { length (numbering_of net).nodes < 4294967296 }
        ensures { IfOk result (λ fan_outs. fan_outs ≡ net) }
    {
        let cells = net.cells().len();
        let uses = uses_of(alloc, &net)?;
        let starts = starts_of(alloc, cells, &uses)?;
        let sorted = sorted_consumers(alloc, cells, &uses, &starts)?;
        Ok(FanOuts {
            net,
            starts,
            sorted,
        })
    }

    // The cells, in their order.
    pub fn cells(&self) -> &[Cell]
        ensures { result.now ≡ self.now.cells }
    {
        self.net.cells()
    }

    // The cell whose value each output has, in port order.
    pub fn outputs(&self) -> &[usize]
        ensures outputs { result.now ≡ self.now.outputs }
        ensures few { length self.now.outputs < 4294967296 }
    {
        self.net.outputs()
    }

    // The number of a cell's node, and at the number of cells that of the first output.
    pub fn number(&self, i: usize) -> u32
        requires { i ≤ length self.now.cells }
        ensures number { result ≡ number self.now i }
        ensures net { IsCellNet self.now }
        ensures few { length (numbering_of self.now).nodes < 4294967296 }
    {
        self.starts[i] as u32
    }

    // What consumes the value of a cell, in order.
    pub fn consumers(&self, i: usize) -> &[Consumer]
        requires { i < length self.now.cells }
        ensures consumers { result.now ≡ consumers self.now i }
        ensures net { IsCellNet self.now }
        ensures few { length (numbering_of self.now).nodes < 4294967296 }
    {
        part_of(&self.sorted, self.starts[i], self.starts[i + 1])
    }

    // Where the edge to a consumer ends.
    fn place(&self, consumer: Consumer) -> Target
        requires { IsConsumerOf self.now consumer }
        ensures { result ≡ place self.now consumer }
    {
        match consumer {
            Consumer::Operand(cell, operand) => Target {
                node: self.number(cell),
                operand,
            },
            Consumer::Output(port) => Target {
                node: self.number(self.cells().len()) + port,
                operand: 0,
            },
        }
    }

    // Where an edge to all of these consumers ends, if their fans are numbered from `v` on.
    pub fn entry(&self, v: u32, consumers: &[Consumer]) -> Target
        requires some { 0 < length consumers.now }
        requires own { AllByRecursion (IsConsumerOf self.now) consumers.now }
        ensures { result ≡ entry self.now v (tree_of consumers.now) }
    {
        if consumers.len() == 1 {
            self.place(consumers[0])
        } else {
            Target {
                node: v,
                operand: 0,
            }
        }
    }
}

// The items from one place up to another.
fn part_of(items: &[Consumer], start: usize, end: usize) -> &[Consumer]
    requires order { start ≤ end }
    requires within { end ≤ length items.now }
    ensures { result.now ≡ slice_range items.now start end }
{
    &items[start..end]
}
