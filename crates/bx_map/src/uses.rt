//! The uses of the values of a net in cells, by operands in the order of the cells, and then by outputs.
ghost use Rattle.std.specs.Prelude.{◌≡◌, ◌<◌, ◌++◌, ℕ, IfOk, OnOk, length};
ghost use Rattle.bx_map.specs.Cells.{operands_of};
ghost use Rattle.bx_map.specs.FanOuts.{use_of, operand_uses, cell_uses, output_uses, uses};

use crate::cell::Cell;
use crate::cells::Cells;
use crate::consumer::{Consumer, Use};
use bx_logic::NoMemory;
use std::alloc::Global;

// The uses of a net in cells, in time and memory linear in their number.
pub fn uses_of(alloc: Global, net: &Cells) -> Result<Vec<Use>, NoMemory>
    requires { length net.now.outputs < 4294967296 }
    ensures { IfOk result (λ all. all.items ≡ uses net.now) }
{
    let mut all = Vec::new(alloc);
    put_cell_uses(&mut all, net.cells())?;
    put_output_uses(&mut all, net.outputs())?;
    Ok(all)
}

// Appends the uses by cells.
fn put_cell_uses(all: &mut Vec<Use>, cells: &[Cell]) -> Result<(), NoMemory>
    ensures { OnOk result (all.new.items ≡ all.old.items ++ cell_uses 0 cells.now) }
{
    for (number, cell) in cells.iter().enumerate() {
        put_operand_uses(all, number, *cell)?;
    }
    Ok(())
}

// Appends the uses by the operands of the cell with this number.
fn put_operand_uses(all: &mut Vec<Use>, number: usize, cell: Cell) -> Result<(), NoMemory>
    ensures { OnOk result (all.new.items
        ≡ all.old.items ++ operand_uses number 0 (operands_of cell)) }
{
    match cell {
        Cell::Input(_) => {}
        Cell::Not(a) => all.push(operand_use(a, number, 0))?,
        Cell::Gate(_, a, b) => {
            all.push(operand_use(a, number, 0))?;
            all.push(operand_use(b, number, 1))?;
        }
    }
    Ok(())
}

// The use of a cell's value by an operand of another.
fn operand_use(cell: usize, reader: usize, operand: u8) -> Use
    ensures { result ≡ use_of cell (Consumer.Operand reader operand) }
{
    Use {
        cell,
        consumer: Consumer::Operand(reader, operand),
    }
}

// Appends the uses by outputs.
fn put_output_uses(all: &mut Vec<Use>, outputs: &[usize]) -> Result<(), NoMemory>
    requires { length outputs.now < 4294967296 }
    ensures { OnOk result (all.new.items ≡ all.old.items ++ output_uses 0 outputs.now) }
{
    for (port, cell) in outputs.iter().enumerate() {
        all.push(Use {
            cell: *cell,
            consumer: Consumer::Output(port as u32),
        })?;
    }
    Ok(())
}
