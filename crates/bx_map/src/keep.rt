//! The drop: the cells from which an output can be reached, in their order, numbered anew.
ghost use Rattle.std.specs.List.{AllByRecursion};
ghost use Rattle.std.specs.Prelude.{◌≡◌, ◌<◌, ◌++◌, [], ◌∷◌, if◌then◌else◌, length, map, slice_index, All, IfOk, OnOk};
ghost use Rattle.bx_map.specs.Cells.{AreCells, cell_net, operands_of, with_numbers};
ghost use Rattle.bx_map.specs.Drops.{AreRanks, cone_of, cone_cells, stay_of};
ghost use Rattle.bx_map.specs.Marks.{AreMarks, with_marks};

use crate::cell::Cell;
use crate::cells::Cells;
use bx_logic::NoMemory;
use std::alloc::Global;

/// What stays of these cells, where the outputs have the values of these.
pub(crate) fn keep(alloc: Global, cells: &[Cell], outputs: &[usize]) -> Result<Cells, NoMemory>
    requires { AreCells (cell_net cells.now outputs.now) }
    ensures { IfOk result (λ kept. kept ≡ cone_of (cell_net cells.now outputs.now)) }
{
    let marks = marks_of(alloc, cells, outputs)?;
    let staying = staying_cells(alloc, cells, outputs, &marks)?;
    let outputs = ranks_of(alloc, outputs, &staying.ranks)?;
    Ok(Cells::new(staying.cells, outputs))
}

// Whether each cell stays: an output has its value, or a cell reads it that stays. Cells read earlier
// ones, so that one pass from the last to the first marks them all.
fn marks_of(alloc: Global, cells: &[Cell], outputs: &[usize]) -> Result<Vec<bool>, NoMemory>
    requires { AreCells (cell_net cells.now outputs.now) }
    ensures { IfOk result (λ marks.
        AreMarks (length cells.now) (stay_of (cell_net cells.now outputs.now)) marks.items) }
{
    let mut marks = vec![in alloc; false; cells.len()]?;
    mark_all(&mut marks, outputs);
    for i in (0..cells.len()).rev() {
        if marks[i] {
            mark_operands(&mut marks, cells[i]);
        }
    }
    Ok(marks)
}

// Marks each of these.
fn mark_all(marks: &mut Vec<bool>, numbers: &[usize])
    requires { All (λ a. a < length marks.old.items) numbers.now }
    ensures { marks.new.items ≡ with_marks marks.old.items numbers.now }
{
    for number in numbers {
        marks[*number] = true;
    }
}

// Marks what a cell reads.
fn mark_operands(marks: &mut Vec<bool>, cell: Cell)
    requires { AllByRecursion (λ a. a < length marks.old.items) (operands_of cell) }
    ensures { marks.new.items ≡ with_marks marks.old.items (operands_of cell) }
{
    match cell {
        Cell::Input(_) => {}
        Cell::Not(a) => marks[a] = true,
        Cell::Gate(_, a, b) => {
            marks[a] = true;
            marks[b] = true;
        }
    }
}

// The marked cells, numbered anew, and of each cell how many before it are marked.
fn staying_cells(
    alloc: Global,
    cells: &[Cell],
    outputs: &[usize],
    marks: &[bool],
) -> Result<Staying, NoMemory>
    requires cells { AreCells (cell_net cells.now outputs.now) }
    requires marks { AreMarks (length cells.now)
        (stay_of (cell_net cells.now outputs.now)) marks.now }
    ensures cells { IfOk result (λ staying.
        staying.cells.items ≡ cone_cells (cell_net cells.now outputs.now)) }
    ensures ranks { IfOk result (λ staying. AreRanks (length cells.now)
        (stay_of (cell_net cells.now outputs.now)) staying.ranks.items) }
{
    let mut staying = Staying {
        cells: Vec::new(alloc),
        ranks: Vec::new(alloc),
    };
    for (i, cell) in cells.iter().enumerate() {
        staying.add(*cell, marks[i])?;
    }
    Ok(staying)
}

// The cells that stay, with their new numbers, and of each cell its rank, how many before it stay.
#[derive(Drop)]
struct Staying {
    cells: Vec<Cell>,
    ranks: Vec<usize>,
}

impl Staying {
    // Adds a cell that reads earlier ones.
    fn add(&mut self, cell: Cell, stays: bool) -> Result<(), NoMemory>
        requires { AllByRecursion (λ a. a < length self.old.ranks.items) (operands_of cell) }
        ensures cells { OnOk result (self.new.cells.items ≡ (if stays
            then self.old.cells.items
            ++ (with_numbers (λ a. slice_index self.old.ranks.items a) cell ∷ [])
            else self.old.cells.items)) }
        ensures ranks { OnOk result (self.new.ranks.items
            ≡ self.old.ranks.items ++ (length self.old.cells.items ∷ [])) }
    {
        let rank = self.cells.len();
        if stays {
            self.cells.push(renumbered_cell(cell, &self.ranks))?;
        }
        self.ranks.push(rank)?;
        Ok(())
    }
}

// The cell with the ranks of what it reads.
fn renumbered_cell(cell: Cell, ranks: &[usize]) -> Cell
    requires { AllByRecursion (λ a. a < length ranks.now) (operands_of cell) }
    ensures { result ≡ with_numbers (λ a. slice_index ranks.now a) cell }
{
    match cell {
        Cell::Input(port) => Cell::Input(port),
        Cell::Not(a) => Cell::Not(ranks[a]),
        Cell::Gate(kind, a, b) => Cell::Gate(kind, ranks[a], ranks[b]),
    }
}

// The ranks of these cells.
fn ranks_of(alloc: Global, numbers: &[usize], ranks: &[usize]) -> Result<Vec<usize>, NoMemory>
    requires { All (λ a. a < length ranks.now) numbers.now }
    ensures { IfOk result (λ found.
        found.items ≡ map (λ a. slice_index ranks.now a) numbers.now) }
{
    Ok(numbers.iter().map(|number| ranks[*number]).collect(alloc)?)
}
